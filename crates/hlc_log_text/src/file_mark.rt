ghost use Rattle.std.specs.Prelude.{◌≡◌, option_map};
ghost use Rattle.csv.specs.Records.{fields_of};
ghost use Rattle.hlc_log_text.specs.FileMarks.{begun_file, file_name};

use crate::record_head::may_be_name;
use csv::ByteRecord;
use hlc_csv::field;
use hlc_pages::Bytes;

/// A record of a log that names the file whose lines come after it.
#[derive(Drop)]
pub struct FileMark {
    /// The name of the file.
    pub name: Bytes<'static>,
    /// The line of the mark, from 1, counted over all files.
    pub line: u32,
}

/// The name of the file that a field marks, as `tail` and `head` write it before each of several files: `==> NAME <==`. It has 1 to `MAX_NAME_LEN`
/// bytes.
pub fn file_name(field: &[u8]) -> Option<&[u8]>
    ensures { option_map (λ name. name.now) result ≡ file_name field.now }
{
    let name = field.strip_prefix(b"==> ")?.strip_suffix(b" <==")?;
    if may_be_name(name) { Some(name) } else { None }
}

/// The name of the file that a record begins, if it begins one: its only field marks it.
pub fn begun_file(fields: &ByteRecord) -> Option<&[u8]>
    ensures { option_map (λ name. name.now) result ≡ begun_file (fields_of fields.now) }
{
    if fields.len() == 1 {
        file_name(field(fields, 0))
    } else {
        None
    }
}
