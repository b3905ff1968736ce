// The numbers of nodes and files, by their names.

ghost use Rattle.std.specs.Prelude.{◌≡◌};
ghost use Rattle.hlc_watched_log.specs.Numbers.{name_number};

use hlc_log_text::NameSet;

// The number of a name, which a new one takes at their end.
pub(crate) fn name_number(names: &NameSet, name: &[u8]) -> usize
    ensures { result ≡ name_number names.now name.now }
{
    names.number(name).unwrap_or(names.len())
}
