// How the nodes of a log are spelled.

ghost use Rattle.std.specs.Prelude.{◌≡◌, ◌++◌, OnOk, map};
ghost use Rattle.std.specs.List.{list_any};
ghost use Rattle.hlc_log_text.specs.LogText.{name_of};
ghost use Rattle.hlc_log_picture.specs.NodeText.{is_replaced, shown_byte, spelled_name};

use hlc_explain::NodeTexts;
use hlc_log_text::Names;
use itoa::Buffer;
use std::alloc::AllocError;

// Whether a byte doesn't stand in the text of a node as it is: tools take a blank for its end, and a quotation mark or a backslash for JSON's own,
// and after a tilde comes a number.
fn is_replaced(byte: u8) -> bool
    ensures { result ≡ is_replaced byte }
{
    !matches!(byte, b'!' | b'#'..=b'[' | b']'..=b'}')
}

// Whether a name has such a byte.
fn has_replaced(name: &[u8]) -> bool
    ensures { result ≡ list_any is_replaced name.now }
{
    name.iter().any(|byte| is_replaced(*byte))
}

// What stands for a byte.
fn shown_byte(byte: u8) -> u8
    ensures { result ≡ shown_byte byte }
{
    if is_replaced(byte) { b'_' } else { byte }
}

// Adds a name, with an underscore for each byte that doesn't stand there as it is.
fn put_shown(text: &mut Vec<u8>, name: &[u8]) -> Result<(), AllocError>
    ensures { OnOk result (text.new.items ≡ text.old.items ++ map shown_byte name.now) }
{
    for byte in name {
        text.push(shown_byte(*byte))?;
    }
    Ok(())
}

// Adds the name of a node as its text.
fn put_name(text: &mut Vec<u8>, name: &[u8], number: usize) -> Result<(), AllocError>
    ensures { OnOk result (text.new.items ≡ text.old.items ++ spelled_name name.now number) }
{
    if !has_replaced(name) {
        return text.extend_from_slice(name);
    }
    put_shown(text, name)?;
    text.push(b'~')?;
    text.extend_from_slice(Buffer::new().format(number).as_bytes())
}

// The name of a node, which is empty if no node has this number.
fn name_of(names: &Names, number: usize) -> &[u8]
    ensures { result.now ≡ name_of names.now number }
{
    names.name(number).unwrap_or(b"")
}

// The names of a log's nodes, as tools can read them.
#[derive(Clone, Copy)]
pub(crate) struct NodeNames<'a> {
    pub(crate) names: &'a Names,
}

impl<'a> NodeTexts for NodeNames<'a> {
    ghost use Rattle.hlc_log_picture.specs.NodeText.{node_text};

    ghost text_of = { λ nodes. node_text nodes.names.now };

    fn put_node(&self, text: &mut Vec<u8>, number: usize) -> Result<(), AllocError> {
        put_name(text, name_of(self.names, number), number)
    }
}
