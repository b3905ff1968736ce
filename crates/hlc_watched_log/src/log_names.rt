// The names in a log.

ghost use Rattle.std.specs.Prelude.{◌≡◌, IfOk, option_map};
ghost use Rattle.hlc_log_text.specs.LogText.{name_of};
ghost use Rattle.hlc_watched_log.specs.Files.{file_named, told_line};

use hlc_log_text::{LineText, Location, NameSet, NodeNames};
use hlc_pages::Bytes;
use hlc_stamp::NodeId;
use hlc_watch::FileLine;
use std::alloc::{AllocError, Global};

// The names of its nodes, and those of its files, of which the first is file 1.
#[derive(Drop)]
pub(crate) struct LogNames {
    pub(crate) nodes: NodeNames,
    pub(crate) files: NameSet,
}

impl LogNames {
    // The name of a node, which is empty if no node has this number.
    pub(crate) fn node(&self, node: NodeId) -> &[u8]
        ensures { result.now ≡ name_of self.now.nodes node.0 }
    {
        self.nodes.names().name(node.0 as usize).unwrap_or(b"")
    }

    // The name of a file, if it has one.
    fn file(&self, file: u32) -> Option<&[u8]>
        ensures { option_map (λ name. name.now) result ≡ file_named self.now.files file }
    {
        match file {
            0 => None,
            _ => self.files.name(file as usize - 1),
        }
    }

    // A copy of it.
    fn file_copy(&self, alloc: Global, file: u32) -> Result<Option<Bytes<'static>>, AllocError>
        ensures { IfOk result (λ name. name ≡ file_named self.now.files file) }
    {
        match self.file(file) {
            None => Ok(None),
            Some(name) => Ok(Some(Bytes::from_slice(alloc, name)?)),
        }
    }

    // How a line is told. It takes memory only if its file has a name.
    pub(crate) fn line(&self, alloc: Global, line: FileLine) -> Result<LineText, AllocError>
        ensures { IfOk result (λ text. text ≡ told_line self.now.files line) }
    {
        let file = self.file_copy(alloc, line.file)?;
        let location = Location {
            file,
            line: u64::from(line.number),
        };
        LineText::of(alloc, &location)
    }
}
