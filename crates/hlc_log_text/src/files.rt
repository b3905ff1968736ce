ghost use Rattle.std.specs.Prelude.{◌≡◌, ◌<◌, ◌∷◌, ◌++◌, [], All, IfOk, IfSome, OnErr, OnOk, Option, None, option_map};
ghost use Rattle.hlc_log_text.specs.Files.{line_at, location_of, mark_before, mark_named, start_of};
ghost use Rattle.hlc_log_text.specs.BadRecords.{bad_record_on};

use crate::bad_log::{BadLine, BadRecord};
use crate::file_mark::FileMark;
use crate::location::Location;
use hlc_pages::Bytes;
use std::alloc::{AllocError, Global};
use std::marker::Model;

/// The files that a log was put together of, by their marks; seen as the list of these, whose lines rise.
///
/// A line stands in the file of the last mark before it, and is counted from that: the line after the mark is 1.
#[derive(Drop)]
pub struct Files {
    marks: Vec<FileMark>,
}

impl Model for Files {
    ghost use Rattle.std.specs.Prelude.{List};
    ghost use Rattle.hlc_log_text.specs.declared.file_mark.FileMark.{FileMark};
    ghost use Rattle.hlc_log_text.specs.Files.{MarksRise};

    ghost Value = { List FileMark };

    ghost view = { λ files. files.marks.items };

    ghost invariant = { λ files. MarksRise files.marks.items };
}

impl Files {
    /// None. It takes no memory.
    pub fn new(alloc: Global) -> Files
        ensures { result ≡ [] }
    {
        Files {
            marks: Vec::new(alloc),
        }
    }

    /// Begins a file of this name, by a mark on a line after all others.
    pub fn begin(&mut self, name: &[u8], line: u32) -> Result<(), AllocError>
        requires { All (λ mark. mark.line < line) self.old }
        ensures begun { OnOk result (self.new ≡ self.old ++ record { name = name.now; line = line } ∷ []) }
        ensures unchanged { OnErr result (self.new ≡ self.old) }
    {
        let name = Bytes::from_slice(*self.marks.allocator(), name)?;
        self.marks.push(FileMark { name, line })?;
        Ok(())
    }

    /// The allocator of what it keeps.
    pub fn allocator(&self) -> Global {
        *self.marks.allocator()
    }

    /// The mark of the file in which a line stands, if a mark stands before it. It takes a search by halves.
    pub fn mark_before(&self, line: u64) -> Option<&FileMark>
        ensures mark { option_map (λ mark. mark.now) result ≡ mark_before self.now line }
        ensures before { IfSome result (λ mark. mark.now.line < line) }
    {
        let before = self
            .marks
            .partition_point(|mark| u64::from(mark.line) < line);
        if before == 0 {
            return None;
        }
        self.marks.get(before - 1)
    }

    /// Where a line, counted over all files, stands in them. It takes memory only if that is in a file.
    pub fn location(&self, line: u64) -> Result<Location, AllocError>
        ensures { IfOk result (λ location. location ≡ location_of self.now line) }
    {
        match self.mark_before(line) {
            None => Ok(Location { file: None, line }),
            Some(mark) => Ok(Location {
                file: Some(Bytes::from_slice(self.allocator(), &mark.name)?),
                line: line - u64::from(mark.line),
            }),
        }
    }

    // A bad record, told by where it stands.
    pub(crate) fn bad_record(&self, bad: BadLine) -> Result<BadRecord, AllocError>
        ensures { IfOk result (λ told. told ≡ bad_record_on self.now bad) }
    {
        Ok(BadRecord {
            location: self.location(u64::from(bad.line))?,
            why: bad.why,
        })
    }

    // The first mark of a name, if there is one.
    fn mark_named(&self, name: &[u8]) -> Option<&FileMark>
        ensures { option_map (λ mark. mark.now) result ≡ mark_named self.now name.now }
    {
        for mark in &self.marks {
            if &mark.name[..] == name {
                return Some(mark);
            }
        }
        None
    }

    // The line after which those of a file are counted.
    fn start(&self, file: Option<&[u8]>) -> Option<u64>
        ensures { result ≡ start_of self.now (option_map (λ file. file.now) file.entry) }
    {
        match file {
            None => Some(0),
            Some(name) => Some(u64::from(self.mark_named(name)?.line)),
        }
    }

    /// The line of a location, counted over all files, if the log has it. Of several files of a name, it is in the first one.
    pub fn line_at(&self, location: &Location) -> Option<u64>
        ensures { result ≡ line_at self.now location.now }
    {
        let file = match &location.file {
            Some(name) => Some(&name[..]),
            None => None,
        };
        let line = self.start(file)?.checked_add(location.line)?;
        let counted = match self.mark_before(line) {
            Some(mark) => line - u64::from(mark.line),
            None => line,
        };
        if counted == location.line {
            Some(line)
        } else {
            None
        }
    }
}
