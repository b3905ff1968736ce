// Where the lines of a log stand that was put together of several files.

ghost use Rattle.std.specs.Prelude.{◌≡◌, ◌<◌, ◌≤◌, IfOk, OnOk, length};
ghost use Rattle.hlc_watched_log.specs.Files.{last_before, line_here, marked_at, moved_to, no_files, number_at};
ghost use Rattle.hlc_watched_log.specs.Numbers.{with_number};

use hlc_watch::FileLine;
use std::alloc::{AllocError, Global};
use std::marker::Model;

// The files that were begun so far, by their numbers; what comes before the first mark is file 0.
#[derive(Drop)]
pub(crate) struct FileLines {
    // How many lines of each came before its last mark.
    counted: Vec<u32>,
    // The file that is read, and the line of the input on which its last mark stands.
    current: u32,
    begun: u32,
    // The line of the last record.
    last: u32,
}

impl Model for FileLines {
    ghost use Rattle.hlc_watched_log.specs.Files.{KeptFiles};

    ghost Value = { KeptFiles };

    ghost view = { λ files. record {
      counted = files.counted.items;
      current = files.current;
      begun = files.begun;
      last = files.last;
    } };

    ghost use Rattle.std.specs.Prelude.{◌<◌, length};

    ghost invariant = { λ files. files.current < length files.counted.items };
}

impl FileLines {
    // None was begun.
    pub(crate) fn new(alloc: Global) -> Result<FileLines, AllocError>
        ensures { IfOk result (λ files. files ≡ no_files) }
    {
        let mut counted = Vec::new(alloc);
        counted.push(0)?;
        Ok(FileLines {
            counted,
            current: 0,
            begun: 0,
            last: 0,
        })
    }

    // The number of the file that is read.
    pub(crate) fn current(&self) -> u32
        ensures current { result ≡ self.now.current }
        ensures within { result < length self.now.counted }
    {
        self.current
    }

    // The next record stands on a line of the input.
    pub(crate) fn move_to(&mut self, line: u32)
        ensures { self.new ≡ moved_to self.old line }
    {
        self.last = line;
    }

    // The number of a line of the input in the file that is read.
    fn number_at(&self, line: u32) -> u32
        ensures { result ≡ number_at self.now line }
    {
        let before = self.counted[self.current as usize];
        before.saturating_add(line.saturating_sub(self.begun))
    }

    // Where the last record stands.
    pub(crate) fn line_here(&self) -> FileLine
        ensures { result ≡ line_here self.now }
    {
        FileLine {
            file: self.current,
            number: self.number_at(self.last),
        }
    }

    // The last line of the file that is read before a mark: `tail` puts an empty line before it.
    fn last_before(&self, mark: u32) -> u32
        ensures { result ≡ last_before self.now mark }
    {
        self.last.max(mark.saturating_sub(2))
    }

    // Begins a file, or goes on with it, by a mark on a line.
    pub(crate) fn begin(&mut self, file: u32, line: u32) -> Result<(), AllocError>
        requires { file ≤ length self.old.counted }
        ensures { OnOk result (self.new ≡ marked_at self.old file line) }
    {
        let number = self.number_at(self.last_before(line));
        add_file(&mut self.counted, file as usize)?;
        self.counted[self.current as usize] = number;
        self.current = file;
        self.begun = line;
        self.last = line;
        Ok(())
    }
}

// Adds a file of this number, if it is new.
fn add_file(counted: &mut Vec<u32>, file: usize) -> Result<(), AllocError>
    ensures added { OnOk result (counted.new.items ≡ with_number 0 counted.old.items file) }
    ensures grows { length counted.old.items ≤ length counted.new.items }
{
    if file == counted.len() {
        counted.push(0)?;
    }
    Ok(())
}
