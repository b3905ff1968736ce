// What follows a log in an input: questions, below a line that says so.

ghost use Rattle.std.specs.Prelude.{◌≡◌, ◌<◌, ◌++◌, ◌∷◌, [], IfErr, IfOk, IfSome, OnOk, length};
ghost use Rattle.hlc_json_lines.specs.Lines.{lines_of};
ghost use Rattle.hlc_log_commands.specs.Following.{AreAdded, AreParts, IsAddFault, IsMistaken, IsMistakenAt, IsReadFault, is_marker, log_part, questions_part};

use hlc_command_line::CommandFault;
use hlc_csv::RecordsFault;
use hlc_json_lines::is_blank;
use hlc_log_text::{LogQuestion, question_of};
use memchr::memchr;
use std::alloc::Global;
use std::io::{ErrorKind, Read};

/// An input is the log, the first line that says that questions follow, and these. Without such a line all of it is the log.
pub fn input_in_parts()
    ensures { AreParts }
{}

// All that an input has.
pub(crate) fn read_all<I: Read + Drop>(alloc: Global, reader: I) -> Result<Vec<u8>, CommandFault>
    ensures read { IfOk result (λ bytes. IfSome (I.remaining reader) (λ all. bytes.items ≡ all)) }
    ensures fault { IfErr result IsReadFault }
{
    let mut reader = reader;
    let mut bytes = Vec::new(alloc);
    match reader.read_to_end(&mut bytes) {
        Ok(_) => Ok(bytes),
        Err(error) => match error.kind() {
            ErrorKind::OutOfMemory => Err(CommandFault::Records(RecordsFault::Memory)),
            _ => Err(CommandFault::Records(RecordsFault::Read)),
        },
    }
}

// The first line of a text, with the line feed that ends it, and what stands below it.
fn first_line(text: &[u8]) -> (&[u8], &[u8])
    ensures whole { text.now ≡ result.0.now ++ result.1.now }
    ensures lines { 0 < length text.now → lines_of text.now ≡ result.0.now ∷ lines_of result.1.now }
    ensures fewer { 0 < length text.now → length result.1.now < length text.now }
{
    match memchr(b'\n', text) {
        Some(at) => text.split_at(at + 1),
        None => text.split_at(text.len()),
    }
}

// Whether a line says that questions follow.
fn is_marker(line: &[u8]) -> bool
    ensures { result ≡ is_marker line.now }
{
    line == b"==> questions <==\n".as_slice() || line == b"==> questions <==".as_slice()
}

// The log in an input, and what follows it below the line that says so.
pub(crate) fn parts(input: &[u8]) -> (&[u8], &[u8])
    ensures log { result.0.now ≡ log_part input.now }
    ensures questions { result.1.now ≡ questions_part input.now }
{
    let mut rest = input;
    while !rest.is_empty() {
        let (line, below) = first_line(rest);
        if is_marker(line) {
            return (&input[..input.len() - rest.len()], below);
        }
        rest = below;
    }
    (input, rest)
}

// Adds what the line of this number asks, if it isn't blank.
fn add_line(
    alloc: Global,
    questions: &mut Vec<LogQuestion>,
    line: &[u8],
    number: u64,
) -> Result<(), CommandFault>
    ensures added { OnOk result (AreAdded (line.now ∷ []) questions.old.items questions.new.items) }
    ensures other { IfErr result (IsAddFault (λ told. (told ≡ number) × IsMistaken line.now)) }
{
    if is_blank(line) {
        return Ok(());
    }
    questions.reserve(1)?;
    let Some(question) = question_of(alloc, line)? else {
        return Err(CommandFault::NoQuestion { line: number });
    };
    questions.push_reserved(question);
    Ok(())
}

// Adds what the lines of a text ask.
pub(crate) fn add_questions(
    alloc: Global,
    questions: &mut Vec<LogQuestion>,
    text: &[u8],
) -> Result<(), CommandFault>
    ensures added { OnOk result (AreAdded (lines_of text.now) questions.old.items questions.new.items) }
    ensures other { IfErr result (IsAddFault (IsMistakenAt (lines_of text.now))) }
{
    let mut rest = text;
    let mut number = 0;
    while !rest.is_empty() {
        let (line, below) = first_line(rest);
        number += 1;
        add_line(alloc, questions, line, number)?;
        rest = below;
    }
    Ok(())
}
