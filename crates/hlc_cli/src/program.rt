// The whole program, over a reader and two writers.

ghost use Rattle.std.specs.Prelude.{◌≡◌, ◌≤◌, ◌↔◌, ◌⊎◌, IfErr, IfOk, IsTrue, None, Ok, OnOk, Some};
ghost use Rattle.std.specs.Bool.{OnTrue};
ghost use Rattle.std.specs.Io.KnownBytes.{Appends};
ghost use Rattle.clap.specs.Values.{kind_of};
ghost use Rattle.clap.specs.Walk.{texts};
ghost use Rattle.hlc_command_line.specs.CommandFault.{IsOfAnswer as IsAnswered, IsOfInput as IsUnread};
ghost use Rattle.hlc_cli.specs.Ended.{Ends};
ghost use Rattle.hlc_cli.specs.Fault.{IsOfAnswer, IsOfInput, IsToldOf, command_status, line_at_end, line_of, line_with, note_line, status_at_end, status_of};
ghost use Rattle.hlc_cli.specs.Program.{AreMistaken, ArePerformed, ArePerformedBut, GiveOrder, HaveNote, IsDone, IsDoneBut, IsNoteAt, IsNoteFor, IsStop, IsText, IsTextAsked, MayHaveWritten, MayWrite, ReadsFirst, unnoted as unnoted_end};

use crate::ended::Ended;
use crate::fault::Fault;
use clap::error::ErrorKind;
use hlc_command_line::{
    CommandFault, Hint, LineFault, NoEvents, Order, hint_for, order, sign_hint,
};
use hlc_csv::RecordsFault;
use hlc_log_commands::{NameKey, audit_input, draw_log, vectors_of_log, watch_log};
use hlc_script_commands::{draw_script, play, print_storm, run_script, trace_script};
use hlc_trace::judge_run;
use std::fmt::Display;
use std::hash::RandomState;
use std::io;
use std::io::{Read, Write};
use std::marker::Brand;
use std::random::RandomSource;
use std::sync::Wait;
use std::sync::ledger::Blank;
use std::thread::Threads;

// Whether an error of clap is a text that was asked for.
fn is_text(error: &clap::Error) -> bool
    ensures { IsTrue result ↔ IsText (kind_of error.now) }
{
    let kind = error.kind();
    kind == ErrorKind::DisplayHelp || kind == ErrorKind::DisplayVersion
}

// Whether arguments give no order since they ask for a text.
fn asks_for_text(fault: &LineFault) -> bool
    ensures { IsTrue result ↔ IsTextAsked fault.now }
{
    match fault {
        LineFault::Line(error) => is_text(error),
        _ => false,
    }
}

// Shows such a text.
fn show<O: Write>(writer: &mut O, text: &LineFault) -> Result<(), Fault>
    ensures { IfErr result (λ fault. fault ≡ Fault.Command (CommandFault.Records RecordsFault.Write)) }
{
    if write!(writer, "{text}").is_err() || writer.flush().is_err() {
        return Err(Fault::Command(CommandFault::Records(RecordsFault::Write)));
    }
    Ok(())
}

// The end of what has no note.
fn unnoted<F>(ended: Result<(), F>) -> Result<Option<NoEvents>, F>
    ensures { result ≡ unnoted_end ended }
{
    match ended {
        Ok(()) => Ok(None),
        Err(fault) => Err(fault),
    }
}

// A key by which names are hashed: drawn at random, if the order is to read names. Where none can be had, the input counts as unread.
fn name_key<R: RandomSource>(rt: &R, order: &Order) -> Result<NameKey, CommandFault>
    ensures { IfErr result (λ fault. fault ≡ CommandFault.Records RecordsFault.Read) }
{
    match order {
        Order::Audit { .. } | Order::Watch { .. } | Order::DrawLog { .. } | Order::Vectors { .. } =>
            {
                match RandomState::new(rt) {
                    Ok(state) => Ok(NameKey::drawn(state)),
                    Err(_) => Err(CommandFault::Records(RecordsFault::Read)),
                }
            }
        _ => Ok(NameKey::fixed()),
    }
}

// Hands an order to what does it, and gives the note on it. Names of a log are hashed by the key.
fn carry_out<R: AllocGlobal + Threads + Wait + Sync, I: Read + Drop, O: Write>(
    rt: &R,
    order: Order,
    reader: I,
    writer: &mut O,
    key: NameKey,
) -> Result<Option<NoEvents>, CommandFault>
    ensures done { OnOk result (IsDone (I.remaining reader) (O.contents writer.old) (O.contents writer.new) order) }
    ensures told { IfErr result (λ fault. IsAnswered fault → IsDoneBut fault
        (I.remaining reader) (O.contents writer.old) (O.contents writer.new) order) }
    ensures noted { IfOk result (λ note. IsNoteFor (I.remaining reader) note order) }
    ensures unread { IfErr result (λ fault. IsUnread fault → ReadsFirst order → writer.new ≡ writer.old) }
    ensures begun { (writer.new ≡ writer.old) ⊎ MayWrite (I.remaining reader) order }
{
    let alloc = rt.alloc();
    match order {
        Order::Run(settings) => unnoted(run_script(alloc, reader, writer, settings)),
        Order::Draw { settings, part } => { draw_script(alloc, reader, writer, settings, part) }
        Order::Trace { settings, vector } => {
            trace_script(alloc, reader, writer, settings, vector)
        }
        Order::Judge => {
            judge_run(alloc, reader, writer)?;
            Ok(None)
        }
        Order::Audit {
            options,
            asked,
            json,
        } => audit_input(alloc, reader, writer, options, asked, json, key),
        Order::Watch { options, json } => { watch_log(alloc, reader, writer, options, json, key) }
        Order::DrawLog { options, json } => {
            unnoted(draw_log(alloc, reader, writer, options, json, key))
        }
        Order::Vectors { records, json } => unnoted(vectors_of_log(
            alloc, reader, writer, records, json, key,
        )),
        Order::Storm { nodes, steps, seed } => {
            unnoted(print_storm(alloc, nodes, steps, seed, writer))
        }
        Order::Threads {
            nodes,
            steps,
            seed,
            limit,
        } => {
            let blank = Blank::new(u64::from(nodes));
            unnoted(play::<Brand, _, _>(rt, alloc, blank, nodes, steps, seed, limit, writer))
        }
    }
}

// The same, with a key of its own.
fn dispatch<R: AllocGlobal + Threads + Wait + RandomSource + Sync, I: Read + Drop, O: Write>(
    rt: &R,
    order: Order,
    reader: I,
    writer: &mut O,
) -> Result<Option<NoEvents>, CommandFault>
    ensures done { OnOk result (IsDone (I.remaining reader) (O.contents writer.old) (O.contents writer.new) order) }
    ensures told { IfErr result (λ fault. IsAnswered fault → IsDoneBut fault
        (I.remaining reader) (O.contents writer.old) (O.contents writer.new) order) }
    ensures noted { IfOk result (λ note. IsNoteFor (I.remaining reader) note order) }
    ensures unread { IfErr result (λ fault. IsUnread fault → ReadsFirst order → writer.new ≡ writer.old) }
    ensures begun { (writer.new ≡ writer.old) ⊎ MayWrite (I.remaining reader) order }
{
    match name_key(rt, &order) {
        Ok(key) => carry_out(rt, order, reader, writer, key),
        Err(fault) => {
            // By a function: else there is a way out of here for each order that owns something.
            drop(order);
            Err(fault)
        }
    }
}

/// Performs the arguments of a command line: does the order that they give, or shows the text that they ask for. `perform` tells the
/// user of its faults, and of its note: a script that is drawn or traced has records, and none of them is an event, or a log that is audited or
/// watched has none.
pub fn try_perform<R: AllocGlobal + Threads + Wait + RandomSource + Sync, I: Read + Drop, O: Write>(
    rt: &R,
    arguments: &[&str],
    reader: I,
    writer: &mut O,
) -> Result<Option<NoEvents>, Fault>
    ensures done { OnOk result (ArePerformed (texts arguments.now) (I.remaining reader) (O.contents writer.old) (O.contents writer.new)) }
    ensures noted { IfOk result (IsNoteAt (texts arguments.now) (I.remaining reader)) }

    // If an event is named that isn't there, the input is not a log, or has no event, or stamps in it are broken or over the limit, the rest is
    // done: the picture is drawn, or the log audited or watched, and the output says so.
    ensures told { IfErr result (λ fault. IsOfAnswer fault → ArePerformedBut fault (texts arguments.now)
        (I.remaining reader) (O.contents writer.old) (O.contents writer.new)) }
    ensures stopped { IfErr result (IsStop (texts arguments.now)) }
    ensures untouched { IfErr result (λ fault. status_of fault ≡ 2 → writer.new ≡ writer.old) }

    // If the input can't be read or is too long, no part of a picture, of a log, of verdicts or of a report was written. However it ends,
    // a picture or a log of a script is begun only once the whole script has left a history.
    ensures unread { IfErr result (λ fault. IsOfInput fault → GiveOrder (texts arguments.now) (λ order. ReadsFirst order → writer.new ≡ writer.old)) }
    ensures begun { (writer.new ≡ writer.old) ⊎ MayHaveWritten (texts arguments.now) (I.remaining reader) }
{
    match order(rt.alloc(), arguments) {
        Ok(order) => Ok(dispatch(rt, order, reader, writer)?),
        Err(fault) => {
            if asks_for_text(&fault) {
                let shown = show(writer, &fault);
                drop(fault);
                unnoted(shown)
            } else {
                Err(Fault::Line(fault))
            }
        }
    }
}

// Writes a line of the program's own.
fn write_line<E: Write, T: Display>(errors: &mut E, told: &T) -> io::Result<()>
    ensures { OnOk result (IsToldOf (line_with (T.output told.now)) (E.contents errors.old) (E.contents errors.new)) }
{
    writeln!(errors, "hlc: {told}")
}

// Writes what is told of arguments that give no order: clap's text, and what else is told of them. Of a number with a sign only the range is
// told, if that is known.
fn tell_of_arguments<E: Write>(
    errors: &mut E,
    fault: &LineFault,
    hint: Option<Hint>,
) -> io::Result<()> {
    match fault {
        LineFault::Line(text) => write!(errors, "{text}")?,
        _ if hint.is_none() => write_line(errors, fault)?,
        _ => {}
    }
    match hint {
        Some(hint) => write_line(errors, &hint),
        None => Ok(()),
    }
}

// Writes the line of a fault, or what is told of the arguments.
fn tell<E: Write>(errors: &mut E, fault: &Fault, hint: Option<Hint>) -> io::Result<()>
    ensures { OnOk result (IsToldOf (line_of fault.now) (E.contents errors.old) (E.contents errors.new)) }
{
    match fault {
        Fault::Line(fault) => tell_of_arguments(errors, fault, hint)?,
        Fault::Encoding | Fault::Command(_) => write_line(errors, fault)?,
    }
    errors.flush()
}

// The exit status of a command that stopped.
fn command_status(fault: CommandFault) -> u8
    ensures { result ≡ command_status fault }
{
    match fault {
        CommandFault::BrokenStamps | CommandFault::OverLimit => 3,
        CommandFault::BadLog | CommandFault::EmptyLog | CommandFault::NoQuestion { .. } => 4,
        CommandFault::NoEvent
        | CommandFault::Settings
        | CommandFault::Mismatch(_)
        | CommandFault::GateShut(_)
        | CommandFault::LogTooLong { .. }
        | CommandFault::Records(_) => 1,
    }
}

// The exit status of a fault.
fn status(fault: &Fault) -> u8
    ensures { result ≡ status_of fault.now }
{
    match fault {
        Fault::Command(fault) => command_status(*fault),
        Fault::Line(LineFault::Memory) => 1,
        Fault::Encoding | Fault::Line(_) => 2,
    }
}

// Reports a fault, with what else is told of the arguments.
fn report_with<E: Write>(errors: &mut E, fault: &Fault, hint: Option<Hint>) -> Ended
    ensures status { result.status ≡ status_of fault.now }
    ensures line { OnTrue result.told (IsToldOf (line_of fault.now) (E.contents errors.old) (E.contents errors.new)) }
{
    let told = tell(errors, fault, hint).is_ok();
    let status = status(fault);
    Ended { status, told }
}

/// Reports a fault, if that can be written, and gives its exit status.
pub fn report<E: Write>(errors: &mut E, fault: &Fault) -> Ended
    ensures status { result.status ≡ status_of fault.now }
    ensures line { OnTrue result.told (IsToldOf (line_of fault.now) (E.contents errors.old) (E.contents errors.new)) }
{
    report_with(errors, fault, None)
}

// What else is told of arguments that have this fault.
fn hint_at(arguments: &[&str], fault: &Fault) -> Option<Hint> {
    match fault {
        Fault::Line(LineFault::Line(error)) => hint_for(arguments, error),
        Fault::Line(LineFault::Sign(option)) => sign_hint(arguments, option),
        _ => None,
    }
}

// Writes the line of a note.
fn write_note<E: Write>(errors: &mut E, note: NoEvents) -> io::Result<()>
    ensures { OnOk result (Appends (E.contents errors.old) (E.contents errors.new) (note_line (Some note))) }
{
    write_line(errors, &note)?;
    errors.flush()
}

// Ends what was done, and tells of its note.
fn end_noting<E: Write>(errors: &mut E, note: NoEvents) -> Ended
    ensures status { result.status ≡ 0 }
    ensures line { OnTrue result.told (Appends (E.contents errors.old) (E.contents errors.new) (note_line (Some note))) }
{
    let told = write_note(errors, note).is_ok();
    Ended { status: 0, told }
}

// Ends a performance, and reports its fault or its note if there is one.
fn end<E: Write>(
    errors: &mut E,
    arguments: &[&str],
    performed: &Result<Option<NoEvents>, Fault>,
) -> Ended
    ensures status { result.status ≡ status_at_end performed.now }
    ensures line { OnTrue result.told (IsToldOf (line_at_end performed.now) (E.contents errors.old) (E.contents errors.new)) }
    ensures quiet { performed.now ≡ Ok None → IsTrue result.told × (errors.new ≡ errors.old) }
{
    match performed {
        Ok(None) => Ended {
            status: 0,
            told: true,
        },
        Ok(Some(note)) => end_noting(errors, *note),
        Err(fault) => report_with(errors, fault, hint_at(arguments, fault)),
    }
}

/// Performs what a command line asks for, given its arguments, the first of which is the program's name, and tells how that ended: with
/// status 0 if it was done, 1 for a fault, which a line on `errors` reports, 2 for a mistake in the arguments, which clap's text or a
/// line on `errors` reports, 3 for a log whose stamps are broken or over the limit, and 4 for an input that is no log, or, in a strict audit or watch,
/// one without events, or in which a line that follows a log asks nothing, each with its line. At status 0 a line on `errors` says so if a script that was drawn or traced has records, and none of them is
/// an event, or if a log that was audited or watched has none. Where the line can't be written, the status is the same.
pub fn perform<
    R: AllocGlobal + Threads + Wait + RandomSource + Sync,
    I: Read + Drop,
    O: Write,
    E: Write,
>(rt: &R, arguments: &[&str], reader: I, writer: &mut O, errors: &mut E) -> Ended
    // It ended well, or in a fault for which holds what is said of it; its status is the one of that fault, and so is the line.
    ensures ended { Ends (texts arguments.now) (I.remaining reader) (O.contents writer.old) (O.contents writer.new)
        (E.contents errors.old) (E.contents errors.new) result }
    ensures status { result.status ≤ 4 }
    ensures done { result.status ≡ 0 → ArePerformed (texts arguments.now) (I.remaining reader) (O.contents writer.old) (O.contents writer.new) }
    // What was done is told only if it has a note. The line of the note is then what `ended` says.
    ensures quiet { result.status ≡ 0 → (IsTrue result.told × (errors.new ≡ errors.old)) ⊎ HaveNote (texts arguments.now) (I.remaining reader) }
    ensures mistaken { result.status ≡ 2 → AreMistaken (texts arguments.now) }
    ensures untouched { result.status ≡ 2 → writer.new ≡ writer.old }
    ensures begun { (writer.new ≡ writer.old) ⊎ MayHaveWritten (texts arguments.now) (I.remaining reader) }
{
    let performed = try_perform(rt, arguments, reader, writer);
    end(errors, arguments, &performed)
}
