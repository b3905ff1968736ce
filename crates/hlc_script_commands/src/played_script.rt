// Replicas that play a seeded script.

ghost use Rattle.std.specs.Prelude.{◌≡◌, ◌*◌, ◌++◌, IfErr, IfOk, OnOk, codes, length};
ghost use Rattle.std.specs.Io.KnownBytes.{Appends};
ghost use Rattle.hlc_arena.specs.Arena.{history_of};
ghost use Rattle.hlc_arena.specs.ClockRule.{HasLeastStamps};
ghost use Rattle.hlc_core.specs.Lawful.{IsLawful};
ghost use Rattle.hlc_core.specs.Limit.{AreWithinLimit};
ghost use Rattle.hlc_core.specs.Timed.{requests_in};
ghost use Rattle.hlc_held.specs.Seats.{fresh_seats, log_at};
ghost use Rattle.hlc_shared.specs.Close.{EachAgrees};
ghost use Rattle.hlc_shared.specs.Replicas.{EachHasFollowed};
ghost use Rattle.hlc_seeded.specs.Storm.{storm_of};
ghost use Rattle.hlc_command_line.specs.CommandFault.{IsOfAnswer};
ghost use Rattle.hlc_script_commands.specs.Played.{IsPlayed, cluster_stop, counts_text, shared_stop, storm_stop};

use hlc_arena::Arena;
use hlc_command_line::CommandFault;
use hlc_core::{ClusterFault, Step};
use hlc_csv::{OutputFault, RecordsFault};
use hlc_explain::explain_all;
use hlc_held::Group;
use hlc_seeded::{StormFault, storm};
use hlc_shared::{AlwaysOpen, Closed, Shared, SharedFault, run_replicas};
use hlc_stamp::Settings;
use itoa::Buffer;
use std::alloc::{AllocError, Global};
use std::io::Write;
use std::sync::Wait;
use std::sync::ledger::Blank;
use std::thread::Threads;

// Why there are no seeded scripts, as a command's fault.
fn stop_of_storm(fault: StormFault) -> CommandFault
    ensures { result ≡ storm_stop fault }
{
    match fault {
        StormFault::BadSettings => CommandFault::Settings,
        StormFault::Memory => CommandFault::Records(RecordsFault::Memory),
    }
}

// Why there is no cluster, as a command's fault.
fn stop_of_cluster(fault: ClusterFault) -> CommandFault
    ensures { result ≡ cluster_stop fault }
{
    match fault {
        ClusterFault::BadNodes | ClusterFault::BadCapacity => CommandFault::Settings,
        ClusterFault::Memory => CommandFault::Records(RecordsFault::Memory),
    }
}

// A fault of replicas, as a command's.
fn stop_of_shared(fault: SharedFault) -> CommandFault
    ensures { result ≡ shared_stop fault }
{
    match fault {
        SharedFault::Mismatch(node) => CommandFault::Mismatch(node),
        SharedFault::GateShut(node) => CommandFault::GateShut(node),
        SharedFault::Memory => CommandFault::Records(RecordsFault::Memory),
    }
}

// The text of how many events there are, and how many of them were explained.
fn counts(alloc: Global, events: u32, explained: usize) -> Result<Vec<u8>, AllocError>
    ensures { IfOk result (λ text. text.items ≡ counts_text events explained) }
{
    let (mut events_digits, mut explained_digits) = (Buffer::new(), Buffer::new());
    let events = events_digits.format(events).as_bytes();
    let explained = explained_digits.format(explained).as_bytes();
    let mut text = Vec::new(alloc);
    text.extend_from_slice(b"events,")?;
    text.extend_from_slice(events)?;
    text.extend_from_slice(b"\nexplained,")?;
    text.extend_from_slice(explained)?;
    text.extend_from_slice(b"\n")?;
    Ok(text)
}

// Writes how many events there are, and how many of them were explained.
fn tell_counts<O: Write>(
    alloc: Global,
    events: u32,
    explained: usize,
    writer: &mut O,
) -> Result<(), OutputFault>
    ensures { OnOk result (Appends (O.contents writer.old) (O.contents writer.new) (counts_text events explained)) }
{
    let Ok(text) = counts(alloc, events, explained) else {
        return Err(OutputFault::Memory);
    };
    if writer.write_all(text.as_slice()).is_err() || writer.flush().is_err() {
        return Err(OutputFault::Write);
    }
    Ok(())
}

// Explains all stamps of a history, and writes how many there are.
fn tell_history<R: Threads + Sync, O: Write>(
    rt: &R,
    alloc: Global,
    history: &Arena,
    writer: &mut O,
) -> Result<(), OutputFault>
    requires { HasLeastStamps history.now.events }
    ensures { OnOk result (Appends (O.contents writer.old) (O.contents writer.new)
        (counts_text (length history.now.events) (length history.now.events))) }
{
    let Ok(summaries) = explain_all(rt, alloc, history.execution()) else {
        return Err(OutputFault::Memory);
    };
    tell_counts(alloc, history.len(), summaries.len(), writer)
}

// Plays scripts with a thread for each node of a new cluster.
fn play_scripts<L: Group + Sync, R: Threads + Wait + Sync>(
    rt: &R,
    alloc: Global,
    blank: Blank,
    settings: Settings,
    scripts: Vec<Vec<Step>>,
) -> Result<Closed, CommandFault>
    requires ledger { blank.name ≡ L.name }
    requires parts { (blank.parts ≡ L.parts) × (L.parts ≡ L.nodes) × (settings.nodes ≡ L.nodes) }
    requires capacity { settings.capacity ≡ L.capacity }
    requires limit { settings.limit ≡ L.limit }
    requires one_each { length scripts.items ≡ settings.nodes }
    ensures lawful { IfOk result (λ closed. IsLawful (history_of closed.history)) }
    ensures least { IfOk result (λ closed. HasLeastStamps closed.history.events) }
    ensures nodes { IfOk result (λ closed. closed.history.nodes ≡ L.nodes) }
    ensures capacity { IfOk result (λ closed. closed.history.capacity ≡ L.capacity) }
    ensures within { IfOk result (λ closed. AreWithinLimit L.limit closed.history.events) }
    ensures agree { IfOk result (λ closed. EachAgrees closed.history.events L.nodes (log_at closed.logs.items)) }
    ensures followed { IfOk result (λ closed. EachHasFollowed (requests_in scripts.items) (fresh_seats settings.nodes)
        (log_at closed.logs.items)) }
    ensures untold { IfErr result (λ fault. ¬ IsOfAnswer fault) }
{
    let (shared, seats) = match Shared::<L>::with_settings(alloc, blank, settings) {
        Ok(made) => made,
        Err(fault) => return Err(stop_of_cluster(fault)),
    };
    match run_replicas(rt, alloc, shared, seats, scripts, &AlwaysOpen) {
        Ok(closed) => Ok(closed),
        Err(fault) => Err(stop_of_shared(fault)),
    }
}

/// Plays a seeded script with a thread for each node, explains all stamps, and writes how many there are.
pub fn play<L: Group + Sync, R: Threads + Wait + Sync, O: Write>(
    rt: &R,
    alloc: Global,
    blank: Blank,
    nodes: u16,
    steps: u32,
    seed: u64,
    limit: Option<u64>,
    writer: &mut O,
) -> Result<(), CommandFault>
    requires ledger { blank.name ≡ L.name }
    requires parts { (blank.parts ≡ L.parts) × (blank.parts ≡ L.nodes) × (blank.parts ≡ nodes) }
    requires capacity { L.capacity ≡ nodes * steps }
    requires limit { L.limit ≡ limit }
    ensures done { OnOk result (IsPlayed nodes steps limit (storm_of seed nodes steps) (O.contents writer.old) (O.contents writer.new)) }
    ensures untold { IfErr result (λ fault. ¬ IsOfAnswer fault) }
{
    let scripts = match storm(alloc, seed, nodes, steps) {
        Ok(scripts) => scripts,
        Err(fault) => return Err(stop_of_storm(fault)),
    };
    let settings = Settings {
        nodes,
        capacity: u32::from(nodes) * steps,
        limit,
    };
    let Closed { history, logs } = play_scripts::<L, _>(rt, alloc, blank, settings, scripts)?;
    // The logs are many, and needed no more.
    drop(logs);
    tell_history(rt, alloc, &history, writer)?;
    Ok(())
}
