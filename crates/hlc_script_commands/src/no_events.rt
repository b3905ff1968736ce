// What is noted of a script that leaves no event.

ghost use Rattle.std.specs.Prelude.{◌≡◌};
ghost use Rattle.hlc_script_commands.specs.NoEvents.{note_of};

use hlc_command_line::NoEvents;
use hlc_text::Counts;

// What there is to note of a script of which this came.
pub(crate) fn note_on(counts: Counts) -> Option<NoEvents>
    ensures { result ≡ note_of counts.records counts.events }
{
    let records = counts.records;
    if records > 0 && counts.events == 0 {
        Some(NoEvents::Script { records })
    } else {
        None
    }
}
