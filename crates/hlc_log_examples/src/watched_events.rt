ghost use Rattle.std.specs.Prelude.{◌≡◌, ◌-◌, ◌^◌, IfOk, OnErr, OnOk, option_map};
ghost use Rattle.hlc_causality.specs.declared.receives.Receives.TheVariants as Receives;
ghost use Rattle.hlc_log.specs.Events.{IsSmallCarried};
ghost use Rattle.hlc_watch.specs.Records.{line_causes, ruled_by};
ghost use Rattle.hlc_watch.specs.Watching.{after_event, event_of};

use hlc_causality::Receives;
use hlc_log::LogEvent;
use hlc_watch::{Complete, LineCauses, RuledEvent, Watch};
use std::alloc::{AllocError, Global};
use std::hash::BuildHasher;

/// Which rules an event breaks, as it comes, if all its records are there.
pub fn watch_event<S: BuildHasher + Drop>(
    alloc: Global,
    watch: &mut Watch<S>,
    event: &LogEvent,
    message: &[u8],
) -> Result<Option<LineCauses>, AllocError>
    requires { IsSmallCarried event.now.carried }
    ensures causes { IfOk result (λ causes. causes
        ≡ option_map (line_causes (2 ^ 32 - 1)) (event_of watch.old (ruled_by Receives.Tick 0 event.now) message.now)) }
    ensures kept { OnOk result (watch.new ≡ after_event watch.old (ruled_by Receives.Tick 0 event.now) message.now) }
    ensures unchanged { OnErr result (watch.new ≡ watch.old) }
{
    let mut complete = Complete {
        event: None,
        waited: Vec::new(alloc),
    };
    let ruled = RuledEvent::new(Receives::Tick, 0, event);
    watch.event(&ruled, message, &mut complete)?;
    Ok(complete.event.map(|records| records.causes(u32::MAX)))
}
