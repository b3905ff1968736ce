// A caller of `hlc_command_line`.

ghost use Rattle.std.specs.Prelude.{◌≡◌, IfNone, IfOk, IfSome, None};
ghost use Rattle.clap.specs.Walk.{texts};
ghost use Rattle.clap.specs.Words.{subcommand_of};
ghost use Rattle.hlc_command_line.specs.Line.{IsOrderFound, line_app};
ghost use Rattle.hlc_core.specs.State.{new_refusal};

use hlc_command_line::{LineFault, Order, order};
use hlc_stamp::Settings;
use std::alloc::Global;

/// The settings of the cluster that a command line asks to run a script on, if that is its order. No cluster refuses them.
#[tactic(auto, using(crate::proofs::Settings::found_settings_pass, crate::proofs::Settings::found_other))]
pub fn asked_settings(alloc: Global, arguments: &[&str]) -> Result<Option<Settings>, LineFault>
    ensures asked { IfOk result (λ found. IfSome found (λ settings.
        IsOrderFound (subcommand_of line_app (texts arguments.now)) (Order.Run settings))) }
    ensures other { IfOk result (λ found. IfNone found ((settings : Settings)
        → ¬ IsOrderFound (subcommand_of line_app (texts arguments.now)) (Order.Run settings))) }
    ensures accepted { IfOk result (λ found. IfSome found (λ settings. new_refusal settings.nodes settings.capacity ≡ None)) }
{
    match order(alloc, arguments)? {
        Order::Run(settings) => Ok(Some(settings)),
        _ => Ok(None),
    }
}
