//! PUBREL for each released copy, with which a resumption begins (MQTT 5.0, 4.4).
ghost use Rattle.std.specs.Prelude.{OnOk, IfErr};
ghost use Rattle.mqtt_rules.specs.step.Deeds.{always};
ghost use Rattle.mqtt_broker_step.specs.Stepping.{Did, IsLeft};
ghost use Rattle.mqtt_broker_acts.specs.connecting.Connecting.{repeat, repeats};

use mqtt_base::Reason;
use mqtt_broker_looks::sent::pubrel;
use mqtt_broker_step::{Step, StepFault};
use mqtt_flow::Turn;
use std::alloc::Global;

/// A PUBREL goes out again.
fn repeat(alloc: Global, step: &mut Step, line: u64, turn: Turn) -> Result<(), StepFault>
    ensures ok { OnOk result (Did (always (repeat line turn)) step.old step.new) }
    ensures left { IfErr result (λ fault.
        IsLeft (always (repeat line turn)) fault step.old step.new) }
{
    match turn {
        Turn::Repeat { identifier } => {
            step.send_spelled(line, pubrel(alloc, identifier, Reason::SUCCESS)?)
        }
        Turn::Send { .. }
        | Turn::Resend { .. }
        | Turn::Release { .. }
        | Turn::Outgrow { .. }
        | Turn::Unknown { .. }
        | Turn::Leave { .. } => Ok(()),
    }
}

/// PUBRELs go out again, one after the other.
pub(crate) fn repeat_all(
    alloc: Global,
    step: &mut Step,
    line: u64,
    turns: Vec<Turn>,
) -> Result<(), StepFault>
    ensures ok { OnOk result (Did (always (repeats line turns.items)) step.old step.new) }
    ensures left { IfErr result (λ fault.
        IsLeft (always (repeats line turns.items)) fault step.old step.new) }
{
    for turn in turns {
        repeat(alloc, step, line, turn)?;
    }
    Ok(())
}
