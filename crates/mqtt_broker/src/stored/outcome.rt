//! What a call answers (MQTT 5.0, 4.1).
ghost use Rattle.std.specs.Prelude.{◌≡◌};
ghost use Rattle.mqtt_rules.specs.step.Step.{nothing_told};
ghost use Rattle.mqtt_broker.specs.stored.Calling.{Tells};

use bytes::Bytes;
use mqtt_broker_step::Outcome as StepOutcome;
use mqtt_rules::Report;
use std::alloc::Global;

/// What a call answers, each list in the order in which it came about.
#[derive(Drop)]
pub struct Outcome {
    /// Packets as they go out, each with its line.
    pub outputs: Vec<(u64, Bytes)>,
    /// Lines that closed.
    pub closed: Vec<u64>,
    /// What came about.
    pub reports: Vec<Report>,
    /// Bytes of a piece that were taken.
    pub taken: usize,
    /// Whether to call again: more may be there.
    pub again: bool,
}

/// The answer of a call that took no bytes.
pub(crate) fn answered(told: StepOutcome, again: bool) -> Outcome
    ensures outputs { result.outputs.items ≡ told.outputs.items }
    ensures closed { result.closed.items ≡ told.closed.items }
    ensures reports { result.reports.items ≡ told.reports.items }
    ensures taken { result.taken ≡ 0 }
    ensures again { result.again ≡ again }
{
    let StepOutcome {
        outputs,
        closed,
        reports,
    } = told;
    Outcome {
        outputs,
        closed,
        reports,
        taken: 0,
        again,
    }
}

/// The answer if nothing came about. Takes no memory.
pub(crate) fn nothing(alloc: Global) -> Outcome
    ensures { Tells nothing_told result }
{
    Outcome {
        outputs: Vec::new(alloc),
        closed: Vec::new(alloc),
        reports: Vec::new(alloc),
        taken: 0,
        again: false,
    }
}
