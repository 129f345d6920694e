//! What lines hold goes with them (MQTT 5.0, 2.1, 4.13).
ghost use Rattle.std.specs.Prelude.{◌≡◌, IfOk, OnErr};
ghost use Rattle.mqtt_broker.specs.engine.Serving.{ended, without_closed};

use crate::engine::framers::Framers;
use crate::stored::Outcome;
use mqtt_broker_step::EngineError;

/// Lines close, one after the other.
fn end_each(framers: &mut Framers, closed: &[u64])
    ensures { framers.new ≡ ended closed.now framers.old }
{
    let mut rest = closed;
    while let Some((line, after)) = rest.split_first() {
        framers.end(*line);
        rest = after;
    }
}

/// Lines that closed hold nothing any more. Takes no memory.
pub(crate) fn end_all(framers: &mut Framers, closed: &[u64])
    ensures { framers.new ≡ without_closed closed.now framers.old }
{
    end_each(framers, closed);
}

/// The lines that an answer says closed hold nothing any more. Takes no memory.
pub(crate) fn end_closed(framers: &mut Framers, answer: &Result<Outcome, EngineError>)
    ensures held { IfOk answer.now (λ out. framers.new ≡ without_closed out.closed.items framers.old) }
    ensures kept { OnErr answer.now (framers.new ≡ framers.old) }
{
    match answer {
        Ok(outcome) => end_all(framers, &outcome.closed),
        Err(_) => {}
    }
}
