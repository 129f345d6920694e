//! How many copies there are for the session on a line (MQTT 5.0, 4.1, 4.6).
ghost use Rattle.std.specs.Prelude.{◌≡◌};
ghost use Rattle.mqtt_broker.specs.engine.Looks.{copies_for, has_none, queue_on_line};

use mqtt_broker_step::Step;

/// How many copies there are for the session with a birth. Takes no memory.
fn copies_for(step: &Step, session: Option<u64>) -> Option<usize>
    ensures { result ≡ copies_for session step.now.broker }
{
    match session {
        Some(birth) => match step.session(birth) {
            Some(session) => Some(session.queue.len()),
            None => None,
        },
        None => None,
    }
}

/// How many copies there are for the session that is connected on a line. Takes no memory.
#[tactic(auto, using(crate::proofs::stored_lemmas::Holders::row_of))]
pub(crate) fn copies_on(step: &Step, line: u64) -> Option<usize>
    ensures { result ≡ queue_on_line line step.now.broker }
{
    match step.line(line) {
        Some(state) => copies_for(step, state.session()),
        None => None,
    }
}

/// Whether a session is there that has no copies. Takes no memory.
pub(crate) fn has_none(copies: Option<usize>) -> bool
    ensures { result ≡ has_none copies }
{
    match copies {
        Some(count) => count == 0,
        None => false,
    }
}
