//! Which copy of a queue has a packet identifier (MQTT 5.0, 2.2.1, 4.3).
ghost use Rattle.std.specs.Prelude.{◌≡◌, ℕ, List, find, option_copied, option_map};
ghost use Rattle.mqtt_flow.specs.outbound.Queue.{is_holder};
ghost use Rattle.mqtt_rules.specs.step.Step.{copy_in, copy_of};

use mqtt_base::{CopyId, Phase};
use mqtt_broker_step::Step;
use mqtt_records::{Boxed, CopyRow};

/// Whether a copy that has come so far has a packet identifier.
fn holds(phase: Phase, identifier: u16) -> bool
    ensures { result ≡ is_holder identifier phase }
{
    match phase {
        Phase::Waiting => false,
        Phase::Sent { identifier: held } => held == identifier,
        Phase::Released {
            identifier: held,
            ..
        }
        | Phase::Oversize {
            identifier: held,
            ..
        } => held == identifier,
    }
}

/// The first copy of a queue that has a packet identifier. Takes no memory.
fn held_by(rows: &[Boxed<CopyRow>], identifier: u16) -> Option<&CopyId>
    ensures { option_copied result
        ≡ option_map (λ e. e.copy.id) (find (λ e. is_holder identifier e.phase) rows.now) }
{
    for row in rows {
        let row = row.get();
        if holds(row.phase(), identifier) {
            return Some(row.id());
        }
    }
    None
}

/// The copy that has a packet identifier in the queue of a session, if there is one. Takes no memory.
#[tactic(auto, using(crate::proofs::stored_lemmas::Holders::held_on))]
fn copy_in(step: &Step, session: Option<u64>, identifier: u16) -> Option<&CopyId>
    ensures { (went : List ℕ)
        → option_copied result ≡ copy_in identifier went session step.now.broker }
{
    match session {
        Some(birth) => match step.session(birth) {
            Some(session) => held_by(session.queue.as_slice(), identifier),
            None => None,
        },
        None => None,
    }
}

/// The copy that has a packet identifier in the queue of a line's session. Takes no memory.
#[tactic(auto, using(crate::proofs::stored_lemmas::Holders::row_of))]
pub(crate) fn copy_of(step: &Step, line: u64, identifier: u16) -> Option<&CopyId>
    ensures { option_copied result ≡ copy_of line identifier step.now.broker }
{
    match step.line(line) {
        Some(state) => copy_in(step, state.session(), identifier),
        None => None,
    }
}
