//! One turn of a session: a copy is sent, released, or leaves (MQTT 5.0, 4.3, 4.4, 4.6).
ghost use Rattle.std.specs.Prelude.{◌≡◌, ◌∷◌, [], is_some, option_copied, OnOk, IfErr};
ghost use Rattle.mqtt_base.specs.declared.session.Phase.TheVariants.{Sent};
ghost use Rattle.mqtt_flow.specs.declared.outbound.entry.Turn.TheVariants as turns;
ghost use Rattle.mqtt_records.specs.state.Records.{copy_at};
ghost use Rattle.mqtt_rules.specs.step.Deeds.{At, Mark, On, Send, Went, always, of_session, then, whose};
ghost use Rattle.mqtt_rules.specs.step.Packets.{pubrel};
ghost use Rattle.mqtt_rules.specs.step.State.{session_at};
ghost use Rattle.mqtt_broker_step.specs.Stepping.{Did, IsLeft, to_session};
ghost use Rattle.mqtt_broker_queue.specs.queues.Turning.{takes_turn};

use crate::queues::outgoing::outgoing_row;
use mqtt_base::{Phase, Reason};
use mqtt_broker_looks::sent::pubrel;
use mqtt_broker_step::{Step, StepFault};
use mqtt_flow::Turn;
use mqtt_records::CopyRow;
use std::alloc::Global;

/// The copy at a place of a session's queue.
fn copy_at(step: &Step, birth: u64, place: u64) -> Option<&CopyRow>
    ensures { option_copied result ≡ copy_at birth place step.now.broker.records }
{
    match step.session(birth) {
        Some(session) => match session.queue.get(place) {
            Some(row) => Some(row.get()),
            None => None,
        },
        None => None,
    }
}

/// Whether a session stands.
fn has_session(step: &Step, birth: u64) -> bool
    ensures { result ≡ is_some (session_at birth step.now.broker.records) }
{
    step.session(birth).is_some()
}

/// PUBREL goes out with a code (3.6).
fn send_pubrel(
    alloc: Global,
    step: &mut Step,
    line: u64,
    identifier: u16,
    code: Reason,
) -> Result<(), StepFault>
    ensures ok { OnOk result (Did (always (Send line (pubrel identifier code.0) ∷ []))
        step.old step.new) }
    ensures left { IfErr result (λ fault. IsLeft
        (always (Send line (pubrel identifier code.0) ∷ [])) fault step.old step.new) }
{
    step.send_spelled(line, pubrel(alloc, identifier, code)?)
}

/// A copy is sent on a line, with a packet identifier.
fn mark_sent(
    step: &mut Step,
    line: u64,
    birth: u64,
    place: u64,
    identifier: u16,
) -> Result<(), StepFault>
    ensures ok { OnOk result (Did (λ b. then (to_session birth (Mark place (Sent identifier)) b)
        (always (On line (Went place) ∷ [])) b) step.old step.new) }
    ensures left { IfErr result (λ fault. IsLeft
        (λ b. then (to_session birth (Mark place (Sent identifier)) b)
        (always (On line (Went place) ∷ [])) b) fault step.old step.new) }
{
    step.mark(birth, place, Phase::Sent { identifier })?;
    step.went(line, place)
}

/// A waiting copy gets an identifier and is sent, with DUP 0 (3.3.1.1).
fn send(
    alloc: Global,
    step: &mut Step,
    line: u64,
    birth: u64,
    place: u64,
    identifier: u16,
) -> Result<(), StepFault>
    ensures ok { OnOk result (Did (takes_turn line birth (turns.Send place identifier))
        step.old step.new) }
    ensures left { IfErr result (λ fault. IsLeft
        (takes_turn line birth (turns.Send place identifier)) fault step.old step.new) }
{
    let Some(row) = copy_at(step, birth, place) else {
        return Ok(());
    };
    let out = outgoing_row(alloc, step, line, false, identifier, row)?;
    match mark_sent(step, line, birth, place, identifier) {
        Ok(()) => step.send_publish(line, out),
        Err(fault) => {
            drop(out);
            Err(fault)
        }
    }
}

/// A copy that was sent on an earlier connection is sent again, with DUP 1 (4.4).
fn resend(
    alloc: Global,
    step: &mut Step,
    line: u64,
    birth: u64,
    place: u64,
    identifier: u16,
) -> Result<(), StepFault>
    ensures ok { OnOk result (Did (takes_turn line birth (turns.Resend place identifier))
        step.old step.new) }
    ensures left { IfErr result (λ fault. IsLeft
        (takes_turn line birth (turns.Resend place identifier)) fault step.old step.new) }
{
    let Some(row) = copy_at(step, birth, place) else {
        return Ok(());
    };
    let out = outgoing_row(alloc, step, line, true, identifier, row)?;
    match step.went(line, place) {
        Ok(()) => step.send_publish(line, out),
        Err(fault) => {
            drop(out);
            Err(fault)
        }
    }
}

/// A copy comes into a phase in which it is released, and PUBREL goes out (4.3.3).
fn release(
    alloc: Global,
    step: &mut Step,
    line: u64,
    birth: u64,
    place: u64,
    phase: Phase,
    identifier: u16,
) -> Result<(), StepFault>
    ensures ok { OnOk result (Did (of_session birth (λ s. always
        (At (whose s) (Mark place phase) ∷ Send line (pubrel identifier 0) ∷ [])))
        step.old step.new) }
    ensures left { IfErr result (λ fault. IsLeft (of_session birth (λ s. always
        (At (whose s) (Mark place phase) ∷ Send line (pubrel identifier 0) ∷ [])))
        fault step.old step.new) }
{
    if !has_session(step, birth) {
        return Ok(());
    }
    step.mark(birth, place, phase)?;
    send_pubrel(alloc, step, line, identifier, Reason::SUCCESS)
}

/// PUBREL goes out with a code, for a session that stands (4.4).
fn repeat(
    alloc: Global,
    step: &mut Step,
    line: u64,
    birth: u64,
    identifier: u16,
    code: Reason,
) -> Result<(), StepFault>
    ensures ok { OnOk result (Did (of_session birth (λ s. always
        (Send line (pubrel identifier code.0) ∷ []))) step.old step.new) }
    ensures left { IfErr result (λ fault. IsLeft (of_session birth (λ s. always
        (Send line (pubrel identifier code.0) ∷ []))) fault step.old step.new) }
{
    if !has_session(step, birth) {
        return Ok(());
    }
    send_pubrel(alloc, step, line, identifier, code)
}

/// A session that is connected on a line takes a turn, if it stands (4.3, 4.4).
pub fn turn(
    alloc: Global,
    step: &mut Step,
    line: u64,
    birth: u64,
    turn: Turn,
) -> Result<(), StepFault>
    ensures ok { OnOk result (Did (takes_turn line birth turn) step.old step.new) }
    ensures left { IfErr result (λ fault. IsLeft (takes_turn line birth turn) fault
        step.old step.new) }
{
    match turn {
        Turn::Send { place, identifier } => send(alloc, step, line, birth, place, identifier),
        Turn::Resend { place, identifier } => resend(alloc, step, line, birth, place, identifier),
        Turn::Release {
            place,
            identifier,
            order,
        } => {
            let phase = Phase::Released { identifier, order };
            release(alloc, step, line, birth, place, phase, identifier)
        }
        Turn::Outgrow {
            place,
            identifier,
            order,
        } => {
            let phase = Phase::Oversize { identifier, order };
            release(alloc, step, line, birth, place, phase, identifier)
        }
        Turn::Repeat { identifier } => {
            repeat(alloc, step, line, birth, identifier, Reason::SUCCESS)
        }
        Turn::Unknown { identifier } => {
            let code = Reason::PACKET_IDENTIFIER_NOT_FOUND;
            repeat(alloc, step, line, birth, identifier, code)
        }
        Turn::Leave { place, ending } => step.leave(birth, place, ending),
    }
}
