//! A session is resumed by a CONNECT (MQTT 5.0, 3.1.2.4, 3.2.2.1.1, 4.4).
ghost use Rattle.std.specs.Prelude.{◌≡◌, ◌++◌, Some, OnOk, IfErr};
ghost use Rattle.mqtt_records.specs.declared.state.session.Session.{Session};
ghost use Rattle.mqtt_rules.specs.step.State.{Line, session_at};
ghost use Rattle.mqtt_rules.specs.step.Deeds.{Resume, always};
ghost use Rattle.mqtt_rules.specs.step.Connect.{expiry_of, resume, will_of};
ghost use Rattle.mqtt_broker_step.specs.Stepping.{Did, IsLeft, to_session};
ghost use Rattle.mqtt_broker_acts.specs.connecting.Connecting.{repeats, resumed_greeted, resumed_told, resumption_told};

use crate::connecting::greeting::greet;
use crate::connecting::repeating::repeat_all;
use mqtt_broker_looks::decided::{expiry_of, will_of};
use mqtt_broker_looks::sent::connack_granted;
use mqtt_broker_queue::queues::repeats_of;
use mqtt_broker_step::{Step, StepFault};
use mqtt_flow::Turn;
use mqtt_packet::Connect;
use std::alloc::Global;

/// A session that stands is connected again, with the Session Expiry Interval and the Will of a CONNECT, or
/// none (3.1.2.5, 3.1.2.11.2).
fn resume_session(step: &mut Step, birth: u64, connect: &Connect) -> Result<(), StepFault>
    ensures ok { OnOk result (Did
        (to_session birth (Resume (expiry_of connect.now) (will_of connect.now)))
        step.old step.new) }
    ensures left { IfErr result (λ fault. IsLeft
        (to_session birth (Resume (expiry_of connect.now) (will_of connect.now))) fault
        step.old step.new) }
{
    let will = will_of(connect)?;
    step.resume(birth, expiry_of(connect), will)
}

/// A session that stands is connected again, on a line.
fn resume_greeted(
    step: &mut Step,
    line: u64,
    birth: u64,
    connect: &Connect,
) -> Result<(), StepFault>
    ensures ok { (l : Line) (s : Session) → l.number ≡ line
        → session_at birth step.old.broker.records ≡ Some s
        → OnOk result (Did (always (resumed_greeted l connect.now s)) step.old step.new) }
    ensures left { (l : Line) (s : Session) → l.number ≡ line
        → session_at birth step.old.broker.records ≡ Some s → IfErr result (λ fault.
        IsLeft (always (resumed_greeted l connect.now s)) fault step.old step.new) }
{
    resume_session(step, birth, connect)?;
    greet(step, line, birth, connect)
}

/// CONNACK 00 tells that a session is resumed (3.2.2.1.1).
fn tell_resumed(alloc: Global, step: &mut Step, line: u64) -> Result<(), StepFault>
    ensures ok { OnOk result (Did (always (resumption_told line)) step.old step.new) }
    ensures left { IfErr result (λ fault.
        IsLeft (always (resumption_told line)) fault step.old step.new) }
{
    step.send_spelled(line, connack_granted(alloc, true)?)
}

/// A session that stands is connected again, and its client is told.
fn resume_told(
    alloc: Global,
    step: &mut Step,
    line: u64,
    birth: u64,
    connect: &Connect,
) -> Result<(), StepFault>
    ensures ok { (l : Line) (s : Session) → l.number ≡ line
        → session_at birth step.old.broker.records ≡ Some s
        → OnOk result (Did (always (resumed_told l connect.now s)) step.old step.new) }
    ensures left { (l : Line) (s : Session) → l.number ≡ line
        → session_at birth step.old.broker.records ≡ Some s → IfErr result (λ fault.
        IsLeft (always (resumed_told l connect.now s)) fault step.old step.new) }
{
    resume_greeted(step, line, birth, connect)?;
    tell_resumed(alloc, step, line)
}

/// A session is resumed, and these PUBRELs go out.
fn resume_with(
    alloc: Global,
    step: &mut Step,
    line: u64,
    birth: u64,
    connect: &Connect,
    turns: Vec<Turn>,
) -> Result<(), StepFault>
    ensures ok { (l : Line) (s : Session) → l.number ≡ line
        → session_at birth step.old.broker.records ≡ Some s → OnOk result (Did
        (always (resumed_told l connect.now s ++ repeats line turns.items)) step.old step.new) }
    ensures left { (l : Line) (s : Session) → l.number ≡ line
        → session_at birth step.old.broker.records ≡ Some s → IfErr result (λ fault. IsLeft
        (always (resumed_told l connect.now s ++ repeats line turns.items)) fault
        step.old step.new) }
{
    match resume_told(alloc, step, line, birth, connect) {
        Ok(()) => repeat_all(alloc, step, line, turns),
        Err(fault) => {
            drop(turns);
            Err(fault)
        }
    }
}

/// A session that stands is resumed on a line, with what a CONNECT says of it, and CONNACK tells so; then
/// comes a PUBREL for each released copy, in the order of release (3.1.2.4, 3.2.2.1.1, 4.4).
pub(crate) fn resume(
    alloc: Global,
    step: &mut Step,
    line: u64,
    birth: u64,
    connect: &Connect,
) -> Result<(), StepFault>
    ensures ok { (l : Line) (s : Session) → l.number ≡ line
        → session_at birth step.old.broker.records ≡ Some s
        → OnOk result (Did (λ b. resume l connect.now b.now s) step.old step.new) }
    ensures left { (l : Line) (s : Session) → l.number ≡ line
        → session_at birth step.old.broker.records ≡ Some s → IfErr result (λ fault.
        IsLeft (λ b. resume l connect.now b.now s) fault step.old step.new) }
{
    let turns = repeats_of(alloc, step, birth)?;
    resume_with(alloc, step, line, birth, connect, turns)
}
