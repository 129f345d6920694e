//! A CONNECT that isn't refused: its session is resumed, or begins if there is a place for it (MQTT 5.0,
//! 3.1.2.4, 3.2.2.2).
ghost use Rattle.std.specs.Prelude.{◌≡◌, None, IfSome, IfNone, IfOk, IfErr, OnErr};
ghost use Rattle.mqtt_rules.specs.step.Connect.{on_connect};
ghost use Rattle.mqtt_rules.specs.step.Numbers.{HasGivenBirths};
ghost use Rattle.mqtt_rules.specs.step.State.{Line, MemberChoice, session_named};
ghost use Rattle.mqtt_broker_step.specs.Stepping.{env_in, IsLeft, Leaves, Stepping};
ghost use Rattle.mqtt_broker_acts.specs.connecting.Joining.{ConnectedBy, IsNamedAt, IsPlaced, IsPrepared, JoinedBy, joins_now};

use crate::connecting::beginning::begin_named;
use crate::connecting::resuming::resume;
use mqtt_broker_step::{Step, StepFault};
use mqtt_packet::Connect;
use std::alloc::Global;

/// What became of a CONNECT.
#[derive(Clone, Copy, Debug, PartialEq, Eq)]
pub enum Joined {
    /// It was done: its session is connected on its line, or it was refused with its code.
    Done,
    /// After what came before it its client is new, and there is no place for one session more: the step is to be
    /// taken back, and the client refused (ours).
    NoPlace,
}

/// The birth of the session of a client identifier, if it stands.
pub(crate) fn birth_named(step: &Step, client: &str) -> Option<u64>
    ensures birth { IfSome result (λ birth.
        IsNamedAt client.now birth step.now.broker.records) }
    ensures none { IfNone result (session_named client.now step.now.broker.records ≡ None) }
{
    match step.session_named(client) {
        Some(session) => Some(session.birth),
        None => None,
    }
}

/// A new session begins, if there is a place for it.
fn begin_placed(
    alloc: Global,
    step: &mut Step,
    line: u64,
    connect: &Connect,
) -> Result<Joined, StepFault>
    requires given { HasGivenBirths step.old.broker.records }
    requires new { session_named connect.now.client_identifier step.old.broker.records ≡ None }
    ensures ok { (l : Line) → l.number ≡ line → IfOk result (λ joined.
        JoinedBy l connect.now joined step.old step.new) }
    ensures left { (l : Line) → l.number ≡ line → IfErr result (λ fault.
        Leaves (joins_now l connect.now) fault step.old step.new) }
    ensures place { OnErr result (IsPlaced connect.now step.old) }
{
    if step.sessions_len() >= step.session_limit() {
        return Ok(Joined::NoPlace);
    }
    begin_named(alloc, step, line, connect)?;
    Ok(Joined::Done)
}

/// A session that stands is resumed.
fn resume_named(
    alloc: Global,
    step: &mut Step,
    line: u64,
    birth: u64,
    connect: &Connect,
) -> Result<Joined, StepFault>
    requires { IsNamedAt connect.now.client_identifier birth step.old.broker.records }
    ensures ok { (l : Line) → l.number ≡ line → IfOk result (λ joined.
        JoinedBy l connect.now joined step.old step.new) }
    ensures left { (l : Line) → l.number ≡ line → IfErr result (λ fault.
        Leaves (joins_now l connect.now) fault step.old step.new) }
    ensures place { OnErr result (IsPlaced connect.now step.old) }
{
    resume(alloc, step, line, birth, connect)?;
    Ok(Joined::Done)
}

/// What comes after the preparation for a new connection: the client's session is resumed on its line, or a
/// new one begins there. `NoPlace` if it would be new and there is no place for it: nothing changes then
/// (3.1.2.4).
pub(crate) fn join(
    alloc: Global,
    step: &mut Step,
    line: u64,
    connect: &Connect,
) -> Result<Joined, StepFault>
    requires { HasGivenBirths step.old.broker.records }
    ensures ok { (l : Line) → l.number ≡ line → IfOk result (λ joined.
        JoinedBy l connect.now joined step.old step.new) }
    ensures left { (l : Line) → l.number ≡ line → IfErr result (λ fault.
        Leaves (joins_now l connect.now) fault step.old step.new) }
    ensures place { OnErr result (IsPlaced connect.now step.old) }

    // With what came before it the CONNECT is done.
    ensures whole { (l : Line) (first : Stepping) (choice : MemberChoice) → l.number ≡ line
        → IsPrepared (env_in choice first) connect.now first step.old
        → IfOk result (λ joined. ConnectedBy
        (env_in choice first) l connect.now joined first step.new) }
    ensures whole_left { (l : Line) (first : Stepping) (choice : MemberChoice) → l.number ≡ line
        → IsPrepared (env_in choice first) connect.now first step.old
        → IfErr result (λ fault. IsLeft
        (on_connect (env_in choice first) l connect.now) fault first step.new) }
{
    match birth_named(step, connect.client_identifier.as_str()) {
        Some(birth) => resume_named(alloc, step, line, birth, connect),
        None => begin_placed(alloc, step, line, connect),
    }
}
