//! CONNECT: whether it is refused at once, and that of a client that has no session (MQTT 5.0, 3.1.4, 3.2.2.2).
ghost use Rattle.std.specs.Prelude.{◌≡◌, ◌||◌, not, nat_eq, Some, None, option_map, is_some, OnOk, IfErr};
ghost use Rattle.std.specs.List.{starts_with};
ghost use Rattle.mqtt_records.specs.state.Session.{auto};
ghost use Rattle.mqtt_rules.specs.step.Connect.{connect_by, on_connect, refusal};
ghost use Rattle.mqtt_rules.specs.step.Numbers.{HasGivenBirths};
ghost use Rattle.mqtt_rules.specs.step.State.{Line, session_named};
ghost use Rattle.mqtt_broker_step.specs.Stepping.{Does, Leaves};

use crate::connecting::beginning::begin_named;
use crate::connecting::refusing::refuse;
use mqtt_base::Reason;
use mqtt_broker_looks::decided::refusal;
use mqtt_broker_step::{Step, StepFault};
use mqtt_packet::Connect;
use std::alloc::Global;

/// Whether a session has a client identifier.
fn is_known(step: &Step, client: &str) -> bool
    ensures { result ≡ is_some (session_named client.now step.now.broker.records) }
{
    match step.session_named(client) {
        Some(_) => true,
        None => false,
    }
}

/// Whether a client identifier isn't such as the broker assigns, or a session has it (ours). No session is sought for
/// another name.
fn may_come(step: &Step, client: &str) -> bool
    ensures { result ≡ (not (starts_with nat_eq client.now auto)
        || is_some (session_named client.now step.now.broker.records)) }
{
    !client.as_bytes().starts_with(b"auto-") || is_known(step, client)
}

/// The code by which a CONNECT is refused at once, if it is (3.2.2.2). Takes no memory.
pub(crate) fn refusal_of(step: &Step, connect: &Connect) -> Option<Reason>
    ensures { option_map (λ code. code.0) result
        ≡ refusal connect.now step.now.broker.records }
{
    let known = may_come(step, connect.client_identifier.as_str());
    refusal(connect, known)
}

/// A CONNECT that is refused at once, by the code of that, whether its client has a session or not (3.1.4).
pub(crate) fn connect_refused(
    alloc: Global,
    step: &mut Step,
    line: u64,
    connect: &Connect,
    code: Reason,
) -> Result<(), StepFault>
    requires { refusal connect.now step.old.broker.records ≡ Some code.0 }
    ensures ok { (l : Line) → l.number ≡ line → OnOk result (Does
        (λ env. on_connect env l connect.now) step.old step.new) }
    ensures left { (l : Line) → l.number ≡ line → IfErr result (λ fault.
        Leaves (λ env. on_connect env l connect.now) fault step.old step.new) }
{
    refuse(alloc, step, line, connect, code)
}

/// A new session begins if there is a place for it; else its client is refused with Quota exceeded (ours).
fn begin_or_refuse(
    alloc: Global,
    step: &mut Step,
    line: u64,
    connect: &Connect,
) -> Result<(), StepFault>
    requires given { HasGivenBirths step.old.broker.records }
    requires new { session_named connect.now.client_identifier step.old.broker.records ≡ None }
    ensures ok { (l : Line) → l.number ≡ line → OnOk result (Does
        (λ env. connect_by None env l connect.now) step.old step.new) }
    ensures left { (l : Line) → l.number ≡ line → IfErr result (λ fault.
        Leaves (λ env. connect_by None env l connect.now) fault step.old step.new) }
{
    if step.sessions_len() < step.session_limit() {
        begin_named(alloc, step, line, connect)
    } else {
        refuse(alloc, step, line, connect, Reason::QUOTA_EXCEEDED)
    }
}

/// A CONNECT of a client identifier that no session has, or of none, is refused, or its session begins (3.1.4).
pub(crate) fn connect_new(
    alloc: Global,
    step: &mut Step,
    line: u64,
    connect: &Connect,
) -> Result<(), StepFault>
    requires given { HasGivenBirths step.old.broker.records }
    requires new { session_named connect.now.client_identifier step.old.broker.records ≡ None }
    ensures ok { (l : Line) → l.number ≡ line → OnOk result (Does
        (λ env. on_connect env l connect.now) step.old step.new) }
    ensures left { (l : Line) → l.number ≡ line → IfErr result (λ fault.
        Leaves (λ env. on_connect env l connect.now) fault step.old step.new) }
{
    match refusal(connect, false) {
        Some(code) => refuse(alloc, step, line, connect, code),
        None => begin_or_refuse(alloc, step, line, connect),
    }
}
