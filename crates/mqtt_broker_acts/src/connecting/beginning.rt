//! A session begins with its first CONNECT (MQTT 5.0, 3.1.2.4, 3.1.3.1, 3.2.2.3).
ghost use Rattle.std.specs.Prelude.{◌≡◌, ◌++◌, suc, true, false, decimal, IfOk, OnOk, IfErr};
ghost use Rattle.mqtt_packet.specs.codec.Packets.{shortest_of};
ghost use Rattle.mqtt_base.specs.Codes.{success};
ghost use Rattle.mqtt_topic.specs.names.Names.{is_empty};
ghost use Rattle.mqtt_rules.specs.step.Packets.{connack};
ghost use Rattle.mqtt_rules.specs.step.State.{Line};
ghost use Rattle.mqtt_rules.specs.step.Numbers.{HasGivenBirths};
ghost use Rattle.mqtt_rules.specs.step.Connect.{begin, begin_named, connack_properties, expiry_of, will_of};
ghost use Rattle.mqtt_rules.specs.step.Deeds.{always};
ghost use Rattle.mqtt_broker_step.specs.Doing.{begins};
ghost use Rattle.mqtt_broker_step.specs.Stepping.{Did, IsLeft};
ghost use Rattle.mqtt_broker_acts.specs.connecting.Connecting.{begins_greeted, begun_told};
ghost use Rattle.mqtt_records.specs.state.Session.{auto};

use crate::connecting::greeting::greet;
use bytes::Bytes;
use mqtt_base::Text;
use mqtt_broker_looks::decided::{assigned_name, expiry_of, will_of};
use mqtt_broker_looks::sent::{connack_assigned, connack_granted};
use mqtt_broker_step::{Step, StepFault};
use mqtt_packet::Connect;
use std::alloc::{AllocError, Global};

/// A session begins, with what a CONNECT says of it (3.1.2.4, 3.1.2.5).
fn begin_session(step: &mut Step, connect: &Connect, client: &Text) -> Result<u64, StepFault>
    requires { HasGivenBirths step.old.broker.records }
    ensures birth { IfOk result (λ birth. birth ≡ suc step.old.broker.records.births) }
    ensures ok { OnOk result (Did (begins client.now (expiry_of connect.now) (will_of connect.now))
        step.old step.new) }
    ensures left { IfErr result (λ fault. IsLeft
        (begins client.now (expiry_of connect.now) (will_of connect.now)) fault
        step.old step.new) }
{
    let client = client.clone()?;
    match will_of(connect) {
        Ok(will) => step.begin_session(client, expiry_of(connect), will),
        Err(_) => {
            drop(client);
            Err(StepFault::Memory)
        }
    }
}

/// A session begins, and is connected on a line.
fn begin_greeted(
    step: &mut Step,
    line: u64,
    connect: &Connect,
    client: &Text,
) -> Result<(), StepFault>
    requires { HasGivenBirths step.old.broker.records }
    ensures ok { (l : Line) → l.number ≡ line → OnOk result (Did
        (begins_greeted l connect.now client.now) step.old step.new) }
    ensures left { (l : Line) → l.number ≡ line → IfErr result (λ fault. IsLeft
        (begins_greeted l connect.now client.now) fault step.old step.new) }
{
    let birth = begin_session(step, connect, client)?;
    greet(step, line, birth, connect)
}

/// CONNACK 00 for a new session (3.2.2.3).
fn granted(alloc: Global, is_assigned: bool, client: &Text) -> Result<Bytes, AllocError>
    ensures { IfOk result (λ bytes. bytes
        ≡ shortest_of (connack false success (connack_properties is_assigned client.now))) }
{
    if is_assigned {
        connack_assigned(alloc, client)
    } else {
        connack_granted(alloc, false)
    }
}

/// CONNACK 00 tells that a session is new, and its client identifier if that was assigned (3.2.2.3.7).
fn tell_begun(
    alloc: Global,
    step: &mut Step,
    line: u64,
    is_assigned: bool,
    client: &Text,
) -> Result<(), StepFault>
    ensures ok { OnOk result (Did (always (begun_told line is_assigned client.now))
        step.old step.new) }
    ensures left { IfErr result (λ fault. IsLeft (always (begun_told line is_assigned client.now))
        fault step.old step.new) }
{
    step.send_spelled(line, granted(alloc, is_assigned, client)?)
}

/// A session begins under a client identifier, which the broker assigned or not.
fn begin(
    alloc: Global,
    step: &mut Step,
    line: u64,
    connect: &Connect,
    is_assigned: bool,
    client: &Text,
) -> Result<(), StepFault>
    requires { HasGivenBirths step.old.broker.records }
    ensures ok { (l : Line) → l.number ≡ line → OnOk result (Did
        (λ b. begin l connect.now is_assigned client.now (suc b.records.births))
        step.old step.new) }
    ensures left { (l : Line) → l.number ≡ line → IfErr result (λ fault. IsLeft
        (λ b. begin l connect.now is_assigned client.now (suc b.records.births)) fault
        step.old step.new) }
{
    begin_greeted(step, line, connect, client)?;
    tell_begun(alloc, step, line, is_assigned, client)
}

/// A session begins under the client identifier that the broker assigns with a number.
fn begin_numbered(
    alloc: Global,
    step: &mut Step,
    line: u64,
    connect: &Connect,
    number: u64,
) -> Result<(), StepFault>
    requires { HasGivenBirths step.old.broker.records }
    ensures ok { (l : Line) → l.number ≡ line → OnOk result (Did
        (λ b. begin l connect.now true (auto ++ decimal number) (suc b.records.births))
        step.old step.new) }
    ensures left { (l : Line) → l.number ≡ line → IfErr result (λ fault. IsLeft
        (λ b. begin l connect.now true (auto ++ decimal number) (suc b.records.births)) fault
        step.old step.new) }
{
    let client = assigned_name(alloc, number)?;
    let begun = begin(alloc, step, line, connect, true, &client);
    drop(client);
    begun
}

/// A session begins under the next client identifier that the broker assigns (3.1.3.1).
fn begin_assigned(
    alloc: Global,
    step: &mut Step,
    line: u64,
    connect: &Connect,
) -> Result<(), StepFault>
    requires { HasGivenBirths step.old.broker.records }
    ensures ok { (l : Line) → l.number ≡ line → OnOk result (Did
        (λ b. begin_named true l connect.now b.records) step.old step.new) }
    ensures left { (l : Line) → l.number ≡ line → IfErr result (λ fault. IsLeft
        (λ b. begin_named true l connect.now b.records) fault step.old step.new) }
{
    let number = step.name()?;
    begin_numbered(alloc, step, line, connect, number)
}

/// Whether a client is to be given its client identifier (3.1.3.1).
fn is_unnamed(connect: &Connect) -> bool
    ensures { result ≡ is_empty connect.now.client_identifier }
{
    connect.client_identifier.as_str().is_empty()
}

/// A new session begins on a line, with what a CONNECT says of it, and CONNACK tells what is granted: if
/// it has no client identifier, the one that it is given too (3.1.2.4, 3.1.3.1, 3.2.2.3).
pub(crate) fn begin_named(
    alloc: Global,
    step: &mut Step,
    line: u64,
    connect: &Connect,
) -> Result<(), StepFault>
    requires { HasGivenBirths step.old.broker.records }
    ensures ok { (l : Line) → l.number ≡ line → OnOk result (Did
        (λ b. begin_named (is_empty connect.now.client_identifier) l connect.now b.records)
        step.old step.new) }
    ensures left { (l : Line) → l.number ≡ line → IfErr result (λ fault. IsLeft
        (λ b. begin_named (is_empty connect.now.client_identifier) l connect.now b.records) fault
        step.old step.new) }
{
    if is_unnamed(connect) {
        begin_assigned(alloc, step, line, connect)
    } else {
        begin(
            alloc,
            step,
            line,
            connect,
            false,
            &connect.client_identifier,
        )
    }
}
