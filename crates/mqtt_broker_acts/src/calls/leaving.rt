//! DISCONNECT of a connected client, and packets that it may not send (MQTT 5.0, 3.14, 4.13).
ghost use Rattle.std.specs.Prelude.{◌≡◌, true, List, OnOk, IfErr};
ghost use Rattle.mqtt_packet.specs.declared.codec.packet.Packet.{Packet};
ghost use Rattle.mqtt_packet.specs.declared.codec.packet.Packet.TheVariants as packets;
ghost use Rattle.mqtt_routes.specs.routing.Subscriptions.{Subscriber};
ghost use Rattle.mqtt_rules.specs.step.Routing.{subscribers};
ghost use Rattle.mqtt_broker_queue.specs.publications.Choosing.{DoesSome, LeavesSome};
ghost use Rattle.mqtt_broker_acts.specs.calls.Inputs.{HasClient, is_stray, takes};

use crate::closing;
use mqtt_base::Reason;
use mqtt_broker_looks::decided::number_at;
use mqtt_broker_queue::publications::Router;
use mqtt_broker_step::{Step, StepFault};
use mqtt_packet::Notice;
use mqtt_props::PropName;
use std::alloc::Global;

/// A DISCONNECT closes its line; its code says whether the Will is kept (3.14.4).
pub(crate) fn disconnect<R: Router>(
    alloc: Global,
    router: &mut R,
    step: &mut Step,
    line: u64,
    birth: u64,
    packet: &Notice,
) -> Result<(), StepFault>
    requires serves { R.serves router.old (subscribers step.old.broker.records) }
    requires client { HasClient line birth step.old.broker }
    ensures ok { OnOk result (DoesSome (takes line (packets.Disconnect packet.now)) step.old step.new) }
    ensures left { IfErr result (λ fault.
        LeavesSome (takes line (packets.Disconnect packet.now)) fault step.old step.new) }
    ensures serves { (sessions : List Subscriber) → R.serves router.old sessions
        → R.serves router.new sessions }
{
    let expiry = number_at(&packet.properties.lend(), PropName::SessionExpiryInterval);
    closing::disconnect(alloc, router, step, line, birth, packet.reason, expiry)
}

/// A packet that a connected client may not send drops its line (4.13).
pub(crate) fn stray<R: Router>(
    alloc: Global,
    router: &mut R,
    step: &mut Step,
    line: u64,
    birth: u64,
) -> Result<(), StepFault>
    requires serves { R.serves router.old (subscribers step.old.broker.records) }
    requires client { HasClient line birth step.old.broker }
    ensures ok { (packet : Packet) → is_stray packet ≡ true
        → OnOk result (DoesSome (takes line packet) step.old step.new) }
    ensures left { (packet : Packet) → is_stray packet ≡ true → IfErr result (λ fault.
        LeavesSome (takes line packet) fault step.old step.new) }
    ensures serves { (sessions : List Subscriber) → R.serves router.old sessions
        → R.serves router.new sessions }
{
    let code = Reason::PROTOCOL_ERROR;
    closing::drop_line(alloc, router, step, line, Some(birth), code)
}
