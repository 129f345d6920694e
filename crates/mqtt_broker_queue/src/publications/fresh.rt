//! A PUBLISH whose identifier isn't open is routed, and taken or refused (MQTT 5.0, 3.3.4, 4.3).
ghost use Rattle.std.specs.Prelude.{◌≡◌, Some, List, OnOk, IfErr};
ghost use Rattle.mqtt_packet.specs.declared.codec.publish.Publish.{Publish};
ghost use Rattle.mqtt_flow.specs.declared.inbound.inflow.Published.TheVariants.{New};
ghost use Rattle.mqtt_records.specs.declared.state.session.Session.{Session};
ghost use Rattle.mqtt_routes.specs.routing.Subscriptions.{Subscriber};
ghost use Rattle.mqtt_rules.specs.step.State.{Line, session_at};
ghost use Rattle.mqtt_rules.specs.step.Inbound.{publish_by};
ghost use Rattle.mqtt_rules.specs.step.Routing.{subscribers};
ghost use Rattle.mqtt_broker_queue.specs.publications.Choosing.{DoesSome, IsLawfulMessage, LeavesSome};

use crate::publications::message::Message;
use crate::publications::router::{Router, Routing};
use crate::publications::taking::{publish_refused, publish_taken};
use mqtt_broker_step::{Step, StepFault};
use mqtt_packet::Delivery;
use std::alloc::Global;

/// A publication of a client is routed, and with the members of groups that were chosen it is taken or
/// refused.
pub(crate) fn publish_fresh<R: Router>(
    alloc: Global,
    router: &mut R,
    step: &mut Step,
    line: u64,
    birth: u64,
    delivery: Delivery,
    message: &Message,
) -> Result<(), StepFault>
    requires serves { R.serves router.old (subscribers step.old.broker.records) }
    requires lawful { IsLawfulMessage message.now }
    ensures ok { (l : Line) (s : Session) (p : Publish)
        → l.number ≡ line → session_at birth step.old.broker.records ≡ Some s
        → p.delivery ≡ delivery
        → OnOk result (DoesSome (λ env. publish_by New env l s p message.now)
        step.old step.new) }
    ensures left { (l : Line) (s : Session) (p : Publish)
        → l.number ≡ line → session_at birth step.old.broker.records ≡ Some s
        → p.delivery ≡ delivery
        → IfErr result (λ fault. LeavesSome
        (λ env. publish_by New env l s p message.now) fault step.old step.new) }
    ensures serves { (sessions : List Subscriber) → R.serves router.old sessions
        → R.serves router.new sessions }
{
    match router.route(alloc, step, message) {
        Ok(Routing::Refused) => publish_refused(alloc, step, line, delivery),
        Ok(Routing::Accepted { copies, wanted }) => publish_taken(
            alloc, step, line, birth, delivery, message, copies, wanted,
        ),
        Err(fault) => Err(fault),
    }
}
