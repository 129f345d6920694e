//! A PUBLISH of a client whose identifier isn't open: it is taken, or refused (MQTT 5.0, 3.3.4, 4.3).
ghost use Rattle.std.specs.Prelude.{◌≡◌, Some, None, OnOk, IfErr};
ghost use Rattle.std.specs.List.{AllByRecursion};
ghost use Rattle.mqtt_packet.specs.declared.codec.publish.Publish.{Publish};
ghost use Rattle.mqtt_records.specs.messages.Queue.{IsSpelled};
ghost use Rattle.mqtt_records.specs.declared.state.session.Session.{Session};
ghost use Rattle.mqtt_rules.specs.step.State.{Line, MemberChoice, session_at};
ghost use Rattle.mqtt_rules.specs.step.Deeds.{Message};
ghost use Rattle.mqtt_rules.specs.step.Inbound.{publish_new};
ghost use Rattle.mqtt_rules.specs.step.Routing.{is_wanted};
ghost use Rattle.mqtt_broker_step.specs.Stepping.{Did, Does, env_in, IsLeft, Leaves};
ghost use Rattle.mqtt_broker_queue.specs.publications.Delivering.{addressed_all, HasRoomIn};

use crate::publications::answering::{answer, open_by};
use crate::publications::copies::Copies;
use crate::publications::message::Message;
use crate::publications::publishing::publish;
use mqtt_base::Reason;
use mqtt_broker_looks::decided::accepted_code;
use mqtt_broker_step::{Step, StepFault};
use mqtt_packet::Delivery;
use std::alloc::Global;

/// A PUBLISH that isn't accepted is answered with Quota exceeded (3.4.2.1, 3.5.2.1).
pub fn publish_refused(
    alloc: Global,
    step: &mut Step,
    line: u64,
    delivery: Delivery,
) -> Result<(), StepFault>
    ensures ok { (l : Line) (s : Session) (p : Publish) (m : Message)
        → l.number ≡ line → p.delivery ≡ delivery
        → OnOk result (Does (λ env. publish_new env l s p m None) step.old step.new) }
    ensures left { (l : Line) (s : Session) (p : Publish) (m : Message)
        → l.number ≡ line → p.delivery ≡ delivery
        → IfErr result (λ fault. Leaves
        (λ env. publish_new env l s p m None) fault step.old step.new) }
{
    answer(alloc, step, line, delivery, Reason::QUOTA_EXCEEDED)
}

/// A PUBLISH that is accepted: it is published in these copies, whose PUBLISH have spellings, at QoS 2 its
/// identifier is opened, and it is answered by whether somebody is there for it (3.3.4, 4.3). Each queue
/// has room for the copies that are to enter it.
pub fn publish_taken(
    alloc: Global,
    step: &mut Step,
    line: u64,
    birth: u64,
    delivery: Delivery,
    message: &Message,
    copies: Copies,
    wanted: bool,
) -> Result<(), StepFault>
    requires spelled { AllByRecursion IsSpelled copies }
    requires room { HasRoomIn step.old (addressed_all copies) }
    ensures ok { (choice : MemberChoice) (l : Line) (s : Session) (p : Publish)
        → l.number ≡ line → session_at birth step.old.broker.records ≡ Some s
        → p.delivery ≡ delivery
        → is_wanted (env_in choice step.old) message.now step.old.broker.records ≡ wanted
        → OnOk result (Did (publish_new (env_in choice step.old) l s p message.now
        (Some (addressed_all copies))) step.old step.new) }
    ensures left { (choice : MemberChoice) (l : Line) (s : Session) (p : Publish)
        → l.number ≡ line → session_at birth step.old.broker.records ≡ Some s
        → p.delivery ≡ delivery
        → is_wanted (env_in choice step.old) message.now step.old.broker.records ≡ wanted
        → IfErr result (λ fault. IsLeft (publish_new (env_in choice step.old) l s p message.now
        (Some (addressed_all copies))) fault step.old step.new) }
{
    publish(alloc, step, message, copies)?;
    open_by(step, birth, delivery)?;
    answer(alloc, step, line, delivery, accepted_code(wanted))
}
