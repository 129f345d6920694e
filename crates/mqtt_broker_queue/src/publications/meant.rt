//! A PUBLISH whose topic is known, by what its identifier is (MQTT 5.0, 3.3.4, 4.3.3, 4.9).
ghost use Rattle.std.specs.Prelude.{◌≡◌, Some, List, OnOk, IfOk, IfErr, option_map};
ghost use Rattle.mqtt_flow.specs.declared.inbound.inflow.Published.TheVariants.{New};
ghost use Rattle.mqtt_records.specs.declared.state.session.Session.{Session};
ghost use Rattle.mqtt_routes.specs.routing.Subscriptions.{Subscriber};
ghost use Rattle.mqtt_rules.specs.step.State.{Line, session_at};
ghost use Rattle.mqtt_rules.specs.step.Inbound.{message_of, publish_by, standing};
ghost use Rattle.mqtt_rules.specs.step.Routing.{subscribers};
ghost use Rattle.mqtt_broker_queue.specs.publications.Choosing.{DoesSome, IsLawfulMessage, LeavesSome};
ghost use Rattle.mqtt_broker_queue.specs.publications.Publishing.{HasAnswered};

use crate::publications::answering::publish_again;
use crate::publications::client_publish::Handled;
use crate::publications::fresh::publish_fresh;
use crate::publications::message::Message;
use crate::publications::router::Router;
use crate::publications::standing::standing;
use mqtt_broker_step::{Step, StepFault};
use mqtt_flow::Published;
use mqtt_packet::Publish;
use mqtt_topic::TopicName;
use std::alloc::Global;

/// What a session publishes, and what the identifier of its PUBLISH is.
fn message_of(
    alloc: Global,
    step: &Step,
    birth: u64,
    topic: &TopicName,
    publish: &Publish,
) -> Result<Option<Message>, StepFault>
    ensures message { IfOk result (λ message. message
        ≡ option_map (λ s. message_of s.client topic.now publish.now)
        (session_at birth step.now.broker.records)) }
    ensures fault { IfErr result (λ fault. fault ≡ StepFault.Memory) }
{
    match step.session(birth) {
        Some(session) => match Message::of_publish(alloc, &session.client, topic, publish) {
            Ok(message) => Ok(Some(message)),
            Err(_) => Err(StepFault::Memory),
        },
        None => Ok(None),
    }
}

/// A PUBLISH whose identifier isn't open is routed, and taken or refused.
fn publish_new<R: Router>(
    alloc: Global,
    router: &mut R,
    step: &mut Step,
    line: u64,
    birth: u64,
    publish: &Publish,
    topic: &TopicName,
) -> Result<(), StepFault>
    requires serves { R.serves router.old (subscribers step.old.broker.records) }
    requires lawful { (s : Session) → session_at birth step.old.broker.records ≡ Some s
        → IsLawfulMessage (message_of s.client topic.now publish.now) }
    ensures ok { (l : Line) (s : Session) → l.number ≡ line
        → session_at birth step.old.broker.records ≡ Some s
        → OnOk result (DoesSome (λ env. publish_by New env l s publish.now
        (message_of s.client topic.now publish.now)) step.old step.new) }
    ensures left { (l : Line) (s : Session) → l.number ≡ line
        → session_at birth step.old.broker.records ≡ Some s
        → IfErr result (λ fault. LeavesSome (λ env. publish_by New env l s publish.now
        (message_of s.client topic.now publish.now)) fault step.old step.new) }
    ensures serves { (sessions : List Subscriber) → R.serves router.old sessions
        → R.serves router.new sessions }
{
    match message_of(alloc, step, birth, topic, publish) {
        Ok(Some(message)) => {
            let done = publish_fresh(alloc, router, step, line, birth, publish.delivery, &message);
            drop(message);
            done
        }
        Ok(None) => Ok(()),
        Err(fault) => Err(fault),
    }
}

/// A PUBLISH whose topic is known, by what its identifier is. A session that doesn't stand publishes nothing.
pub(crate) fn publish_by<R: Router>(
    alloc: Global,
    router: &mut R,
    step: &mut Step,
    line: u64,
    birth: u64,
    publish: &Publish,
    topic: &TopicName,
) -> Result<Handled, StepFault>
    requires serves { R.serves router.old (subscribers step.old.broker.records) }
    requires lawful { (s : Session) → session_at birth step.old.broker.records ≡ Some s
        → IsLawfulMessage (message_of s.client topic.now publish.now) }
    ensures ok { (l : Line) (s : Session) → l.number ≡ line
        → session_at birth step.old.broker.records ≡ Some s
        → IfOk result (HasAnswered l s publish.now topic.now step.old step.new) }
    ensures left { (l : Line) (s : Session) → l.number ≡ line
        → session_at birth step.old.broker.records ≡ Some s
        → IfErr result (λ fault. LeavesSome
        (λ env. publish_by (standing publish.now.delivery s.inbound) env l s publish.now
        (message_of s.client topic.now publish.now)) fault step.old step.new) }
    ensures serves { (sessions : List Subscriber) → R.serves router.old sessions
        → R.serves router.new sessions }
{
    let Some(session) = step.session(birth) else {
        return Ok(Handled::Done);
    };
    match standing(session, publish.delivery) {
        Published::New => {
            match publish_new(alloc, router, step, line, birth, publish, topic) {
                Ok(()) => Ok(Handled::Done),
                Err(fault) => Err(fault),
            }
        }
        Published::Again => match publish_again(alloc, step, line, publish.delivery) {
            Ok(()) => Ok(Handled::Done),
            Err(fault) => Err(fault),
        },
        Published::Over => Ok(Handled::Over),
    }
}
