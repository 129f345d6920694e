//! PUBLISH (MQTT 5.0, 3.3, 4.3).
ghost use Rattle.std.specs.Prelude.{◌≡◌, ℕ, Some, List, IfOk, IfErr};
ghost use Rattle.mqtt_records.specs.declared.state.session.Session.{Session};
ghost use Rattle.mqtt_routes.specs.routing.Subscriptions.{Subscriber};
ghost use Rattle.mqtt_records.specs.lists.Order.{row_at};
ghost use Rattle.mqtt_rules.specs.step.State.{Line, session_at};
ghost use Rattle.mqtt_rules.specs.step.Inbound.{Means, meaning, message_of, on_publish};
ghost use Rattle.mqtt_rules.specs.step.Routing.{subscribers};
ghost use Rattle.mqtt_broker_queue.specs.publications.Choosing.{IsLawfulMessage, LeavesSome};
ghost use Rattle.mqtt_broker_step.specs.Lines.{line_number};
ghost use Rattle.mqtt_broker_queue.specs.publications.Publishing.{HasPublished};

use crate::publications::aliasing::set_alias;
use crate::publications::meant::publish_by;
use crate::publications::router::Router;
use mqtt_base::Reason;
use mqtt_broker_looks::decided::{Unmeant, meaning};
use mqtt_broker_step::{Step, StepFault};
use mqtt_packet::Publish;
use mqtt_topic::TopicName;
use std::alloc::Global;

/// What became of a PUBLISH.
#[derive(Clone, Copy, Debug, PartialEq, Eq)]
pub enum Handled {
    /// It was taken, refused or answered.
    Done,
    /// It means no topic, and nothing was done: its line is to be dropped with this code (3.3.2.1, 3.3.2.3.4,
    /// 3.3.4).
    Wrong(Reason),
    /// It is above the Receive Maximum, and no more was done than that its Topic Alias was set: its line is to be
    /// dropped with 0x93 (4.9).
    Over,
}

/// A PUBLISH that means a topic: its Topic Alias is set, and it is taken, refused or answered.
fn publish_meant<R: Router>(
    alloc: Global,
    router: &mut R,
    step: &mut Step,
    line: u64,
    birth: u64,
    publish: &Publish,
    topic: &TopicName,
) -> Result<Handled, StepFault>
    requires serves { R.serves router.old (subscribers step.old.broker.records) }
    requires means { (l : Line) → row_at line_number line step.old.broker.lines ≡ Some l
        → meaning publish.now l.aliases ≡ Means topic.now }
    requires lawful { (s : Session) → session_at birth step.old.broker.records ≡ Some s
        → IsLawfulMessage (message_of s.client topic.now publish.now) }
    ensures ok { (l : Line) (s : Session)
        → row_at line_number line step.old.broker.lines ≡ Some l
        → session_at birth step.old.broker.records ≡ Some s
        → IfOk result (HasPublished l s publish.now step.old step.new) }
    ensures left { (l : Line) (s : Session)
        → row_at line_number line step.old.broker.lines ≡ Some l
        → session_at birth step.old.broker.records ≡ Some s
        → IfErr result (λ fault. LeavesSome (λ env. on_publish env l s publish.now) fault
        step.old step.new) }
    ensures serves { (sessions : List Subscriber) → R.serves router.old sessions
        → R.serves router.new sessions }
{
    match set_alias(step, line, publish, topic) {
        Ok(()) => publish_by(alloc, router, step, line, birth, publish, topic),
        Err(fault) => Err(fault),
    }
}

/// A PUBLISH of a session that is connected on a line does what the rules have: its Topic Alias is set, and it is
/// taken, refused or answered (3.3.4, 4.3), or else its line is to be dropped. What it passes on is as packets carry
/// it.
pub fn on_publish<R: Router>(
    alloc: Global,
    router: &mut R,
    step: &mut Step,
    line: u64,
    birth: u64,
    publish: &Publish,
) -> Result<Handled, StepFault>
    requires serves { R.serves router.old (subscribers step.old.broker.records) }
    requires lawful { (l : Line) (s : Session) (topic : List ℕ)
        → row_at line_number line step.old.broker.lines ≡ Some l
        → session_at birth step.old.broker.records ≡ Some s
        → meaning publish.now l.aliases ≡ Means topic
        → IsLawfulMessage (message_of s.client topic publish.now) }
    ensures ok { (l : Line) (s : Session)
        → row_at line_number line step.old.broker.lines ≡ Some l
        → session_at birth step.old.broker.records ≡ Some s
        → IfOk result (HasPublished l s publish.now step.old step.new) }
    ensures left { (l : Line) (s : Session)
        → row_at line_number line step.old.broker.lines ≡ Some l
        → session_at birth step.old.broker.records ≡ Some s
        → IfErr result (λ fault. LeavesSome (λ env. on_publish env l s publish.now) fault
        step.old step.new) }
    ensures serves { (sessions : List Subscriber) → R.serves router.old sessions
        → R.serves router.new sessions }
{
    let Some(state) = step.line(line) else {
        return Ok(Handled::Done);
    };
    let topic = match meaning(publish, state.aliases()) {
        Ok(topic) => topic,
        Err(Unmeant::Wrong(code)) => return Ok(Handled::Wrong(code)),
        Err(Unmeant::Memory) => return Err(StepFault::Memory),
    };
    let done = publish_meant(alloc, router, step, line, birth, publish, &topic);
    drop(topic);
    done
}
