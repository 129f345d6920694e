//! A session's Will is published or refused, and then there is none (MQTT 5.0, 3.1.2.5).
ghost use Rattle.std.specs.Prelude.{◌≡◌, ◌∷◌, [], List, Some, None, IfOk, OnOk, IfErr};
ghost use Rattle.mqtt_routes.specs.routing.Subscriptions.{Subscriber};
ghost use Rattle.mqtt_rules.specs.step.Contents.{IsWilled};
ghost use Rattle.mqtt_rules.specs.step.Deeds.{Whose, RefuseWill, always};
ghost use Rattle.mqtt_rules.specs.step.Routing.{subscribers};
ghost use Rattle.mqtt_broker_step.specs.Stepping.{Did, Does, IsLeft, Leaves};
ghost use Rattle.mqtt_broker_queue.specs.publications.Choosing.{DoesSome, LeavesSome, IsLawfulMessage, IsRouted};
ghost use Rattle.mqtt_broker_queue.specs.publications.Delivering.{SameSessions};
ghost use Rattle.mqtt_broker_acts.specs.closing.Wills.{message_at, will_at, publishes, publishes_will, ChoosesOnce};

use mqtt_broker_queue::publications::{Message, Router, Routing, publish};
use mqtt_broker_step::{Step, StepFault};
use std::alloc::Global;

/// The message of a session's Will, if it stands and has one.
fn message_at(alloc: Global, step: &Step, birth: u64) -> Result<Option<Message>, StepFault>
    requires { IsWilled (will_at birth step.now.broker.records) }
    ensures exact { IfOk result (λ message. message ≡ message_at birth step.now.broker.records) }
    ensures fault { IfErr result (λ fault. fault ≡ StepFault.Memory) }
{
    let Some(session) = step.session(birth) else {
        return Ok(None);
    };
    match &session.will {
        Some(will) => Ok(Some(Message::of_will(alloc, &session.client, will)?)),
        None => Ok(None),
    }
}

/// A Will is refused.
fn refuse(step: &mut Step, birth: u64, message: &Message) -> Result<(), StepFault>
    ensures ok { (who : Whose) → who.birth ≡ birth → who.client ≡ message.now.sender
        → OnOk result (Did (always (RefuseWill who ∷ [])) step.old step.new) }
    ensures left { (who : Whose) → IfErr result (λ fault.
        IsLeft (always (RefuseWill who ∷ [])) fault step.old step.new) }
{
    let client = message.sender().clone()?;
    step.refuse_will(birth, client)
}

/// A Will's message goes where it was routed to, or is refused.
fn publish_routed(
    alloc: Global,
    step: &mut Step,
    birth: u64,
    message: &Message,
    routing: Routing,
) -> Result<(), StepFault>
    requires routed { IsRouted message.now step.old routing }
    ensures ok { (who : Whose) → who.birth ≡ birth → who.client ≡ message.now.sender
        → OnOk result (DoesSome (publishes who message.now) step.old step.new) }
    ensures sessions { OnOk result (SameSessions step.old.broker.records
        step.new.broker.records) }
    ensures left { (who : Whose) → IfErr result (λ fault.
        LeavesSome (publishes who message.now) fault step.old step.new) }
{
    match routing {
        Routing::Refused => refuse(step, birth, message),
        Routing::Accepted { copies, .. } => publish(alloc, step, message, copies),
    }
}

/// A Will's message is routed, and goes where it is routed to, or is refused.
fn publish_message<R: Router>(
    alloc: Global,
    router: &mut R,
    step: &mut Step,
    birth: u64,
    message: &Message,
) -> Result<(), StepFault>
    requires serves { R.serves router.old (subscribers step.old.broker.records) }
    requires lawful { IsLawfulMessage message.now }
    ensures ok { (who : Whose) → who.birth ≡ birth → who.client ≡ message.now.sender
        → OnOk result (DoesSome (publishes who message.now) step.old step.new) }
    ensures sessions { OnOk result (SameSessions step.old.broker.records
        step.new.broker.records) }
    ensures left { (who : Whose) → IfErr result (λ fault.
        LeavesSome (publishes who message.now) fault step.old step.new) }
    ensures serves { (sessions : List Subscriber) → R.serves router.old sessions
        → R.serves router.new sessions }
{
    let routing = router.route(alloc, step, message)?;
    publish_routed(alloc, step, birth, message, routing)
}

/// The Will of a session that has one is published or refused, and then there is none.
fn publish_and_drop<R: Router>(
    alloc: Global,
    router: &mut R,
    step: &mut Step,
    birth: u64,
    message: &Message,
) -> Result<(), StepFault>
    requires message { message_at birth step.old.broker.records ≡ Some message.now }
    requires serves { R.serves router.old (subscribers step.old.broker.records) }
    requires lawful { IsLawfulMessage message.now }
    ensures ok { OnOk result (DoesSome (publishes_will birth) step.old step.new) }
    ensures gone { OnOk result (will_at birth step.new.broker.records ≡ None) }
    ensures left { IfErr result (λ fault.
        LeavesSome (publishes_will birth) fault step.old step.new) }
    ensures serves { (sessions : List Subscriber) → R.serves router.old sessions
        → R.serves router.new sessions }
{
    publish_message(alloc, router, step, birth, message)?;
    step.drop_will(birth)
}

/// The Will of a session is published, or refused if it isn't accepted; then there is none (3.1.2.5).
/// Nothing happens if the session doesn't stand, or has none.
pub fn publish_will<R: Router>(
    alloc: Global,
    router: &mut R,
    step: &mut Step,
    birth: u64,
) -> Result<(), StepFault>
    requires serves { R.serves router.old (subscribers step.old.broker.records) }
    requires lawful { IsWilled (will_at birth step.old.broker.records) }
    ensures ok { OnOk result (DoesSome (publishes_will birth) step.old step.new) }
    ensures left { IfErr result (λ fault.
        LeavesSome (publishes_will birth) fault step.old step.new) }

    // Without a Will nothing is chosen.
    ensures quiet { will_at birth step.old.broker.records ≡ None
        → OnOk result (Does (publishes_will birth) step.old step.new) }
    ensures quiet_left { will_at birth step.old.broker.records ≡ None
        → IfErr result (λ fault. Leaves (publishes_will birth) fault step.old step.new) }
    ensures once { OnOk result (ChoosesOnce birth (publishes_will birth) step.old step.new) }
    ensures serves { (sessions : List Subscriber) → R.serves router.old sessions
        → R.serves router.new sessions }
{
    match message_at(alloc, step, birth)? {
        Some(message) => {
            let published = publish_and_drop(alloc, router, step, birth, &message);
            drop(message);
            published
        }
        None => Ok(()),
    }
}
