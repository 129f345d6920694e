//! One filter of a SUBSCRIBE: it is granted if it is valid and there is room for it and its copies (MQTT 5.0,
//! 3.8.4, 3.9.3).
ghost use Rattle.std.specs.Prelude.{◌≡◌, ℕ, true, false, ◌∷◌, ◌++◌, [], Some, IfOk, IfErr, OnOk};
ghost use Rattle.std.specs.List.{AllByRecursion};
ghost use Rattle.mqtt_keep.specs.lawful.Lawful.{IsIdentifier};
ghost use Rattle.mqtt_records.specs.messages.Queue.{IsSpelled};
ghost use Rattle.mqtt_records.specs.declared.messages.message.RetainedMessage.{RetainedMessage as Retained};
ghost use Rattle.mqtt_records.specs.declared.state.session.Session.{Session as TheSession};
ghost use Rattle.mqtt_rules.specs.step.Contents.{IsPublished};
ghost use Rattle.mqtt_rules.specs.step.State.{MemberChoice, session_at};
ghost use Rattle.mqtt_rules.specs.step.Subscribe.{next_number};
ghost use Rattle.mqtt_broker_step.specs.Stepping.{Does, Leaves, env_in};
ghost use Rattle.mqtt_broker_step.specs.Subscribing.{HaveFiltersOnce};
ghost use Rattle.mqtt_broker_step.specs.Undoing.{moment_of};
ghost use Rattle.mqtt_broker_queue.specs.publications.Delivering.{addressed_all};
ghost use Rattle.mqtt_topic.specs.names.Filters.{is_filter};
ghost use Rattle.mqtt_broker_acts.specs.subscribing.Granting.{FindsRoom, answer_at, answers, asked_for, chosen, grants, has_room, messages};

use crate::subscribing::bringing::brought;
use crate::subscribing::copying::{fit, push_all, queued};
use crate::subscribing::enrolling::enroll;
use mqtt_base::{Reason, SUBSCRIPTION_LIMIT, SubscriptionOptions, Text};
use mqtt_broker_looks::decided::{filter_code, has_filter, wants_retained};
use mqtt_broker_queue::publications::deliver_all;
use mqtt_broker_queue::queues::room;
use mqtt_broker_step::{Step, StepFault};
use mqtt_records::{MessageCopy, RetainedMessage, Session};
use mqtt_topic::SubFilter;
use std::alloc::{AllocError, Global};

/// The retained messages of which a filter brings copies; a shared one brings none (3.8.3.1, 4.8.2).
fn messages(
    alloc: Global,
    step: &Step,
    session: &Session,
    asked: &SubFilter,
    options: SubscriptionOptions,
    identifier: Option<u32>,
) -> Result<Vec<RetainedMessage>, AllocError>
    requires lawful { AllByRecursion (λ (k : Retained). IsPublished k.content)
        step.now.broker.records.retained }
    ensures { IfOk result (λ all. all.items ≡ messages (moment_of step.now.broker) session.now
        (asked_for asked.now options identifier) step.now.broker.records.retained) }
{
    let is_old = has_filter(session, asked.as_str());
    if asked.is_shared() || !wants_retained(options.retain_handling, is_old) {
        return Ok(Vec::new(alloc));
    }
    brought(alloc, step, session, asked, options)
}

/// Whether the session has room for the filter, and its queue, which has room for so many copies, for those that
/// are to enter it (ours).
fn has_room(
    room: u32,
    session: &Session,
    asked: &SubFilter,
    options: SubscriptionOptions,
    identifier: Option<u32>,
    kept: &[RetainedMessage],
) -> bool
    ensures { (birth number : ℕ) → result ≡ has_room room session.now
        (asked_for asked.now options identifier)
        (chosen true birth number (asked_for asked.now options identifier) kept.now) }
{
    let has_place = has_filter(session, asked.as_str())
        || session.subscriptions.len() < SUBSCRIPTION_LIMIT as usize;
    has_place && fit(room as usize, options, kept)
}

/// A filter gets its number, and the session its subscription; its copies that are queued enter the queue, and
/// those that aren't are added to the late ones (3.8.4, 3.3.1.3).
fn grant(
    alloc: Global,
    step: &mut Step,
    birth: u64,
    asked: &SubFilter,
    options: SubscriptionOptions,
    identifier: Option<u32>,
    kept: &[RetainedMessage],
    late: &mut Vec<MessageCopy>,
) -> Result<(), StepFault>
    requires once { HaveFiltersOnce step.old.broker.records }
    requires lawful { AllByRecursion (λ (k : Retained). IsPublished k.content) kept.now }
    requires identifier { IsIdentifier identifier }
    requires room { FindsRoom birth (asked_for asked.now options identifier) kept.now step.old }
    ensures ok { (s : TheSession) → session_at birth step.old.broker.records ≡ Some s
        → OnOk result (Does (grants s (asked_for asked.now options identifier) kept.now)
        step.old step.new) }
    ensures late { OnOk result (late.new.items ≡ late.old.items ++ chosen false birth
        (next_number step.old.broker.records) (asked_for asked.now options identifier)
        kept.now) }
    ensures spelled { AllByRecursion IsSpelled late.old.items
        → OnOk result (AllByRecursion IsSpelled late.new.items) }
    ensures left { (s : TheSession) → session_at birth step.old.broker.records ≡ Some s
        → IfErr result (λ fault. Leaves
        (grants s (asked_for asked.now options identifier) kept.now) fault step.old step.new) }
{
    let text = asked.text().clone()?;
    let number = enroll(step, birth, text, options, identifier)?;
    push_all(late, alloc, false, birth, number, options, identifier, kept)?;
    let copies = queued(alloc, birth, number, options, identifier, kept)?;
    deliver_all(alloc, step, copies)
}

/// What becomes of a valid filter.
fn answer_valid(
    alloc: Global,
    step: &mut Step,
    birth: u64,
    asked: &SubFilter,
    options: SubscriptionOptions,
    identifier: Option<u32>,
    codes: &mut Vec<u8>,
    late: &mut Vec<MessageCopy>,
) -> Result<(), StepFault>
    requires once { HaveFiltersOnce step.old.broker.records }
    requires lawful { AllByRecursion (λ (k : Retained). IsPublished k.content)
        step.old.broker.records.retained }
    requires identifier { IsIdentifier identifier }
    requires valid { is_filter asked.now ≡ true }
    ensures ok { OnOk result (Does (answers birth (asked_for asked.now options identifier))
        step.old step.new) }
    ensures code { (choice : MemberChoice) → OnOk result (codes.new.items ≡ codes.old.items
        ++ (answer_at birth (asked_for asked.now options identifier) (env_in choice step.old)
        step.old.broker).code ∷ []) }
    ensures late { (choice : MemberChoice) → OnOk result (addressed_all late.new.items
        ≡ addressed_all late.old.items
        ++ (answer_at birth (asked_for asked.now options identifier) (env_in choice step.old)
        step.old.broker).late) }
    ensures spelled { AllByRecursion IsSpelled late.old.items
        → OnOk result (AllByRecursion IsSpelled late.new.items) }
    ensures left { IfErr result (λ fault. Leaves
        (answers birth (asked_for asked.now options identifier)) fault step.old step.new) }
{
    let Some(session) = step.session(birth) else {
        codes.push(Reason::TOPIC_FILTER_INVALID.0)?;
        return Ok(());
    };
    let kept = messages(alloc, step, session, asked, options, identifier)?;
    let room = room(step, session);
    let has_room = has_room(room, session, asked, options, identifier, &kept);
    codes.push(filter_code(true, has_room, options.qos).0)?;
    if has_room {
        grant(alloc, step, birth, asked, options, identifier, &kept, late)
    } else {
        Ok(())
    }
}

/// What becomes of a filter of a SUBSCRIBE. If it is valid, and the session has room for it, and its queue for
/// the copies that it brings, beside those that make way for them, it gets its number, the session its
/// subscription, and the copies of retained messages enter the queue; those of QoS 0 are added to the late ones,
/// which go out after the SUBACK. Its code is added to the codes (3.8.4, 3.9.3).
pub fn answer_filter(
    alloc: Global,
    step: &mut Step,
    birth: u64,
    text: Text,
    options: SubscriptionOptions,
    identifier: Option<u32>,
    codes: &mut Vec<u8>,
    late: &mut Vec<MessageCopy>,
) -> Result<(), StepFault>
    requires once { HaveFiltersOnce step.old.broker.records }
    requires lawful { AllByRecursion (λ (k : Retained). IsPublished k.content)
        step.old.broker.records.retained }
    requires identifier { IsIdentifier identifier }
    ensures ok { OnOk result (Does (answers birth (asked_for text options identifier))
        step.old step.new) }
    ensures code { (choice : MemberChoice) → OnOk result (codes.new.items ≡ codes.old.items
        ++ (answer_at birth (asked_for text options identifier) (env_in choice step.old)
        step.old.broker).code ∷ []) }
    ensures late { (choice : MemberChoice) → OnOk result (addressed_all late.new.items
        ≡ addressed_all late.old.items
        ++ (answer_at birth (asked_for text options identifier) (env_in choice step.old)
        step.old.broker).late) }
    ensures spelled { AllByRecursion IsSpelled late.old.items
        → OnOk result (AllByRecursion IsSpelled late.new.items) }
    ensures left { IfErr result (λ fault. Leaves
        (answers birth (asked_for text options identifier)) fault step.old step.new) }
{
    match SubFilter::from_text(text) {
        Ok(asked) => answer_valid(alloc, step, birth, &asked, options, identifier, codes, late),
        Err(_) => {
            codes.push(Reason::TOPIC_FILTER_INVALID.0)?;
            Ok(())
        }
    }
}
