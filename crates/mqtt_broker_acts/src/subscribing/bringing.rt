//! The retained messages that a filter brings (MQTT 5.0, 3.3.1.3, 3.8.3.1).
ghost use Rattle.std.specs.Prelude.{◌≡◌, ◌∷◌, ◌++◌, [], false, filter, map, IfOk, IfErr, OnOk};
ghost use Rattle.std.specs.List.{AllByRecursion};
ghost use Rattle.mqtt_records.specs.declared.messages.message.RetainedMessage.{RetainedMessage as Retained};
ghost use Rattle.mqtt_routes.specs.routing.Retained.{kept_for};
ghost use Rattle.mqtt_rules.specs.step.Contents.{IsPublished};
ghost use Rattle.mqtt_rules.specs.step.Subscribe.{Wish, is_brought, kept_of, message_in};
ghost use Rattle.mqtt_broker_step.specs.Undoing.{moment_of};
ghost use Rattle.mqtt_topic.specs.names.Filters.{begins_share};
ghost use Rattle.mqtt_topic.specs.names.Names.{IsTopicName};
ghost use Rattle.mqtt_broker_acts.specs.subscribing.Bringing.{brings};

use mqtt_base::{SubscriptionOptions, Text};
use mqtt_broker_looks::decided::is_brought;
use mqtt_broker_step::{Step, StepFault};
use mqtt_records::{RetainedMessage, Session};
use mqtt_topic::{SubFilter, TopicName};
use std::alloc::{AllocError, Global};

/// A text that is a topic name, as one; it shares its bytes.
fn name_of(topic: &Text) -> Result<TopicName, AllocError>
    requires { IsTopicName topic.now }
    ensures { IfOk result (λ name. name ≡ topic.now) }
{
    let text = topic.clone()?;
    match TopicName::from_text(text) {
        Ok(name) => Ok(name),
        Err(_) => unreachable!(),
    }
}

/// Whether a filter that isn't shared brings a retained message.
fn is_wanted(
    moment: u64,
    session: &Session,
    asked: &SubFilter,
    options: SubscriptionOptions,
    kept: &RetainedMessage,
) -> Result<bool, AllocError>
    requires plain { begins_share asked.now ≡ false }
    requires name { IsTopicName kept.now.content.topic }
    ensures { (w : Wish) → w.filter ≡ asked.now → w.options ≡ options
        → IfOk result (λ wanted. wanted ≡ brings moment session.now w kept.now) }
{
    let name = name_of(&kept.content.topic)?;
    Ok(asked.matches(&name) && is_brought(moment, session, options, kept))
}

/// Adds a retained message at the end if a filter that isn't shared brings it.
fn push_wanted(
    all: &mut Vec<RetainedMessage>,
    moment: u64,
    session: &Session,
    asked: &SubFilter,
    options: SubscriptionOptions,
    kept: &RetainedMessage,
) -> Result<(), AllocError>
    requires plain { begins_share asked.now ≡ false }
    requires name { IsTopicName kept.now.content.topic }
    ensures { (w : Wish) → w.filter ≡ asked.now → w.options ≡ options → OnOk result
        (all.new.items ≡ all.old.items
        ++ filter (brings moment session.now w) (kept.now ∷ [])) }
{
    if is_wanted(moment, session, asked, options, kept)? {
        all.push(kept.clone()?)?;
    }
    Ok(())
}

/// The retained messages that a filter brings that isn't shared, in the order in which their topics were first
/// retained: those that match, but for the session's own if No Local is set, and for those that have
/// expired (3.3.1.3, 3.8.3.1).
pub fn brought(
    alloc: Global,
    step: &Step,
    session: &Session,
    asked: &SubFilter,
    options: SubscriptionOptions,
) -> Result<Vec<RetainedMessage>, AllocError>
    requires plain { begins_share asked.now ≡ false }
    requires lawful { AllByRecursion (λ (k : Retained). IsPublished k.content)
        step.now.broker.records.retained }
    ensures { (w : Wish) → w.filter ≡ asked.now → w.options ≡ options
        → IfOk result (λ all. all.items ≡ filter
        (is_brought (moment_of step.now.broker) session.now w) (map message_in
        (kept_for w.filter (map kept_of step.now.broker.records.retained)))) }
{
    let moment = step.moment();
    let mut all = Vec::new(alloc);
    let mut rest = step.retained();
    while let Some((kept, after)) = rest.split_first() {
        push_wanted(&mut all, moment, session, asked, options, kept.get())?;
        rest = after;
    }
    Ok(all)
}
