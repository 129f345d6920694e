//! The filters of a SUBSCRIBE, one after the other (MQTT 5.0, 3.8.3, 3.8.4, 3.9.3).
ghost use Rattle.std.specs.Prelude.{◌≡◌, ◌∷◌, ◌++◌, [], IfErr, OnOk};
ghost use Rattle.std.specs.List.{AllByRecursion};
ghost use Rattle.mqtt_base.specs.Values.{FitsText};
ghost use Rattle.mqtt_packet.specs.subscribe.Subscriptions.{IsSubscription};
ghost use Rattle.mqtt_keep.specs.lawful.Lawful.{IsIdentifier};
ghost use Rattle.mqtt_records.specs.messages.Queue.{IsSpelled};
ghost use Rattle.mqtt_records.specs.declared.messages.message.RetainedMessage.{RetainedMessage as Retained};
ghost use Rattle.mqtt_rules.specs.step.Contents.{IsPublished};
ghost use Rattle.mqtt_rules.specs.step.State.{MemberChoice};
ghost use Rattle.mqtt_broker_step.specs.Stepping.{Does, Leaves, env_in};
ghost use Rattle.mqtt_broker_step.specs.Subscribing.{HaveFiltersOnce};
ghost use Rattle.mqtt_broker_queue.specs.publications.Delivering.{addressed_all};
ghost use Rattle.mqtt_broker_acts.specs.subscribing.Answering.{all_answers, answer_to, answers_all, answers_to, asking};

use crate::subscribing::granting::answer_filter;
use mqtt_base::{Reason, Text};
use mqtt_broker_step::{Step, StepFault};
use mqtt_packet::{Subscriptions, options_read};
use mqtt_records::MessageCopy;
use std::alloc::Global;

/// What becomes of a filter with its options byte; one with a byte that says no options is refused as no filter.
fn answer_one(
    alloc: Global,
    step: &mut Step,
    birth: u64,
    filter: &str,
    byte: u8,
    identifier: Option<u32>,
    codes: &mut Vec<u8>,
    late: &mut Vec<MessageCopy>,
) -> Result<(), StepFault>
    requires once { HaveFiltersOnce step.old.broker.records }
    requires lawful { AllByRecursion (λ (k : Retained). IsPublished k.content)
        step.old.broker.records.retained }
    requires identifier { IsIdentifier identifier }
    requires fits { FitsText filter.now }
    ensures ok { OnOk result (Does (answers_to birth identifier (asking filter.now byte))
        step.old step.new) }
    ensures code { (choice : MemberChoice) → OnOk result (codes.new.items ≡ codes.old.items
        ++ (answer_to birth identifier (asking filter.now byte) (env_in choice step.old)
        step.old.broker).code ∷ []) }
    ensures late { (choice : MemberChoice) → OnOk result (addressed_all late.new.items
        ≡ addressed_all late.old.items
        ++ (answer_to birth identifier (asking filter.now byte) (env_in choice step.old)
        step.old.broker).late) }
    ensures spelled { AllByRecursion IsSpelled late.old.items
        → OnOk result (AllByRecursion IsSpelled late.new.items) }
    ensures left { IfErr result (λ fault. Leaves
        (answers_to birth identifier (asking filter.now byte)) fault step.old step.new) }
{
    let Some(options) = options_read(byte) else {
        codes.push(Reason::TOPIC_FILTER_INVALID.0)?;
        return Ok(());
    };
    let text = Text::new(alloc, filter)?;
    answer_filter(alloc, step, birth, text, options, identifier, codes, late)
}

/// What becomes of the filters, in order, each on what the ones before it left: the deeds of all are done, and
/// the codes and the late copies are written (3.8.4, 3.9.3).
pub(crate) fn answer_all(
    alloc: Global,
    step: &mut Step,
    birth: u64,
    identifier: Option<u32>,
    filters: &Subscriptions,
    codes: &mut Vec<u8>,
    late: &mut Vec<MessageCopy>,
) -> Result<(), StepFault>
    requires once { HaveFiltersOnce step.old.broker.records }
    requires lawful { AllByRecursion (λ (k : Retained). IsPublished k.content)
        step.old.broker.records.retained }
    requires identifier { IsIdentifier identifier }
    requires fit { AllByRecursion IsSubscription filters.now }
    requires codes { codes.old.items ≡ [] }
    requires late { late.old.items ≡ [] }
    ensures ok { OnOk result (Does (answers_all birth identifier filters.now) step.old step.new) }
    ensures codes { (choice : MemberChoice) → OnOk result (codes.new.items
        ≡ (all_answers birth identifier filters.now (env_in choice step.old)
        step.old.broker).codes) }
    ensures late { (choice : MemberChoice) → OnOk result (addressed_all late.new.items
        ≡ (all_answers birth identifier filters.now (env_in choice step.old)
        step.old.broker).late) }
    ensures spelled { OnOk result (AllByRecursion IsSpelled late.new.items) }
    ensures left { IfErr result (λ fault. Leaves
        (answers_all birth identifier filters.now) fault step.old step.new) }
{
    let mut rest = filters.lend();
    while let Some((asked, after)) = rest.split_first() {
        answer_one(
            alloc,
            step,
            birth,
            asked.filter,
            asked.options,
            identifier,
            codes,
            late,
        )?;
        rest = after;
    }
    Ok(())
}
