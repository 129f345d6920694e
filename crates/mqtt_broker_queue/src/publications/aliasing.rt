//! A Topic Alias that comes with a topic is set (MQTT 5.0, 3.3.2.3.4).
ghost use Rattle.std.specs.Prelude.{◌≡◌, Some, OnOk, IfErr};
ghost use Rattle.mqtt_topic.specs.names.Names.{is_empty};
ghost use Rattle.mqtt_props.specs.declared.table.PropName.TheVariants.{TopicAlias};
ghost use Rattle.mqtt_records.specs.messages.PassedOn.{number_at};
ghost use Rattle.mqtt_records.specs.lists.Order.{row_at};
ghost use Rattle.mqtt_rules.specs.step.State.{Line};
ghost use Rattle.mqtt_rules.specs.step.Deeds.{always};
ghost use Rattle.mqtt_rules.specs.step.Inbound.{Means, meaning, sets_alias};
ghost use Rattle.mqtt_broker_step.specs.Lines.{line_number};
ghost use Rattle.mqtt_broker_step.specs.Stepping.{Did, IsLeft};

use mqtt_broker_step::{Step, StepFault};
use mqtt_packet::Publish;
use mqtt_props::{PropName, PropsRef, ValueRef};
use mqtt_topic::TopicName;

/// The Topic Alias among properties, if there is one.
fn alias_of(list: &PropsRef<'_>) -> Option<u16>
    ensures { result ≡ number_at TopicAlias list.now }
{
    match list.get(PropName::TopicAlias) {
        Some(prop) => match prop.value {
            ValueRef::U16(alias) => Some(alias),
            _ => None,
        },
        None => None,
    }
}

/// The Topic Alias of a PUBLISH that means a topic stands for it from now on, if the PUBLISH has both.
pub(crate) fn set_alias(
    step: &mut Step,
    line: u64,
    publish: &Publish,
    topic: &TopicName,
) -> Result<(), StepFault>
    requires { (l : Line) → row_at line_number line step.old.broker.lines ≡ Some l
        → meaning publish.now l.aliases ≡ Means topic.now }
    ensures ok { OnOk result (Did (always (sets_alias (is_empty publish.now.topic)
        (number_at TopicAlias publish.now.properties) line topic.now)) step.old step.new) }
    ensures left { IfErr result (λ fault. IsLeft (always (sets_alias (is_empty publish.now.topic)
        (number_at TopicAlias publish.now.properties) line topic.now))
        fault step.old step.new) }
{
    if publish.topic.as_str().is_empty() {
        return Ok(());
    }
    match alias_of(&publish.properties.lend()) {
        Some(alias) => step.set_alias(line, alias, topic),
        None => Ok(()),
    }
}
