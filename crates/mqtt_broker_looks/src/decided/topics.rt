//! What an inbound PUBLISH means (3.3.2.1, 3.3.2.3.4, 3.3.4).
ghost use Rattle.std.specs.Prelude.{◌≡◌, IfErr, IfOk};
ghost use Rattle.mqtt_rules.specs.step.Inbound.{Means, Wrong, meaning};
ghost use Rattle.mqtt_broker_looks.specs.decided.Verdicts.{RefusesMeaning, unmeant_by};

use crate::decided::codes::topic_code;
use crate::decided::numbers::u16_at;
use mqtt_base::Reason;
use mqtt_packet::Publish;
use mqtt_props::PropName;
use mqtt_topic::{Aliases, TopicFault, TopicName};
use thiserror::Error;

/// Why no topic is given that a PUBLISH means.
#[derive(Clone, Copy, Debug, PartialEq, Eq, Error)]
pub enum Unmeant {
    /// 1: it means none, and the line closes with this code (3.3.2.1, 3.3.2.3.4, 3.3.4).
    #[error("the packet means no topic")]
    Wrong(Reason),
    /// 2: want of memory.
    #[error("want of memory")]
    Memory,
}

/// What a fault of a topic says of its PUBLISH.
fn unmeant_by(fault: TopicFault) -> Unmeant
    ensures { result ≡ unmeant_by fault }
{
    match fault {
        TopicFault::Memory => Unmeant::Memory,
        _ => Unmeant::Wrong(topic_code(fault)),
    }
}

/// The topic that a PUBLISH means, by the aliases of its line. It shares its bytes with the packet or
/// with the table (3.3.2.1, 3.3.2.3.4). A client sends no Subscription Identifier (3.3.4).
pub fn meaning(publish: &Publish, aliases: &Aliases) -> Result<TopicName, Unmeant>
    ensures found { IfOk result (λ name. meaning publish.now aliases.now.table ≡ Means name) }
    ensures refused { IfErr result (RefusesMeaning publish.now aliases.now.table) }
{
    let list = publish.properties.lend();
    if list.has(PropName::SubscriptionIdentifier) {
        return Err(Unmeant::Wrong(Reason::PROTOCOL_ERROR));
    }
    let alias = u16_at(&list, PropName::TopicAlias);

    // This shows that the topic has a spelling, so that NotText doesn't come.
    let _spelled = publish.topic.as_str();
    match aliases.would_resolve(&publish.topic, alias) {
        Ok(name) => Ok(name),
        Err(fault) => Err(unmeant_by(fault)),
    }
}
