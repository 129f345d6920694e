//! The topic that a PUBLISH means is the one that `mqtt_topic` resolves (3.3.2.1, 3.3.2.3.4).
ghost use Rattle.std.specs.Prelude.{◌≡◌, ◌≢◌, ℕ, List, true, false};
ghost use Rattle.mqtt_props.specs.declared.table.PropName.TheVariants.{SubscriptionIdentifier, TopicAlias};
ghost use Rattle.mqtt_props.specs.Laws.{has};
ghost use Rattle.mqtt_packet.specs.declared.codec.publish.Publish.{Publish};
ghost use Rattle.mqtt_topic.specs.declared.names.fault.TopicFault.{TopicFault};
ghost use Rattle.mqtt_topic.specs.declared.names.fault.TopicFault.TheVariants.{Memory, NotText};
ghost use Rattle.mqtt_topic.specs.names.Aliases.{AliasTable, Resolves, RefusesAlias};
ghost use Rattle.mqtt_base.specs.Codes.{protocol_error};
ghost use Rattle.mqtt_records.specs.messages.PassedOn.{number_at};
ghost use Rattle.mqtt_rules.specs.step.Inbound.{Means, Wrong, meaning, topic_code};

/// What a PUBLISH means is the name to which its topic and alias resolve, and what resolves to none is
/// answered with the fault's code; a Subscription Identifier comes first (3.3.2.1, 3.3.2.3.4, 3.3.4).
/// No text of a packet meets `NotText`.
pub fn topics_are_resolved()
    ensures name { (p : Publish) (table : AliasTable) (name : List ℕ)
        → has SubscriptionIdentifier p.properties ≡ false
        → Resolves table p.topic (number_at TopicAlias p.properties) name
        → meaning p table ≡ Means name }
    ensures only { (p : Publish) (table : AliasTable) (name : List ℕ)
        → meaning p table ≡ Means name
        → Resolves table p.topic (number_at TopicAlias p.properties) name }
    ensures refused { (p : Publish) (table : AliasTable) (fault : TopicFault)
        → has SubscriptionIdentifier p.properties ≡ false
        → fault ≢ Memory → fault ≢ NotText
        → RefusesAlias table p.topic (number_at TopicAlias p.properties) fault
        → meaning p table ≡ Wrong (topic_code fault) }
    ensures identified { (p : Publish) (table : AliasTable)
        → has SubscriptionIdentifier p.properties ≡ true
        → meaning p table ≡ Wrong protocol_error }
{}
