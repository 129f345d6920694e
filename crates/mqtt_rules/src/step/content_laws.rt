//! Laws of what stored messages hold: what came in a lawful packet stays lawful (3.1.2.5, 3.3).
ghost use Rattle.std.specs.Prelude.{ℕ, Option};
ghost use Rattle.mqtt_keep.specs.lawful.Lawful.{HasLawfulWill, IsMessage};
ghost use Rattle.mqtt_records.specs.messages.Queue.{IsSpelled, first_sent};
ghost use Rattle.mqtt_records.specs.declared.messages.message.Content.{Content};
ghost use Rattle.mqtt_records.specs.declared.messages.message.MessageCopy.{MessageCopy};
ghost use Rattle.mqtt_records.specs.declared.messages.message.Will.{Will};
ghost use Rattle.mqtt_props.specs.declared.place.Place.TheVariants as places;
ghost use Rattle.mqtt_records.specs.state.Records.{nothing};
ghost use Rattle.mqtt_records.specs.declared.state.records.Records.{Records};
ghost use Rattle.mqtt_rules.specs.step.Contents.{AreContentsOf, AreSizes, HasLawfulContentsOf, IsCopiedOf, IsPublishedOf, IsWilledOf, Sizes, TakesLawful, of_packets, of_rows};
ghost use Rattle.mqtt_rules.specs.step.State.{Broker, MemberChoice};
ghost use Rattle.mqtt_rules.specs.step.Step.{Call, opened, stepped};
ghost use Rattle.mqtt_rules.specs.declared.step.Capacity.{Capacity as TheCapacity};

/// The contents of what is stored stay lawful: each copy in a queue and each retained message has a topic
/// name, and properties that have a spelling, may stand in a PUBLISH and keep its laws; each Will has such
/// as may stand in a Will; each subscription has a filter, and a Subscription Identifier from 1 that has a
/// spelling, if it has one, and so have copies. This is so after any step on a packet that is lawful and no
/// longer than a packet may be, and after any opening; likewise for the topics that the aliases of lines
/// stand for. Messages stay as short as those of packets, or as those that a store's rows may have. Retained
/// messages and Wills as short as those of packets are what lawful records ask (3.1.2.5, 3.3.2, 3.8.2.1.2,
/// 4.1).
pub fn contents_are_lawful()
    ensures step { (sizes : Sizes) (limits : TheCapacity) (choice : MemberChoice) (now : ℕ) (call : Call)
        (b : Broker) → AreSizes sizes → TakesLawful call → AreContentsOf sizes b
        → AreContentsOf sizes (stepped limits choice now call b) }
    ensures opening { (sizes : Sizes) (limits : TheCapacity) (choice : MemberChoice) (now : ℕ) (r : Records)
        → AreSizes sizes → HasLawfulContentsOf sizes r
        → AreContentsOf sizes (opened limits choice now r) }
    ensures nothing { (sizes : Sizes) → HasLawfulContentsOf sizes nothing }
    ensures sizes { AreSizes of_packets × AreSizes of_rows }
    ensures retained { (content : Content) → IsPublishedOf of_packets content
        → IsMessage places.Publish content.topic content.properties content.payload }
    ensures will { (will : Option Will) → IsWilledOf of_packets will → HasLawfulWill will }
{}

/// A copy with lawful contents has a PUBLISH that has a spelling; one as short as packets has a row such as
/// lawful records have: in a PUBLISH its properties may stand with its Subscription Identifiers, and keep
/// the laws (3.3.2.3, 4.1).
pub fn stored_copies_have_a_spelling()
    ensures spelled { (sizes : Sizes) (copy : MessageCopy) → AreSizes sizes → IsCopiedOf sizes copy
        → IsSpelled copy }
    ensures message { (copy : MessageCopy) → IsCopiedOf of_packets copy
        → IsMessage places.Publish copy.content.topic (first_sent copy) copy.content.payload }
{}
