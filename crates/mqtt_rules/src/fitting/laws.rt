//! Laws of which copies are too large for a client that is told topics by aliases (3.1.2.11.4, 3.3.2.3.4).
ghost use Rattle.std.specs.Prelude.{◌≡◌, false, Some};
ghost use Rattle.mqtt_flow.specs.outbound.Outbound.{pump};
ghost use Rattle.mqtt_records.specs.declared.state.session.Session.{Session};
ghost use Rattle.mqtt_topic.specs.sending.Told.{none_told};
ghost use Rattle.mqtt_rules.specs.step.Outbound.{way_of};
ghost use Rattle.mqtt_rules.specs.step.Deeds.{offer};
ghost use Rattle.mqtt_rules.specs.step.Fitting.{offer_copy, pump_turns};
ghost use Rattle.mqtt_rules.specs.step.Packets.{publish_of};
ghost use Rattle.mqtt_rules.specs.step.State.{Broker, Line, queue_on, told_on};
ghost use Rattle.mqtt_records.specs.messages.Queue.{IsSpelled};
ghost use Rattle.mqtt_records.specs.declared.messages.message.MessageCopy.{MessageCopy};
ghost use Rattle.mqtt_records.specs.state.Session.{copy_place};
ghost use Rattle.mqtt_records.specs.lists.Order.{IsAscending};
ghost use Rattle.mqtt_rules.specs.fitting.Fitting.{AreDecided, AreSpelled, AreWithinWhole, IsWithinWhole};

/// While each copy of a queue is within what the client takes with its whole topic, a pump by forms has the turns of
/// one by whole topics, whatever the client was told (3.1.2.11.4).
pub fn a_pump_of_whole_copies_goes_by_whole_topics()
    ensures { (l : Line) (b : Broker) (s : Session) → AreWithinWhole l.largest s.queue
        → pump_turns l b s ≡ pump (way_of l b.now) (queue_on l.went s) }
{}

/// By what the client was told until then, each PUBLISH of a pump goes out in a form that is within what the client
/// takes, and what ends or is outgrown as too large has no such form (3.1.2.11.4, 3.3.2.3.4).
pub fn only_what_has_no_form_is_too_large()
    ensures { (l : Line) (b : Broker) (s : Session) → IsAscending copy_place s.queue → AreSpelled s.queue
        → AreDecided l.largest s (told_on l.number b.tellings) (pump_turns l b s) }
{}

/// A copy of QoS 0 that is within with its whole topic goes out, whatever the client was told (3.1.2.11.4).
pub fn a_whole_copy_is_offered_by_its_whole_topic()
    ensures { (l : Line) (copy : MessageCopy) (b : Broker) → IsWithinWhole l.largest copy
        → offer_copy (Some l) copy b ≡ offer (Some l) (publish_of b.now false 0 copy) }
{}

/// To a client that takes no alias and was told none, a pump has the turns of one by whole topics, and a copy of QoS 0
/// goes out if it is within with its whole topic, whatever else is too large (3.1.2.11.4, 3.1.2.11.5).
pub fn who_was_told_nothing_is_sent_whole_topics()
    ensures pumps { (l : Line) (b : Broker) (s : Session) → told_on l.number b.tellings ≡ none_told 0
        → IsAscending copy_place s.queue → pump_turns l b s ≡ pump (way_of l b.now) (queue_on l.went s) }
    ensures offers { (l : Line) (copy : MessageCopy) (b : Broker) → told_on l.number b.tellings ≡ none_told 0
        → IsSpelled copy → offer_copy (Some l) copy b ≡ offer (Some l) (publish_of b.now false 0 copy) }
{}
