//! Laws of a receiver's hop: what the broker does for others (4.1).
ghost use Rattle.std.specs.Prelude.{ℕ, List};
ghost use Rattle.mqtt_flow.specs.outbound.OutboundWorld.{Lot};
ghost use Rattle.mqtt_world_laws.specs.receiver.Entering.{IsReceiving};
ghost use Rattle.mqtt_world_laws.specs.receiver.Handing.{IsRun};
ghost use Rattle.mqtt_world_laws.specs.receiver.Others.{AreOfOthers, IsWithin};
ghost use Rattle.mqtt_world_laws.specs.receiver.Seen.{Numbering};
ghost use Rattle.mqtt_world_model.specs.model.Ends.{Receiver};
ghost use Rattle.mqtt_records.specs.declared.state.session.Session.{Session};
ghost use Rattle.mqtt_rules.specs.step.Deeds.{Deed, after_all};
ghost use Rattle.mqtt_rules.specs.step.State.{Broker};

/// Deeds of the broker on other sessions and on other lines, and publications that are accepted, kept or forgotten,
/// change nothing of what a receiver and its session see of the world: it stays the same run of their hop, with the
/// same copies, and the session, as it is, may receive more (4.1).
pub fn deeds_of_others_are_unseen()
    ensures runs { (number : Numbering) (largest : ℕ) (copies : List Lot) (ns : List ℕ) (r : Receiver) (s : Session)
        → (b : Broker) (ds : List Deed) → IsRun number largest copies r b → IsReceiving r s b → IsWithin ns r s b
        → AreOfOthers r.client s.birth ns ds → IsRun number largest copies r (after_all ds b) }
    ensures receives { (number : Numbering) (largest : ℕ) (copies : List Lot) (ns : List ℕ) (r : Receiver) (s : Session)
        → (b : Broker) (ds : List Deed) → IsRun number largest copies r b → IsReceiving r s b → IsWithin ns r s b
        → AreOfOthers r.client s.birth ns ds → IsReceiving r s (after_all ds b) }
    ensures within { (number : Numbering) (largest : ℕ) (copies : List Lot) (ns : List ℕ) (r : Receiver) (s : Session)
        → (b : Broker) (ds : List Deed) → IsRun number largest copies r b → IsReceiving r s b → IsWithin ns r s b
        → AreOfOthers r.client s.birth ns ds → IsWithin ns r s (after_all ds b) }
{}
