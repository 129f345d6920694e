//! Laws of a receiver's hop: a copy that enters, and those that expire (3.3.2.3.3, 3.3.4, 4.6).
ghost use Rattle.std.specs.Prelude.{ℕ, ◌++◌, List, [], ◌∷◌, map};
ghost use Rattle.mqtt_flow.specs.outbound.OutboundWorld.{Lot};
ghost use Rattle.mqtt_world_laws.specs.receiver.Entering.{IsReceiving, MayEnter, RunsStill, RunsWith};
ghost use Rattle.mqtt_world_laws.specs.receiver.Handing.{IsRun};
ghost use Rattle.mqtt_world_laws.specs.receiver.Seen.{Numbering};
ghost use Rattle.mqtt_world_laws.specs.receiver.Tags.{AreNumbered, id_of};
ghost use Rattle.mqtt_world_model.specs.model.Ends.{Receiver};
ghost use Rattle.mqtt_records.specs.declared.messages.message.MessageCopy.{MessageCopy};
ghost use Rattle.mqtt_records.specs.declared.state.session.Session.{Session};
ghost use Rattle.mqtt_rules.specs.step.Deeds.{after_all};
ghost use Rattle.mqtt_rules.specs.step.Outbound.{enter_deeds};
ghost use Rattle.mqtt_rules.specs.step.State.{Broker, Env};
ghost use Rattle.mqtt_rules.specs.step.Tick.{lapse_deeds};

/// A copy of QoS 1 or 2 enters the queue of a receiver's session, connected or not, of whatever publication it is,
/// and the oldest copies that wait make way for it: what the receiver and its session see of the world stays a
/// run of their hop, with that copy behind those that entered before, and the session may receive more (3.3.4,
/// 4.6).
pub fn a_copy_that_enters_is_a_step_of_the_hop()
    ensures enters { (number : Numbering) (largest : ℕ) (copies : List Lot) (env : Env) (copy : MessageCopy)
        → (r : Receiver) (s : Session) (b : Broker)
        → IsRun number largest copies r b → IsReceiving r s b → MayEnter env copy s
        → AreNumbered number (map id_of copies ++ copy.id ∷ [])
        → RunsWith number largest copies copy.id r (after_all (enter_deeds env copy s) b) }
{}

/// The copies of a receiver's session that wait and have expired leave its queue, connected or not: what the
/// receiver and its session see of the world stays a run of their hop, with the same copies, and the session may
/// receive more (3.3.2.3.3).
pub fn copies_that_expire_are_steps_of_the_hop()
    ensures lapses { (number : Numbering) (largest : ℕ) (copies : List Lot) (now : ℕ) (r : Receiver) (s : Session)
        → (b : Broker) → IsRun number largest copies r b → IsReceiving r s b
        → RunsStill number largest copies r (after_all (lapse_deeds now s) b) }
{}
