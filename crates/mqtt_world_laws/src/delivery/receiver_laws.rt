//! Laws of a receiver that stands in the world: each does at the beginning, and what follows for what it has read (4.3.2,
//! 4.3.3, 4.6).
ghost use Rattle.std.specs.Prelude.{◌≡◌, ◌≤◌, All, [], ℕ, List, Some, true};
ghost use Rattle.mqtt_base.specs.declared.session.CopyId.{CopyId};
ghost use Rattle.mqtt_world_laws.specs.delivery.Standing.{Stands, StandsWith};
ghost use Rattle.mqtt_world_laws.specs.receiver.Own.{RunsAlone};
ghost use Rattle.mqtt_world_laws.specs.receiver.Seen.{Numbering};
ghost use Rattle.mqtt_world_laws.specs.receiver.Served.{IsTidy};
ghost use Rattle.mqtt_world_model.specs.model.Ends.{Receiver};
ghost use Rattle.mqtt_world_model.specs.model.Laws.{copies_in, handed_count, released_in, stand_among};
ghost use Rattle.mqtt_world_model.specs.model.World.{World, receiver_named};
ghost use Rattle.mqtt_rules.specs.step.Laws.{AreWithin};
ghost use Rattle.mqtt_rules.specs.step.State.{session_named};
ghost use Rattle.mqtt_rules.specs.declared.step.Capacity.{Capacity};
ghost use Rattle.mqtt_world_laws.specs.acceptance.Fair.{IsNew};

/// In a new world every receiver stands, whatever its name: none has come yet. Asked: limits within those of the tables,
/// and tables in order with queues within the limit (4.1).
pub fn every_receiver_stands_in_a_new_world()
    ensures begins { (client : List ℕ) (largest : ℕ) (limits : Capacity) (w : World)
        → AreWithin limits → IsTidy limits w.broker → IsNew w → Stands [] client largest limits w }
{}

/// Where a receiver stands, what it sees of the world is a run of its hop: each copy of QoS 2 was handed over at most once,
/// in the order in which the copies entered, and once if its PUBREC was taken (4.3.3, 4.6).
pub fn a_receiver_that_stands_was_handed_its_copies_once()
    ensures runs { (client : List ℕ) (largest : ℕ) (limits : Capacity) (ids : List CopyId) (ns : List ℕ) (r : Receiver)
        → (w : World) → StandsWith client largest limits ids ns w → receiver_named client w ≡ Some r
        → (number : Numbering) × RunsAlone number largest ids r w.broker }
    ensures once { (client : List ℕ) (largest : ℕ) (limits : Capacity) (ids : List CopyId) (ns : List ℕ) (r : Receiver)
        → (w : World) → StandsWith client largest limits ids ns w → receiver_named client w ≡ Some r
        → (copy : CopyId) → handed_count copy r ≤ 1 }
    ensures in_order { (client : List ℕ) (largest : ℕ) (limits : Capacity) (ids : List CopyId) (ns : List ℕ)
        → (r : Receiver) (w : World) → StandsWith client largest limits ids ns w → receiver_named client w ≡ Some r
        → stand_among (copies_in r.ledger) ids ≡ true }
    ensures released { (client : List ℕ) (largest : ℕ) (limits : Capacity) (ids : List CopyId) (ns : List ℕ)
        → (r : Receiver) (w : World) → StandsWith client largest limits ids ns w → receiver_named client w ≡ Some r
        → All (λ (copy : CopyId). handed_count copy r ≡ 1) (released_in (session_named r.client w.broker.records)) }
{}
