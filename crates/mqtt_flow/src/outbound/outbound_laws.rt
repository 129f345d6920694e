//! The law of one outbound hop (4.3, 4.4, 4.6).

ghost use Rattle.std.specs.Prelude.{ℕ, ◌+◌, ◌≤◌, List, length};
ghost use Rattle.mqtt_base.specs.declared.Ending.TheVariants.{Expired, Dropped};
ghost use Rattle.mqtt_flow.specs.declared.outbound.entry.Entry.{Entry};
ghost use Rattle.mqtt_flow.specs.declared.outbound.entry.QueueLimits.{QueueLimits};
ghost use Rattle.mqtt_flow.specs.declared.outbound.entry.Way.{Way};
ghost use Rattle.mqtt_flow.specs.inbound.Identifiers.{free_identifier};
ghost use Rattle.mqtt_flow.specs.outbound.Queue.{greatest_given, next_order, next_place};
ghost use Rattle.mqtt_flow.specs.outbound.Outbound.{order_asked, pubrec, pump, way_open};
ghost use Rattle.mqtt_flow.specs.outbound.Pumping.{InQueueOrder, WithinWindow, IsLowestFree};
ghost use Rattle.mqtt_flow.specs.outbound.OutboundWorld.{Event, run, start};
ghost use Rattle.mqtt_flow.specs.outbound.OutboundCourse.{Once, TakenOnce, ReleasedOnce, Unhanded, InOrder, GoOn, Carried, TakenRead, Grow, ReleasedForGood, ConnectsAlone, Heard};

/// Every pump sends in the order of the queue, fills the client's window at most, and gives the
/// lowest free identifiers
/// (2.2.1, 4.6, 4.9).
pub fn pump_in_order()
    ensures order { (way : Way) (queue : List Entry) → InQueueOrder way queue }
    ensures window { (way : Way) (queue : List Entry) → WithinWindow way queue }
    ensures identifier { (used : List ℕ) → IsLowestFree used (free_identifier used) }
{}

/// What is known of the numbers that a step gives without the step: those of a pump and of a PUBREC go on from the next
/// order, and a copy enters at the next place or, if others made way, at a lower one (ours).
pub fn numbers_go_on()
    ensures pump { (way : Way) (queue : List Entry) →
        greatest_given (pump way queue) ≤ next_order queue + length queue }
    ensures pubrec { (identifier code : ℕ) (queue : List Entry) →
        order_asked (pubrec identifier code queue) ≤ next_order queue }
    ensures enter { (limits : QueueLimits) (since : ℕ) (queue : List Entry) →
        next_place (way_open limits since queue) ≤ next_place queue }
{}

/// Whatever happens on the lines of a receiver and to the broker: no copy is handed over twice, one
/// whose PUBREC was
/// taken is handed over once, with its publication's topic and payload and in the order of the
/// queue; each copy waits
/// on or ends once, for one cause; a copy of QoS 1 that was taken was read; and what was read stays
/// read. The receiver's Maximum Packet Size is the same on each of its lines (`largest`).
pub fn outbound_once()
    ensures once { (largest : ℕ) (events : List Event) → Once (run largest events start) }
    ensures taken { (largest : ℕ) (events : List Event) → TakenOnce (run largest events start) }
    ensures released { (largest : ℕ) (events : List Event) →
        ReleasedOnce (run largest events start) }
    ensures expired { (largest : ℕ) (events : List Event) →
        Unhanded Expired (run largest events start) }
    ensures dropped { (largest : ℕ) (events : List Event) →
        Unhanded Dropped (run largest events start) }
    ensures in_order { (largest : ℕ) (events : List Event) → InOrder (run largest events start) }
    ensures carried { (largest : ℕ) (events : List Event) → Carried (run largest events start) }
    ensures read { (largest : ℕ) (events : List Event) → TakenRead (run largest events start) }
    ensures course { (largest : ℕ) (events later : List Event) →
        GoOn (run largest events start) (run largest later (run largest events start)) }
    ensures grows { (largest : ℕ) (events later : List Event) →
        Grow (run largest events start) (run largest later (run largest events start)) }
    ensures for_good { (largest : ℕ) (events later : List Event) →
        ReleasedForGood (run largest events start) (run largest later (run largest events start)) }

    // What is under way on the receiver's line, and on the one that it gave up last.
    ensures alone { (largest : ℕ) (events : List Event) → ConnectsAlone (run largest events start) }
    ensures heard { (largest : ℕ) (events : List Event) → Heard (run largest events start) }
{}
