//! Laws of worlds that begin on what a broker wrote (2.2.1, 3.3.1.3, 4.1).
ghost use Rattle.std.specs.Prelude.{◌≡◌, ℕ, List, false};
ghost use Rattle.mqtt_keep.specs.lawful.Lawful.{IsLawful};
ghost use Rattle.mqtt_records.specs.declared.state.records.Records.{Records};
ghost use Rattle.mqtt_rules.specs.step.Contents.{AreContentsLawful};
ghost use Rattle.mqtt_rules.specs.step.Flight.{HasDistinctIdentifiers};
ghost use Rattle.mqtt_rules.specs.step.Laws.{AreWithin};
ghost use Rattle.mqtt_rules.specs.step.State.{MemberChoice};
ghost use Rattle.mqtt_rules.specs.step.Step.{is_opening_spent};
ghost use Rattle.mqtt_rules.specs.declared.step.Capacity.{Capacity as TheCapacity};
ghost use Rattle.mqtt_world_laws.specs.acceptance.Fair.{opened_world};
ghost use Rattle.mqtt_world_laws.specs.receiver.Drains.{Doing};
ghost use Rattle.mqtt_world_laws.specs.delivery.Retaining.{AreRetainedOnce};
ghost use Rattle.mqtt_world_laws.specs.headline.Delivery.{DoingsDeliver};
ghost use Rattle.mqtt_world_laws.specs.headline.Lives.{BeginsWell, IsFairScript};
ghost use Rattle.mqtt_rules.specs.granting.Naming.{StoresNamed};
ghost use Rattle.mqtt_rules.specs.spelling.Sending.{HaveSentPhases, SendsWell};
ghost use Rattle.mqtt_broker.specs.reopening.Written.{IsWritten};
ghost use Rattle.mqtt_world.specs.reopening.Reached.{WasLeft};

/// In lawful records no two copies in flight in a session have one packet identifier; and in those that a broker wrote no two
/// retained messages are of one publication (2.2.1, 3.3.1.3).
pub fn what_a_broker_wrote_is_told_apart()
    ensures identifiers { (r : Records) → IsLawful r → HasDistinctIdentifiers r }
    ensures retained { (r : Records) → IsWritten r → AreRetainedOnce r }
{}

/// What a broker has left, after any openings and calls from nothing stored, is such as a broker writes; and each packet
/// identifier in flight in it is from 1 and has two bytes, whatever faults came on its lines, with whatever codes (2.2.1, 4.13).
pub fn what_a_broker_left_has_identifiers_of_two_bytes()
    ensures written { (r : Records) → WasLeft r → IsWritten r }
    ensures identifiers { (r : Records) → WasLeft r → HaveSentPhases r }
{}

/// And it names its topics: copies and retained messages have a topic name and no Topic Alias, and Wills a topic name. So a
/// run may begin on it whose ends take aliases (3.3.2.1, 3.3.2.3.4).
pub fn what_a_broker_left_names_its_topics()
    ensures named { (r : Records) → WasLeft r → StoresNamed r }
{}

/// So a run may begin when the broker is opened on what any broker wrote, under whatever limits, also if more sessions stand
/// and queues are longer than these allow, if each packet identifier in flight there has two bytes: its contents are lawful, it
/// sends well, and all of exactly-once delivery holds of every fair script from there. So it is when it is opened on what a
/// broker has left after any fair openings and calls from nothing stored, of which nothing else is asked (2.2.1, 4.1).
pub fn a_world_may_begin_on_what_a_broker_wrote()
    ensures begins { (limits : TheCapacity) (choice : MemberChoice) (now : ℕ) (r : Records) → AreWithin limits
        → IsWritten r → HaveSentPhases r → is_opening_spent limits choice now r ≡ false
        → BeginsWell limits (opened_world limits choice now r) }
    ensures contents { (limits : TheCapacity) (choice : MemberChoice) (now : ℕ) (r : Records) → IsWritten r
        → AreContentsLawful (opened_world limits choice now r).broker }
    ensures sends { (limits : TheCapacity) (choice : MemberChoice) (now : ℕ) (r : Records) → WasLeft r
        → is_opening_spent limits choice now r ≡ false → SendsWell (opened_world limits choice now r).broker }
    ensures sends_wherever { (limits : TheCapacity) (choice : MemberChoice) (now : ℕ) (r : Records) → IsWritten r
        → HaveSentPhases r → is_opening_spent limits choice now r ≡ false
        → SendsWell (opened_world limits choice now r).broker }
    ensures delivers { (limits : TheCapacity) (choice : MemberChoice) (now : ℕ) (r : Records) (ds : List Doing) → AreWithin limits
        → IsWritten r → HaveSentPhases r → is_opening_spent limits choice now r ≡ false
        → IsFairScript limits ds (opened_world limits choice now r)
        → DoingsDeliver limits ds (opened_world limits choice now r) }

    // On what a broker has left.
    ensures left_begins { (limits : TheCapacity) (choice : MemberChoice) (now : ℕ) (r : Records) → AreWithin limits
        → WasLeft r → is_opening_spent limits choice now r ≡ false
        → BeginsWell limits (opened_world limits choice now r) }
    ensures left_delivers { (limits : TheCapacity) (choice : MemberChoice) (now : ℕ) (r : Records) (ds : List Doing)
        → AreWithin limits → WasLeft r → is_opening_spent limits choice now r ≡ false
        → IsFairScript limits ds (opened_world limits choice now r)
        → DoingsDeliver limits ds (opened_world limits choice now r) }
{}
