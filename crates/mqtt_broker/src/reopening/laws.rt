//! Laws of what a broker writes: it keeps each rule that records are opened by (MQTT 5.0, 4.1).
ghost use Rattle.std.specs.Prelude.{◌≡◌, ℕ, List, false};
ghost use Rattle.mqtt_keep.specs.lawful.Lawful.{IsLawful};
ghost use Rattle.mqtt_records.specs.state.Records.{nothing, IsNumber};
ghost use Rattle.mqtt_records.specs.declared.state.records.Records.{Records};
ghost use Rattle.mqtt_rules.specs.step.Contents.{TakesLawful};
ghost use Rattle.mqtt_rules.specs.step.Laws.{AreWithin, Event, IsCoherent, IsOrdered, after_events, blank};
ghost use Rattle.mqtt_rules.specs.step.Numbers.{IsTimed};
ghost use Rattle.mqtt_rules.specs.step.State.{Broker, MemberChoice, stored};
ghost use Rattle.mqtt_rules.specs.step.Step.{Call, is_opening_spent, is_step_spent, opened, stepped};
ghost use Rattle.mqtt_rules.specs.declared.step.Capacity.{Capacity as TheCapacity};
ghost use Rattle.mqtt_broker_acts.specs.calls.Sound.{IsSound};
ghost use Rattle.mqtt_world_laws.specs.acceptance.Identities.{TellsApart};
ghost use Rattle.mqtt_broker.specs.reopening.Bounds.{HaveBounds};
ghost use Rattle.mqtt_broker.specs.reopening.Identities.{HaveIdentities};
ghost use Rattle.mqtt_broker.specs.reopening.Names.{AreNamed};
ghost use Rattle.mqtt_broker.specs.reopening.Phases.{HavePhases};
ghost use Rattle.mqtt_broker.specs.reopening.Places.{HavePlacesApart};
ghost use Rattle.mqtt_broker.specs.reopening.Texts.{HaveTexts};
ghost use Rattle.mqtt_broker.specs.reopening.Times.{AreTimely};
ghost use Rattle.mqtt_broker.specs.reopening.Written.{AreFair, IsWritten};

/// Births of sessions, places of subscriptions, copies and retained messages are numbers from 1; each close,
/// and each arrival of what is queued or retained, was at the stored moment or before it. So it is in a new
/// store, and after each step and each opening if it was so before (4.1).
pub fn times_stay_in_order()
    ensures nothing { AreTimely 0 nothing }
    ensures step { (limits : TheCapacity) (choice : MemberChoice) (now : ℕ) (call : Call) (b : Broker)
        → IsTimed b → AreTimely (stored b).moment (stored b)
        → AreTimely (stored (stepped limits choice now call b)).moment (stored (stepped limits choice now call b)) }
    ensures opening { (limits : TheCapacity) (choice : MemberChoice) (now : ℕ) (r : Records)
        → IsNumber r.moment → AreTimely r.moment r
        → AreTimely (stored (opened limits choice now r)).moment (stored (opened limits choice now r)) }
{}

/// No two subscriptions have the same place, of whichever sessions: each has the number of a grant, and a
/// filter that its session has already keeps its place. So it is in a new store, and after each step and each
/// opening if it was so before (3.8.4).
pub fn places_stay_apart()
    ensures nothing { HavePlacesApart nothing }
    ensures step { (limits : TheCapacity) (choice : MemberChoice) (now : ℕ) (call : Call) (b : Broker)
        → HavePlacesApart (stored b) → HavePlacesApart (stored (stepped limits choice now call b)) }
    ensures opening { (limits : TheCapacity) (choice : MemberChoice) (now : ℕ) (r : Records)
        → HavePlacesApart r → HavePlacesApart (stored (opened limits choice now r)) }
{}

/// Each copy in a queue has a phase that its QoS allows: a packet identifier from 1, and an order of release
/// from 1 for a copy of QoS 2 alone; and no two copies of a session have the same order of release. So it is
/// in a new store, and after each step and each opening if it was so before, and tables were in order
/// (4.3, 4.6).
pub fn phases_fit_their_service()
    ensures nothing { HavePhases nothing }
    ensures step { (limits : TheCapacity) (choice : MemberChoice) (now : ℕ) (call : Call) (b : Broker)
        → IsOrdered (stored b) → HavePhases (stored b)
        → HavePhases (stored (stepped limits choice now call b)) }
    ensures opening { (limits : TheCapacity) (choice : MemberChoice) (now : ℕ) (r : Records)
        → IsOrdered r → HavePhases r → HavePhases (stored (opened limits choice now r)) }
{}

/// No two copies in a session's queue have the same identity, and each is of QoS 1 or 2, of a publication that
/// was accepted, and for a subscribe that was granted if it is of a retained message; no two retained messages
/// are of the same publication. So it is in a new store, and after each step and each opening if it was so
/// before (3.3.1.3, 3.3.4, 4.6).
pub fn copies_stay_apart()
    ensures nothing { HaveIdentities nothing }
    ensures step { (limits : TheCapacity) (choice : MemberChoice) (now : ℕ) (call : Call) (b : Broker)
        → HaveIdentities (stored b) → HaveIdentities (stored (stepped limits choice now call b)) }
    ensures opening { (limits : TheCapacity) (choice : MemberChoice) (now : ℕ) (r : Records)
        → HaveIdentities r → HaveIdentities (stored (opened limits choice now r)) }
{}

/// Each copy in a queue is for the session that the queue is of; its place, its order of release and the
/// places of retained messages are at most the last number. So it is in a new store, and after each step and
/// each opening of coherent records if it was so before, and no number is spent (ours).
pub fn numbers_stay_within_the_last()
    ensures nothing { HaveBounds nothing }
    ensures step { (limits : TheCapacity) (choice : MemberChoice) (now : ℕ) (call : Call) (b : Broker)
        → AreWithin limits → IsCoherent (stored b) → IsTimed b → IsNumber b.now
        → is_step_spent limits choice now call b ≡ false
        → HaveBounds (stored b) → HaveBounds (stored (stepped limits choice now call b)) }
    ensures opening { (limits : TheCapacity) (choice : MemberChoice) (now : ℕ) (r : Records)
        → AreWithin limits → IsCoherent r → is_opening_spent limits choice now r ≡ false
        → HaveBounds r → HaveBounds (stored (opened limits choice now r)) }
{}

/// A client identifier that begins as those do that the broker assigns is one that it has assigned, in its
/// shortest decimal form; and while none is spent, no session has one longer than the limit. So it is in a
/// new store, and after each step and each opening if it was so before (3.1.3.1).
pub fn client_identifiers_stay_lawful()
    ensures nothing { AreNamed nothing }
    ensures step { (limits : TheCapacity) (choice : MemberChoice) (now : ℕ) (call : Call) (b : Broker)
        → AreNamed (stored b) → AreNamed (stored (stepped limits choice now call b)) }
    ensures opening { (limits : TheCapacity) (choice : MemberChoice) (now : ℕ) (r : Records)
        → AreNamed r → AreNamed (stored (opened limits choice now r)) }
{}

/// No session is without a client identifier; open identifiers are from 1, filters are such as packets carry,
/// and each copy of a group is of one whose filter is such. So it is in a new store, and after each step on a
/// lawful packet and each opening if it was so before, and copies had identities of their own (2.2.1,
/// 3.8.3, 4.8.2).
pub fn texts_stay_lawful()
    ensures nothing { HaveTexts nothing }
    ensures step { (limits : TheCapacity) (choice : MemberChoice) (now : ℕ) (call : Call) (b : Broker)
        → TakesLawful call → HaveIdentities (stored b) → HaveTexts (stored b)
        → HaveTexts (stored (stepped limits choice now call b)) }
    ensures opening { (limits : TheCapacity) (choice : MemberChoice) (now : ℕ) (r : Records)
        → HaveIdentities r → HaveTexts r → HaveTexts (stored (opened limits choice now r)) }
{}

/// What a broker has written are lawful records, and it writes such again: a new store is such, and so is
/// what each step of a sound broker leaves of such, on a packet that is lawful and no longer than a packet
/// may be, and each opening, if no number is spent. Beyond what lawful records have, its messages are as
/// short as those of packets, its filters such as packets carry, and its retained messages of different
/// publications: without these a step could make a row too long, a group without a spelling, or two copies
/// with one identity. So it tells its copies apart, as a world in which each copy enters and ends once asks of
/// where it begins (4.1).
pub fn what_a_broker_writes_is_lawful()
    ensures lawful { (r : Records) → IsWritten r → IsLawful r }
    ensures apart { (r : Records) → IsWritten r → TellsApart r }
    ensures nothing { IsWritten nothing }
    ensures step { (limits : TheCapacity) (choice : MemberChoice) (now : ℕ) (call : Call) (b : Broker)
        → is_step_spent limits choice now call b ≡ false → TakesLawful call
        → IsSound limits b → IsWritten (stored b)
        → IsWritten (stored (stepped limits choice now call b)) }
    ensures opening { (limits : TheCapacity) (choice : MemberChoice) (now : ℕ) (r : Records)
        → AreWithin limits → is_opening_spent limits choice now r ≡ false
        → IsWritten r → IsWritten (stored (opened limits choice now r)) }
{}

/// Starting again needs no hand: whatever was asked of a broker since its store was empty, or since it opened
/// what a broker had written, and whenever it opened what it had stored, what is stored may be opened again,
/// if limits were within those of the tables, packets lawful and no longer than a packet may be, and no
/// number was spent (4.1).
pub fn a_store_may_be_opened_again()
    ensures run { (events : List Event) → AreFair events blank
        → IsLawful (stored (after_events events blank)) }
    ensures opened { (limits : TheCapacity) (choice : MemberChoice) (now : ℕ) (r : Records) (events : List Event)
        → AreWithin limits → is_opening_spent limits choice now r ≡ false → IsWritten r
        → AreFair events (opened limits choice now r)
        → IsLawful (stored (after_events events (opened limits choice now r))) }
{}
