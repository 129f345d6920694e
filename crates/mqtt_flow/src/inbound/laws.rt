//! Laws of the definitions: of open identifiers, and of every run of an inbound hop (4.3.2, 4.3.3, 4.9).

ghost use Rattle.std.specs.Prelude.{◌≡◌, ◌≢◌, ℕ, ◌≤◌, true, false, List, ◌++◌, length, Some, None};
ghost use Rattle.mqtt_flow.specs.inbound.Identifiers.{ids_without, is_among};
ghost use Rattle.mqtt_flow.specs.inbound.Inbound.{answer_to, open_after, IsOpenList};
ghost use Rattle.mqtt_flow.specs.inbound.Publisher.{IsExactlyOnce, IsEnded, completed, refused, ended_1, ended};
ghost use Rattle.mqtt_flow.specs.inbound.InboundWorld.{Event, after, fate_of, accepted_count, ConnectsAlone, Heard};
ghost use Rattle.mqtt_flow.specs.declared.inbound.inflow.Published.TheVariants.{New};

use mqtt_base::OPEN_LIMIT;

/// A PUBLISH opens its own identifier, a PUBREL closes its own, and neither concerns another (4.3.3).
pub fn own_identifier_alone()
    ensures opens { (id : ℕ) (ids : List ℕ) →
        answer_to id ids ≡ New → is_among id (open_after id ids) ≡ true }
    ensures closes { (id : ℕ) (ids : List ℕ) → is_among id (ids_without id ids) ≡ false }
    ensures publish_alone { (id other : ℕ) (ids : List ℕ) →
        other ≢ id → is_among other (open_after id ids) ≡ is_among other ids }
    ensures release_alone { (id other : ℕ) (ids : List ℕ) →
        other ≢ id → is_among other (ids_without id ids) ≡ is_among other ids }

    // What a session keeps stays a lawful list.
    ensures publish_lawful { (id : ℕ) (ids : List ℕ) → IsOpenList ids → IsOpenList (open_after id ids) }
    ensures release_lawful { (id : ℕ) (ids : List ℕ) → IsOpenList ids → IsOpenList (ids_without id ids) }
{}

/// Whatever happens on the lines of an inbound hop, each QoS 2 message is accepted at most once (4.3.3).
pub fn inbound_once()
    ensures once { (events : List Event) (n : ℕ) →
        IsExactlyOnce (fate_of n (after events)) → accepted_count n (after events) ≤ 1 }
    ensures unsent { (events : List Event) (n : ℕ) →
        fate_of n (after events) ≡ None → accepted_count n (after events) ≡ 0 }
    ensures completed { (events : List Event) (n : ℕ) →
        fate_of n (after events) ≡ Some (ended completed) → accepted_count n (after events) ≡ 1 }
    ensures refused { (events : List Event) (n : ℕ) →
        fate_of n (after events) ≡ Some (ended refused) → accepted_count n (after events) ≡ 0 }

    // One of QoS 1 is accepted at least once (4.3.2).
    ensures acknowledged { (events : List Event) (n : ℕ) →
        fate_of n (after events) ≡ Some (ended_1 completed) → 1 ≤ accepted_count n (after events) }

    // What has ended stays so.
    ensures for_good { (earlier later : List Event) (n : ℕ) → IsEnded (fate_of n (after earlier)) →
        fate_of n (after (earlier ++ later)) ≡ fate_of n (after earlier) }

    // The session never has more identifiers open than its Receive Maximum (4.9).
    ensures within { (events : List Event) → length (after events).ids ≤ OPEN_LIMIT }

    // What is under way on the publisher's line, and on the one that it gave up last.
    ensures alone { (events : List Event) → ConnectsAlone (after events) }
    ensures heard { (events : List Event) → Heard (after events) }
{}
