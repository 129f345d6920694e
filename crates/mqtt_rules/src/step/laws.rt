//! Laws of a step: what it writes, the order of the tables, and their limits.
ghost use Rattle.std.specs.Prelude.{◌≡◌, ℕ, ◌≤◌, List, [], length, Option};
ghost use Rattle.mqtt_packet.specs.declared.codec.packet.Packet.{Packet};
ghost use Rattle.mqtt_records.specs.declared.state.records.Records.{Records};
ghost use Rattle.mqtt_records.specs.declared.state.change.Change.{Change};
ghost use Rattle.mqtt_records.specs.state.Records.{nothing, changed, changed_all};
ghost use Rattle.mqtt_rules.specs.step.State.{Broker, stored, MemberChoice};
ghost use Rattle.mqtt_rules.specs.step.Deeds.{Whose, LinePart, Deed, RefuseWill, Link, On, Send, Gone};
ghost use Rattle.mqtt_rules.specs.step.Deeds.{rows_of, after};
ghost use Rattle.mqtt_rules.specs.step.Step.{Call, deeds, stepped, opening, unopened, opened};
ghost use Rattle.mqtt_rules.specs.step.Step.{env_of, at_moment, rows_written};
ghost use Rattle.mqtt_rules.specs.step.Laws.{IsOrdered, FewOpen, QueuesWithin};
ghost use Rattle.mqtt_rules.specs.step.Laws.{Event, after_events, blank};

use crate::step::Capacity;
use mqtt_base::QUEUE_LIMIT;

/// The rows that a step writes make of what was stored before it what is stored after it, and so do
/// those of an opening; a deed without a row leaves what is stored alone (4.1).
pub fn stored_part_follows()
    ensures step { (limits : Capacity) (choice : MemberChoice) (now : ℕ) (call : Call) (b : Broker)
        → changed_all (rows_written (deeds limits choice now call b) (at_moment now b)) (stored b)
        ≡ stored (stepped limits choice now call b) }
    ensures opening { (limits : Capacity) (choice : MemberChoice) (now : ℕ) (r : Records)
        → changed_all (rows_written (opening (env_of limits choice (unopened now r)) (unopened now r)) (unopened now r)) r
        ≡ stored (opened limits choice now r) }
    ensures without_row { (d : Deed) (b : Broker)
        → rows_of d (stored b) ≡ []
        → stored (after d b) ≡ stored b }

    // A refused Will, and all that concerns a line, has no row.
    ensures refused_will { (who : Whose) (r : Records) → rows_of (RefuseWill who) r ≡ [] }
    ensures new_line { (n : ℕ) (r : Records) → rows_of (Link n) r ≡ [] }
    ensures on_line { (n : ℕ) (part : LinePart) (r : Records) → rows_of (On n part) r ≡ [] }
    ensures sent { (n : ℕ) (packet : Packet) (r : Records) → rows_of (Send n packet) r ≡ [] }
    ensures closed_line { (n : ℕ) (r : Records) → rows_of (Gone n) r ≡ [] }
{}

/// The tables stay in order and within their limits: sessions by birth, each birth once; each session's
/// open identifiers, its subscriptions and its queue by place; retained messages by place (ours, 4.6).
pub fn tables_are_ordered()
    ensures nothing { IsOrdered nothing }
    ensures change { (change : Change) (r : Records) → IsOrdered r → IsOrdered (changed change r) }
    ensures step { (limits : Capacity) (choice : MemberChoice) (now : ℕ) (call : Call) (b : Broker)
        → IsOrdered (stored b)
        → IsOrdered (stored (stepped limits choice now call b)) }
    ensures opening { (limits : Capacity) (choice : MemberChoice) (now : ℕ) (r : Records)
        → IsOrdered r
        → IsOrdered (stored (opened limits choice now r)) }

    // Whatever was asked since the first start, and whenever a broker opened what was stored.
    ensures run { (events : List Event) → IsOrdered (stored (after_events events blank)) }
{}

/// No session ever has over 20 identifiers of QoS 2 publications open, whatever was asked since the
/// first start, and whenever a broker opened what was stored (4.9).
pub fn at_most_twenty_open()
    ensures run { (events : List Event) → FewOpen (stored (after_events events blank)) }
    ensures step { (limits : Capacity) (choice : MemberChoice) (now : ℕ) (call : Call) (b : Broker)
        → IsOrdered (stored b)
        → FewOpen (stored (stepped limits choice now call b)) }
{}

/// The limits that a broker was given hold, though they may be smaller than the tables' own: a step, or
/// an opening, that finds no more sessions than `limits.sessions` leaves no more, and so it is with
/// retained messages and `limits.retained`, and with the copies in each queue and `limits.queue` (ours).
pub fn limits_are_kept()
    ensures sessions { (limits : Capacity) (choice : MemberChoice) (now : ℕ) (call : Call) (b : Broker)
        → length (stored b).sessions ≤ limits.sessions
        → length (stored (stepped limits choice now call b)).sessions ≤ limits.sessions }
    ensures sessions_opened { (limits : Capacity) (choice : MemberChoice) (now : ℕ) (r : Records)
        → length r.sessions ≤ limits.sessions
        → length (stored (opened limits choice now r)).sessions ≤ limits.sessions }
    ensures retained { (limits : Capacity) (choice : MemberChoice) (now : ℕ) (call : Call) (b : Broker)
        → IsOrdered (stored b)
        → length (stored b).retained ≤ limits.retained
        → length (stored (stepped limits choice now call b)).retained ≤ limits.retained }
    ensures retained_opened { (limits : Capacity) (choice : MemberChoice) (now : ℕ) (r : Records)
        → IsOrdered r
        → length r.retained ≤ limits.retained
        → length (stored (opened limits choice now r)).retained ≤ limits.retained }
    ensures queues { (limits : Capacity) (choice : MemberChoice) (now : ℕ) (call : Call) (b : Broker)
        → limits.queue ≤ QUEUE_LIMIT
        → IsOrdered (stored b)
        → QueuesWithin limits.queue (stored b)
        → QueuesWithin limits.queue (stored (stepped limits choice now call b)) }
    ensures queues_opened { (limits : Capacity) (choice : MemberChoice) (now : ℕ) (r : Records)
        → limits.queue ≤ QUEUE_LIMIT
        → IsOrdered r
        → QueuesWithin limits.queue r
        → QueuesWithin limits.queue (stored (opened limits choice now r)) }
{}
