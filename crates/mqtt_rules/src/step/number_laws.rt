//! Laws of the numbers that the broker gives: births, numbers and places only grow and are unique.
ghost use Rattle.std.specs.Prelude.{◌≡◌, ◌≤◌, ◌+◌, ℕ, suc, List, None, false, length};
ghost use Rattle.mqtt_records.specs.lists.Order.{IsAbove, IsAscending, IsBelow};
ghost use Rattle.mqtt_records.specs.state.Session.{copy_place, number_of};
ghost use Rattle.mqtt_records.specs.state.Records.{nothing, kept_place};
ghost use Rattle.mqtt_records.specs.declared.messages.message.MessageCopy.{MessageCopy};
ghost use Rattle.mqtt_records.specs.declared.messages.message.RetainedMessage.{RetainedMessage};
ghost use Rattle.mqtt_records.specs.messages.Queue.{CopyRow};
ghost use Rattle.mqtt_records.specs.declared.state.records.Records.{Records};
ghost use Rattle.mqtt_records.specs.declared.state.session.Session.{Session};
ghost use Rattle.mqtt_rules.specs.declared.step.Capacity.{Capacity as TheCapacity};
ghost use Rattle.mqtt_rules.specs.step.State.{Broker, session_at, MemberChoice};
ghost use Rattle.mqtt_rules.specs.step.Deeds.{new_entry};
ghost use Rattle.mqtt_rules.specs.step.Routing.{place_of_kept};
ghost use Rattle.mqtt_rules.specs.step.Subscribe.{Wish, has_filter, subscription};
ghost use Rattle.mqtt_rules.specs.step.Step.{Call, deeds, stepped, opening, opened, unopened, env_of};
ghost use Rattle.mqtt_rules.specs.step.Numbers.{CountsOn, CountOn, NoneFell, IsTimed, HasGivenBirths, HasAcceptedNumbers, AreInOrder};

use mqtt_base::LAST_NUMBER;

/// Each birth, each publication's number, each granted filter's number and each number of an assigned
/// client identifier that a step gives is the next one, one above the last that was ever given, and the
/// counter after the step is the last given; likewise when a broker opens.
pub fn numbers_are_new()
    ensures step { (limits : TheCapacity) (choice : MemberChoice) (now : ℕ) (call : Call) (b : Broker)
        → CountOn (deeds limits choice now call b) b.records
        (stepped limits choice now call b).records }
    ensures opening { (limits : TheCapacity) (choice : MemberChoice) (now : ℕ) (r : Records)
        → CountOn (opening (env_of limits choice (unopened now r)) (unopened now r)) r
        (opened limits choice now r).records }
{}

/// Numbers that count on are each above all that were given before, and none of them comes twice.
pub fn counted_numbers_are_apart()
    ensures above { (n m : ℕ) (numbers : List ℕ)
        → CountsOn n numbers m → IsAbove number_of n numbers }
    ensures apart { (n m : ℕ) (numbers : List ℕ)
        → CountsOn n numbers m → IsAscending number_of numbers }
    ensures many { (n m : ℕ) (numbers : List ℕ)
        → CountsOn n numbers m → m ≡ n + length numbers }
{}

/// No counter falls, whatever is asked of the broker, nor when it opens. The stored moment doesn't fall
/// if it isn't above the greatest moment handed in, as it never is once the broker is open on what a
/// store has, whose moment is at most the last one.
pub fn counters_never_fall()
    ensures step { (limits : TheCapacity) (choice : MemberChoice) (now : ℕ) (call : Call) (b : Broker)
        → NoneFell b.records (stepped limits choice now call b).records }
    ensures opening { (limits : TheCapacity) (choice : MemberChoice) (now : ℕ) (r : Records)
        → NoneFell r (opened limits choice now r).records }
    ensures moment { (limits : TheCapacity) (choice : MemberChoice) (now : ℕ) (call : Call) (b : Broker)
        → IsTimed b
        → (b.records.moment ≤ (stepped limits choice now call b).records.moment)
        × IsTimed (stepped limits choice now call b) }
    ensures opening_moment { (limits : TheCapacity) (choice : MemberChoice) (now : ℕ) (r : Records)
        → r.moment ≤ LAST_NUMBER
        → (r.moment ≤ (opened limits choice now r).records.moment)
        × IsTimed (opened limits choice now r) }
{}

/// No session that stands has a birth above the last one given, after any step of a broker if none
/// had, and after its opening, and none has if nothing is stored; so the birth of a new session is
/// that of none that stands.
pub fn births_are_new()
    ensures step { (limits : TheCapacity) (choice : MemberChoice) (now : ℕ) (call : Call) (b : Broker)
        → HasGivenBirths b.records → HasGivenBirths (stepped limits choice now call b).records }
    ensures opening { (limits : TheCapacity) (choice : MemberChoice) (now : ℕ) (r : Records)
        → HasGivenBirths r → HasGivenBirths (opened limits choice now r).records }
    ensures nothing { HasGivenBirths nothing }
    ensures next { (r : Records) → HasGivenBirths r → session_at (suc r.births) r ≡ None }
{}

/// No copy in a queue and no retained message has a number above that of the last publication accepted,
/// after any step of a broker if none had, and after its opening, and none has if nothing is stored;
/// so a new publication's number is above those of all copies and retained messages that stand.
pub fn copies_are_of_accepted_publications()
    ensures step { (limits : TheCapacity) (choice : MemberChoice) (now : ℕ) (call : Call) (b : Broker)
        → HasAcceptedNumbers b.records
        → HasAcceptedNumbers (stepped limits choice now call b).records }
    ensures opening { (limits : TheCapacity) (choice : MemberChoice) (now : ℕ) (r : Records)
        → HasAcceptedNumbers r → HasAcceptedNumbers (opened limits choice now r).records }
    ensures nothing { HasAcceptedNumbers nothing }
{}

/// Sessions stand in the order of their births, retained messages and the subscriptions and copies of each
/// session in that of their places, and open identifiers ascend, after any step of a broker if they did,
/// and after its opening; so no birth, no place and no open identifier comes twice.
pub fn births_and_places_are_unique()
    ensures step { (limits : TheCapacity) (choice : MemberChoice) (now : ℕ) (call : Call) (b : Broker)
        → AreInOrder b.records → AreInOrder (stepped limits choice now call b).records }
    ensures opening { (limits : TheCapacity) (choice : MemberChoice) (now : ℕ) (r : Records)
        → AreInOrder r → AreInOrder (opened limits choice now r).records }
    ensures nothing { AreInOrder nothing }
{}

/// A copy that enters a queue gets a place above all that stand there; a message retained for a topic
/// that had none gets a place above all retained; and a subscription to a filter that its session didn't
/// have gets its grant's number as its place (4.6, 3.3.1.3, 3.8.4).
pub fn new_places_are_last()
    ensures copy { (copy : MessageCopy) (queue : List CopyRow)
        → IsBelow copy_place (new_entry copy queue).place queue }
    ensures retained { (all : List RetainedMessage) → IsBelow kept_place (place_of_kept None all) all }
    ensures subscription { (number : ℕ) (s : Session) (w : Wish)
        → has_filter w.filter s ≡ false → (subscription number s w).place ≡ number }
{}
