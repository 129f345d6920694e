//! Laws of what goes out, and of the identifiers in flight (MQTT 5.0, 2.1, 2.2.1).
ghost use Rattle.std.specs.Prelude.{◌≡◌, ℕ, false, List, Some};
ghost use Rattle.std.specs.List.{AllByRecursion};
ghost use Rattle.mqtt_packet.specs.codec.Packets.{HasSpelling};
ghost use Rattle.mqtt_packet.specs.declared.codec.packet.Packet.{Packet};
ghost use Rattle.mqtt_keep.specs.lawful.Lawful.{IsLawful};
ghost use Rattle.mqtt_records.specs.state.Records.{nothing};
ghost use Rattle.mqtt_records.specs.declared.state.records.Records.{Records};
ghost use Rattle.mqtt_rules.specs.step.Contents.{AreContentsLawful, HasLawfulContents, TakesLawful};
ghost use Rattle.mqtt_rules.specs.step.Laws.{IsOrdered};
ghost use Rattle.mqtt_rules.specs.step.Piece.{first_call};
ghost use Rattle.mqtt_rules.specs.step.State.{Broker, MemberChoice, stored};
ghost use Rattle.mqtt_rules.specs.step.Step.{Call, is_opening_spent, is_step_spent, opened, opening_deeds, stepped, told};
ghost use Rattle.mqtt_rules.specs.declared.step.Capacity.{Capacity as TheCapacity};
ghost use Rattle.mqtt_rules.specs.spelling.Sending.{HaveSentPhases, IsAsked, SendsWell, TellsFault};

/// Each packet that the broker sends in a step has a spelling: whoever reads its bytes gets that packet, and it is
/// lawful MQTT. So it is if no number is spent, the packet that came is lawful and no longer than a packet may
/// be, or the code of a bad one is that of a fault; and if the broker's contents are lawful, its tables in
/// order, and each packet identifier in flight is from 1 and has two bytes, as is so of every broker that began
/// with an empty store. The code of what bytes of a line ask for is always that of a fault (2.1, 2.2.1, 3.2 to
/// 3.14, 4.13).
pub fn what_goes_out_has_a_spelling()
    ensures step { (limits : TheCapacity) (choice : MemberChoice) (now : ℕ) (call : Call) (b : Broker)
        → is_step_spent limits choice now call b ≡ false → TakesLawful call → TellsFault call
        → AreContentsLawful b → IsOrdered (stored b) → HaveSentPhases (stored b)
        → AllByRecursion (λ (x : ℕ × Packet). HasSpelling x.1) (told limits choice now call b).outputs }
    ensures fault { (line : ℕ) (bytes : List ℕ) (call : Call) → first_call line bytes ≡ Some call
        → TellsFault call }
{}

/// Each packet identifier in flight is from 1 and has two bytes. So it is in a new store, and after each step and
/// each opening if it was so before, under the same premises (2.2.1).
pub fn identifiers_stay_two_bytes()
    ensures nothing { HaveSentPhases nothing }
    ensures step { (limits : TheCapacity) (choice : MemberChoice) (now : ℕ) (call : Call) (b : Broker)
        → is_step_spent limits choice now call b ≡ false → TakesLawful call → TellsFault call
        → AreContentsLawful b → IsOrdered (stored b) → HaveSentPhases (stored b)
        → HaveSentPhases (stored (stepped limits choice now call b)) }
    ensures opening { (limits : TheCapacity) (choice : MemberChoice) (now : ℕ) (r : Records)
        → is_opening_spent limits choice now r ≡ false → HasLawfulContents r → HaveSentPhases r
        → HaveSentPhases (stored (opened limits choice now r)) }
{}

/// A broker that opens on lawful records, each of whose packet identifiers in flight is from 1 and has two bytes,
/// sends well; so does one that opens again on what a broker left that sent well, and so does a broker after each
/// step that spends no number, on a packet that is lawful or with the code of a fault; and each packet that goes
/// out in that step has a spelling. So whatever such a broker is asked, and however often it opens again, its
/// packets are read as they were sent (2.1, 4.1).
pub fn brokers_go_on_sending_well()
    ensures begins { (limits : TheCapacity) (choice : MemberChoice) (now : ℕ) (r : Records)
        → is_opening_spent limits choice now r ≡ false → IsLawful r → HaveSentPhases r
        → SendsWell (opened limits choice now r) }
    ensures reopens { (limits : TheCapacity) (choice : MemberChoice) (now : ℕ) (b : Broker)
        → is_opening_spent limits choice now (stored b) ≡ false → SendsWell b
        → SendsWell (opened limits choice now (stored b)) }
    ensures steps { (limits : TheCapacity) (choice : MemberChoice) (now : ℕ) (call : Call) (b : Broker)
        → IsAsked limits choice now call b → SendsWell b
        → SendsWell (stepped limits choice now call b) }
    ensures spells { (limits : TheCapacity) (choice : MemberChoice) (now : ℕ) (call : Call) (b : Broker)
        → IsAsked limits choice now call b → SendsWell b
        → AllByRecursion (λ (x : ℕ × Packet). HasSpelling x.1) (told limits choice now call b).outputs }
{}
