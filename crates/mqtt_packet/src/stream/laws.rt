//! What holds of every stream, and of every framer (2.1).

ghost use Rattle.std.specs.Prelude.{◌≡◌, ◌≢◌, ℕ, ◌+◌, ◌<◌, ◌≤◌, take, slice_index, ◌∷◌, [], ◌++◌, ◌⊎◌, List, length, Ok, Err, Some, None, true, false};
ghost use Rattle.mqtt_base.specs.Reading.{varint_at};
ghost use Rattle.mqtt_base.specs.declared.fault.ReadFault.TheVariants.{Overlong};
ghost use Rattle.mqtt_packet.specs.declared.parts.fault.Fault.{Fault};
ghost use Rattle.mqtt_packet.specs.declared.parts.fault.Fault.TheVariants.{Malformed, TooLarge};
ghost use Rattle.mqtt_base.specs.declared.limits.TheConstants.{PACKET_LIMIT};
ghost use Rattle.mqtt_packet.specs.declared.codec.head.Head.{Head};
ghost use Rattle.mqtt_packet.specs.declared.codec.packet.Packet.{Packet};
ghost use Rattle.mqtt_packet.specs.codec.Packets.{Refusal, Spells};
ghost use Rattle.mqtt_packet.specs.codec.Heads.{head_of};
ghost use Rattle.mqtt_packet.specs.stream.Front.{first_of, size_at};
ghost use Rattle.mqtt_packet.specs.stream.Stream.{AreSpelled, joined_bytes, items_from, end_from, Item, Ending, short_at, fault_at, IsCut, IsStream, Framing, Call, IsRun, taken_of, given_of, empty};

/// A stream begins with a packet if it begins with a spelling, and if a fault stands no stream
/// that goes on so begins with one.
pub fn first_spelled()
    ensures whole { (packet : Packet) (bytes more : List ℕ)
        → Spells packet bytes → length bytes ≤ PACKET_LIMIT
        → first_of (bytes ++ more) ≡ Ok (Some (packet, length bytes)) }
    ensures found { (bytes : List ℕ) (packet : Packet) (n : ℕ)
        → ((i : ℕ) → slice_index bytes i < 256) → first_of bytes ≡ Ok (Some (packet, n))
        → Spells packet (take n bytes) × (n ≤ PACKET_LIMIT) }
    ensures fault { (bytes later spelling more : List ℕ) (fault : Fault) (packet : Packet)
        → first_of bytes ≡ Err fault → Spells packet spelling → length spelling ≤ PACKET_LIMIT
        → bytes ++ later ≢ spelling ++ more }
{}

/// The spellings of packets, one after the other, are cut into these packets.
pub fn joined_cut()
    ensures { (packets : List (Packet × List ℕ)) → AreSpelled packets
        → IsStream (joined_bytes packets) (items_from 0 packets)
        (short_at (end_from 0 packets) []) }
{}

/// Each stream is cut in one way.
pub fn one_cut()
    ensures some { (stream : List ℕ)
        → (items : List Item) × (ending : Ending) × IsStream stream items ending }
    ensures only { (stream : List ℕ) (items others : List Item) (ending other : Ending)
        → IsStream stream items ending → IsStream stream others other
        → (items ≡ others) × (ending ≡ other) }
{}

/// A fault stands with the byte that decides it, a packet with its last, and nothing that follows
/// changes what stands. Of a whole frame it is the refusal that the definition has.
pub fn moments()
    ensures first_byte { (b : ℕ) → head_of b ≡ None → first_of (b ∷ []) ≡ Err Malformed }
    ensures overlong { (b : ℕ) (head : Head) (len : List ℕ) → head_of b ≡ Some head
        → varint_at len ≡ Err Overlong → first_of (b ∷ len) ≡ Err Malformed }
    ensures too_large { (b n : ℕ) (head : Head) (len : List ℕ) → head_of b ≡ Some head
        → varint_at len ≡ Ok (n, []) → PACKET_LIMIT < 1 + length len + n
        → first_of (b ∷ len) ≡ Err TooLarge }
    ensures last_byte { (front : List ℕ) (packet : Packet) (n more : ℕ)
        → first_of front ≡ Ok (Some (packet, n)) → n ≤ more
        → first_of (take more front) ≡ Ok (Some (packet, n)) }
    ensures stays { (front more : List ℕ)
        → (first_of front ≡ Ok None) ⊎ (first_of (front ++ more) ≡ first_of front) }

    // A whole frame that spells no packet is refused for the reason that is due (4.13).
    ensures due { (front : List ℕ) (n : ℕ) (fault : Fault)
        → ((i : ℕ) → slice_index front i < 256) → size_at front ≡ Ok (Some n)
        → first_of front ≡ Err fault → Refusal fault (take n front) }
{}

/// However a stream comes, the bytes that were taken, and not given back, are those of the packets
/// given and then those held, and what the held bytes begin with ends the stream.
pub fn any_pieces()
    ensures cut { (calls : List Call) (f : Framing) → IsRun empty calls f
        → IsCut 0 (taken_of calls) (given_of calls) f.place f.held }
    ensures waits { (calls : List Call) (f : Framing)
        → IsRun empty calls f → first_of f.held ≡ Ok None
        → IsStream (taken_of calls) (given_of calls) (short_at f.place f.held) }
    ensures fault { (calls : List Call) (f : Framing) (fault : Fault) (more : List ℕ)
        → IsRun empty calls f → first_of f.held ≡ Err fault
        → IsStream (taken_of calls ++ more) (given_of calls) (fault_at f.place fault) }
{}
