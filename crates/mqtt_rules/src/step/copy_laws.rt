//! Laws of what is sent of a stored copy (3.3).
ghost use Rattle.std.specs.Prelude.{◌≡◌, ℕ, Bool, false};
ghost use Rattle.mqtt_records.specs.messages.Queue.{publish_size};
ghost use Rattle.mqtt_records.specs.declared.messages.message.MessageCopy.{MessageCopy};
ghost use Rattle.mqtt_rules.specs.step.Packets.{publish_of, size_of};

/// A copy's PUBLISH has as many bytes whenever it is sent, with whichever flag and packet identifier: the
/// ones that are kept with the copy, which Maximum Packet Size is held against (3.1.2.11.4).
pub fn copies_keep_their_size()
    ensures size { (copy : MessageCopy) (now id : ℕ) (dup : Bool)
        → size_of (publish_of now dup id copy) ≡ publish_size copy }
    ensures first { (copy : MessageCopy)
        → publish_size copy ≡ size_of (publish_of copy.content.arrived false 1 copy) }
{}
