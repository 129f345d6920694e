//! Laws of the sizes of packets (3.1.2.11.4).
ghost use Rattle.mqtt_records.specs.messages.Queue.{publish_size};
ghost use Rattle.mqtt_records.specs.declared.messages.message.MessageCopy.{MessageCopy};
ghost use Rattle.mqtt_broker_looks.specs.sent.Frames.{IsSizeOf};

/// What a row of a queue remembers as the size of its copy's PUBLISH is the size at each moment, with
/// DUP or without, under each identifier.
pub fn sizes_stay()
    ensures { (copy : MessageCopy) → IsSizeOf copy (publish_size copy) }
{}
