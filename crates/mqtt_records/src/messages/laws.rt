//! Laws of slim rows, in other words than their definitions (3.3, 4.6).
ghost use Rattle.std.specs.Prelude.{◌≡◌, length};
ghost use Rattle.mqtt_props.specs.declared.table.PropName.TheVariants.{MessageExpiryInterval};
ghost use Rattle.mqtt_records.specs.messages.Content.{CopyContent};
ghost use Rattle.mqtt_records.specs.declared.messages.message.MessageCopy.{MessageCopy};
ghost use Rattle.mqtt_records.specs.messages.Filling.{filled_with, filling_of, said_by, HasBytesOf};
ghost use Rattle.mqtt_records.specs.messages.PassedOn.{number_at, IsPassedOn};
ghost use Rattle.mqtt_records.specs.messages.Queue.{publish_size, CopyRow, IsSpelled};
ghost use Rattle.mqtt_records.specs.messages.Slim.{slim, slim_copy};

/// A slim row of a copy has a PUBLISH of the same size, and the same Message Expiry Interval; its
/// properties are such as publications pass on. A slim row stays what it is.
pub fn slim_rows_are_as_long()
    ensures spelled { (copy : MessageCopy) → IsSpelled copy → IsSpelled (slim_copy copy) }
    ensures size { (copy : MessageCopy) → publish_size (slim_copy copy) ≡ publish_size copy }
    ensures interval { (copy : MessageCopy)
        → number_at MessageExpiryInterval (slim_copy copy).content.properties
        ≡ number_at MessageExpiryInterval copy.content.properties }
    ensures passed { (copy : MessageCopy) → IsPassedOn (slim_copy copy).content.properties }
    ensures once { (e : CopyRow) → slim (slim e) ≡ slim e }
{}

/// What a copy said fits its slim row, and makes it the whole row again. Whatever fits a row, it is the
/// same slim row with it as without it.
pub fn slim_rows_are_filled_again()
    ensures fits { (e : CopyRow) (said : CopyContent)
        → said_by said ≡ filling_of e.copy → IsSpelled e.copy → HasBytesOf (slim e).copy said }
    ensures whole { (e : CopyRow) (said : CopyContent)
        → said_by said ≡ filling_of e.copy → filled_with said (slim e) ≡ e }
    ensures again { (e : CopyRow) (said : CopyContent)
        → HasBytesOf e.copy said → slim (filled_with said e) ≡ slim e }
{}
