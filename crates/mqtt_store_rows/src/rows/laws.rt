//! The laws of what rows of schema 2 give (4.1).
ghost use Rattle.std.specs.Prelude.{◌≡◌, ◌≤◌, List, length};
ghost use Rattle.std.specs.List.{AllByRecursion};
ghost use Rattle.mqtt_records.specs.declared.state.records.Records.{Records};
ghost use Rattle.mqtt_records.specs.lists.Order.{IsAscending};
ghost use Rattle.mqtt_records.specs.state.Contents.{StoredMessage};
ghost use Rattle.mqtt_store_rows.specs.values.Gives.{AreWithin};
ghost use Rattle.mqtt_store_rows.specs.declared.rows.message.TheConstants.{MESSAGE_LIMIT};
ghost use Rattle.mqtt_store_rows.specs.rows.Joins.{publication_of};
ghost use Rattle.mqtt_store_rows.specs.rows.Gives.{Rows, IsReferred, Gives};

/// Rows give the records of one store, and of no other.
pub fn rows_give_one()
    ensures { (rows : Rows) (r s : Records)
        → Gives rows r → AreWithin r → Gives rows s → AreWithin s → r ≡ s }
{}

/// Messages by their numbers, to each of which something in the records refers, are no more than
/// there may be.
pub fn messages_are_few()
    ensures { (r : Records) (messages : List StoredMessage)
        → AreWithin r → IsAscending publication_of messages
        → AllByRecursion (IsReferred r) messages → length messages ≤ MESSAGE_LIMIT }
{}
