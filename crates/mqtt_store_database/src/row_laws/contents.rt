//! What copies and retained messages say alike, and the messages that stand after sweeps.
ghost use Rattle.std.specs.Prelude.{◌⊎◌, ℕ, List};
ghost use Rattle.sqlite_trees.specs.Tree.{Trees};
ghost use Rattle.mqtt_records.specs.declared.state.records.Records.{Records};
ghost use Rattle.mqtt_records.specs.state.Members.{Has};
ghost use Rattle.mqtt_records.specs.state.Contents.{StoredMessage, IsMessageOf, AgreesWith, SharesContents};
ghost use Rattle.mqtt_store_tables.specs.declared.schema.tables.Making.{Making};
ghost use Rattle.mqtt_store_tables.specs.statements.Content.{IsShapedAt};
ghost use Rattle.mqtt_store_tables.specs.messages.Places.{message_tree, queued_tree, kept_tree};
ghost use Rattle.mqtt_store_database.specs.item_laws.Written.{AreWritten, AreSayable, IsCopyOf};
ghost use Rattle.mqtt_store_database.specs.row_laws.Items.{IsMessageRow, IsQueuedRow, IsKeptRow};
ghost use Rattle.mqtt_store_database.specs.row_laws.Messages.{EitherSays};
ghost use Rattle.mqtt_store_database.specs.row_laws.Steps.{SweepsEach, DropsLast};

/// Messages of one number have one row, so what is kept shares contents.
pub fn rows_share_contents()
    ensures { (making : Making) (db : Trees) (r : Records)
        → AreSayable r → IsShapedAt db (message_tree making)
        → AreWritten IsMessageRow (IsMessageOf r) (db (message_tree making)) → SharesContents r }
{}

/// If messages stand of what was said and of what is said, and each number that is said no more
/// is swept, those of what is said stand.
pub fn sweeps_leave_messages()
    ensures { (making : Making) (numbers : List ℕ) (q r : Records) (old new : Trees)
        → ((m : StoredMessage) → IsMessageOf q m → AgreesWith r m)
        → ((m : StoredMessage) → IsMessageOf q m → IsMessageOf r m ⊎ Has numbers m.publication)
        → AreWritten IsMessageRow (EitherSays q r) (old (message_tree making))
        → AreWritten IsQueuedRow (IsCopyOf r) (old (queued_tree making))
        → AreWritten IsKeptRow (Has r.retained) (old (kept_tree making))
        → SweepsEach making numbers old new
        → AreWritten IsMessageRow (IsMessageOf r) (new (message_tree making)) }
{}

/// So they do if exactly those messages go to which something referred before, and nothing does
/// now.
pub fn dropped_messages_leave_messages()
    ensures { (making : Making) (q r : Records) (old mid new : Trees)
        → ((m : StoredMessage) → IsMessageOf q m → AgreesWith r m)
        → AreWritten IsQueuedRow (IsCopyOf q) (old (queued_tree making))
        → AreWritten IsKeptRow (Has q.retained) (old (kept_tree making))
        → AreWritten IsMessageRow (EitherSays q r) (mid (message_tree making))
        → AreWritten IsQueuedRow (IsCopyOf r) (mid (queued_tree making))
        → AreWritten IsKeptRow (Has r.retained) (mid (kept_tree making))
        → DropsLast making old mid new
        → AreWritten IsMessageRow (IsMessageOf r) (new (message_tree making)) }
{}
