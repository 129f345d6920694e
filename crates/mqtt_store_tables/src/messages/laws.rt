//! What stays true of messages, whatever changes.
ghost use Rattle.std.specs.Prelude.{ℕ, Some};
ghost use Rattle.sqlite_trees.specs.Tree.{Trees};
ghost use Rattle.mqtt_store_tables.specs.declared.schema.tables.Making.{Making};
ghost use Rattle.mqtt_store_tables.specs.statements.Content.{IsShapedAt};
ghost use Rattle.mqtt_store_tables.specs.messages.Places.{message_tree, queued_tree};
ghost use Rattle.mqtt_store_tables.specs.messages.Rows.{MessageColumns, QueuedColumns};
ghost use Rattle.mqtt_store_tables.specs.messages.Messages.{StandsIf};
ghost use Rattle.mqtt_store_tables.specs.messages.Letting.{AllReferred};
ghost use Rattle.mqtt_store_tables.specs.messages.Step.{Does};
ghost use Rattle.mqtt_store_tables.specs.declared.messages.change.TableChange.{TableChange as Change};
ghost use Rattle.mqtt_store_tables.specs.declared.messages.change.TableChange.TheVariants.{PutCopy};

/// If a copy or a retained message refers to each message, then so after each change.
pub fn no_message_is_left_over()
    ensures { (making : Making) (change : Change) (old new : Trees)
        → IsShapedAt old (queued_tree making) → AllReferred making old
        → Does making change old new → AllReferred making new }
{}

/// A copy that was put refers to its message, so that stands.
pub fn message_of_a_copy_stands()
    ensures { (making : Making) (birth place : ℕ) (message : MessageColumns) (copy : QueuedColumns) (old new : Trees)
        → IsShapedAt old (message_tree making) → Does making (PutCopy birth place message copy) old new
        → StandsIf making (Some copy.publication) new }
{}
