//! What the statements that both schemas have make of the rows that are kept.
ghost use Rattle.std.specs.Prelude.{◌≡◌, ℕ, ℤ, pos, ◌∷◌, List};
ghost use Rattle.sqlite_value.specs.declared.value.Value.TheVariants.{Int};
ghost use Rattle.sqlite_trees.specs.Tree.{Trees};
ghost use Rattle.sqlite_rules.specs.Lists.{Has};
ghost use Rattle.mqtt_records.specs.declared.messages.message.Will.{Will};
ghost use Rattle.mqtt_records.specs.declared.state.change.Change.TheVariants.{SetCounter, PutSession, SetSession, PutWill, RemoveWill, PutSubscription, RemoveSubscription, PutInbound, RemoveInbound};
ghost use Rattle.mqtt_records.specs.declared.state.change.Counter.{Counter};
ghost use Rattle.mqtt_records.specs.declared.state.records.Records.{Records};
ghost use Rattle.mqtt_records.specs.declared.state.session.Columns.{Columns};
ghost use Rattle.mqtt_records.specs.declared.state.subscription.Subscription.{Subscription};
ghost use Rattle.mqtt_records.specs.state.Records.{changed, Fits};
ghost use Rattle.mqtt_store_tables.specs.declared.schema.tables.Making.{Making};
ghost use Rattle.mqtt_store_tables.specs.statements.Columns.{session_row, will_row, subscription_row};
ghost use Rattle.mqtt_store_tables.specs.statements.Content.{is_of};
ghost use Rattle.mqtt_store_tables.specs.statements.Layout.{second_layout};
ghost use Rattle.mqtt_store_tables.specs.statements.Numbers.{number_row, SetsNumber};
ghost use Rattle.mqtt_store_tables.specs.statements.Put.{PutsInto, PutsNumbered, open_row};
ghost use Rattle.mqtt_store_tables.specs.statements.Removal.{is_keyed, is_subscription, RemovesFrom};
ghost use Rattle.mqtt_store_database.specs.item_laws.Items.{session_columns, will_columns, subscription_columns};
ghost use Rattle.mqtt_store_database.specs.item_laws.Counters.{counter_name};
ghost use Rattle.mqtt_store_database.specs.item_laws.Written.{IsSayableWill, IsSayableSubscription};
ghost use Rattle.mqtt_store_database.specs.row_laws.Written.{KeepsRowsTwo, AreInOrderTwo};

/// A number that is set is the records' after it.
pub fn number_that_is_set_keeps_rows()
    ensures rows { (making : Making) (counter : Counter) (value n : ℕ) (id : ℤ) (db next : Trees)
        (r : Records)
        → KeepsRowsTwo making db r → AreInOrderTwo making db
        → Has (db 0) (Int id ∷ number_row (counter_name counter) n)
        → SetsNumber (second_layout making) (counter_name counter) value id db next
        → KeepsRowsTwo making next (changed (SetCounter counter value) r) }
    ensures order { (making : Making) (counter : Counter) (value n : ℕ) (id : ℤ) (db next : Trees)
        (r : Records)
        → KeepsRowsTwo making db r → AreInOrderTwo making db
        → Has (db 0) (Int id ∷ number_row (counter_name counter) n)
        → SetsNumber (second_layout making) (counter_name counter) value id db next
        → AreInOrderTwo making next }
{}

/// A session's own row that is put or set is the records' after it.
pub fn session_that_is_put_keeps_rows()
    ensures put { (making : Making) (row : Columns) (db next : Trees) (r : Records)
        → KeepsRowsTwo making db r → AreInOrderTwo making db → Fits (PutSession row) r
        → PutsInto (second_layout making) 2 (session_row row.birth (session_columns row)) (is_of 0 (pos row.birth)) db next
        → KeepsRowsTwo making next (changed (PutSession row) r) }
    ensures set { (making : Making) (row : Columns) (db next : Trees) (r : Records)
        → KeepsRowsTwo making db r → AreInOrderTwo making db → Fits (SetSession row) r
        → PutsInto (second_layout making) 2 (session_row row.birth (session_columns row)) (is_of 0 (pos row.birth)) db next
        → KeepsRowsTwo making next (changed (SetSession row) r) }
    ensures order { (making : Making) (row : Columns) (db next : Trees) (r : Records)
        → KeepsRowsTwo making db r → AreInOrderTwo making db
        → PutsInto (second_layout making) 2 (session_row row.birth (session_columns row)) (is_of 0 (pos row.birth)) db next
        → AreInOrderTwo making next }
{}

/// A session's Will that is put is the records' after it.
pub fn will_that_is_put_keeps_rows()
    ensures rows { (making : Making) (birth : ℕ) (will : Will) (db next : Trees) (r : Records)
        → KeepsRowsTwo making db r → AreInOrderTwo making db → Fits (PutWill birth will) r
        → IsSayableWill will
        → PutsInto (second_layout making) 4 (will_row birth (will_columns will)) (is_of 0 (pos birth)) db next
        → KeepsRowsTwo making next (changed (PutWill birth will) r) }
    ensures order { (making : Making) (birth : ℕ) (will : Will) (db next : Trees) (r : Records)
        → KeepsRowsTwo making db r → AreInOrderTwo making db
        → PutsInto (second_layout making) 4 (will_row birth (will_columns will)) (is_of 0 (pos birth)) db next
        → AreInOrderTwo making next }
{}

/// With a Will that is removed the rows are those of the records after it.
pub fn will_that_is_removed_keeps_rows()
    ensures rows { (making : Making) (birth : ℕ) (db next : Trees) (r : Records)
        → KeepsRowsTwo making db r → AreInOrderTwo making db
        → RemovesFrom (second_layout making) 4 (is_of 0 (pos birth)) db next
        → KeepsRowsTwo making next (changed (RemoveWill birth) r) }
    ensures order { (making : Making) (birth : ℕ) (db next : Trees) (r : Records)
        → KeepsRowsTwo making db r → AreInOrderTwo making db
        → RemovesFrom (second_layout making) 4 (is_of 0 (pos birth)) db next
        → AreInOrderTwo making next }
{}

/// A subscription that is put is the records' after it.
pub fn subscription_that_is_put_keeps_rows()
    ensures rows { (making : Making) (birth : ℕ) (put : Subscription) (db next : Trees) (r : Records)
        → KeepsRowsTwo making db r → AreInOrderTwo making db → Fits (PutSubscription birth put) r
        → IsSayableSubscription put
        → PutsNumbered (second_layout making) 5 (subscription_row birth put.filter (subscription_columns put)) (is_subscription (pos birth) put.filter) db next
        → KeepsRowsTwo making next (changed (PutSubscription birth put) r) }
    ensures order { (making : Making) (birth : ℕ) (put : Subscription) (db next : Trees) (r : Records)
        → KeepsRowsTwo making db r → AreInOrderTwo making db
        → PutsNumbered (second_layout making) 5 (subscription_row birth put.filter (subscription_columns put)) (is_subscription (pos birth) put.filter) db next
        → AreInOrderTwo making next }
{}

/// With a subscription that is removed the rows are those of the records after it.
pub fn subscription_that_is_removed_keeps_rows()
    ensures rows { (making : Making) (birth : ℕ) (text : List ℕ) (db next : Trees) (r : Records)
        → KeepsRowsTwo making db r → AreInOrderTwo making db
        → RemovesFrom (second_layout making) 5 (is_subscription (pos birth) text) db next
        → KeepsRowsTwo making next (changed (RemoveSubscription birth text) r) }
    ensures order { (making : Making) (birth : ℕ) (text : List ℕ) (db next : Trees) (r : Records)
        → KeepsRowsTwo making db r → AreInOrderTwo making db
        → RemovesFrom (second_layout making) 5 (is_subscription (pos birth) text) db next
        → AreInOrderTwo making next }
{}

/// An identifier that is opened is the records' after it.
pub fn identifier_that_is_put_keeps_rows()
    ensures rows { (making : Making) (birth n : ℕ) (db next : Trees) (r : Records)
        → KeepsRowsTwo making db r → AreInOrderTwo making db → Fits (PutInbound birth n) r
        → PutsNumbered (second_layout making) 7 (open_row birth n) (is_keyed (pos birth) (pos n)) db next
        → KeepsRowsTwo making next (changed (PutInbound birth n) r) }
    ensures order { (making : Making) (birth n : ℕ) (db next : Trees) (r : Records)
        → KeepsRowsTwo making db r → AreInOrderTwo making db
        → PutsNumbered (second_layout making) 7 (open_row birth n) (is_keyed (pos birth) (pos n)) db next
        → AreInOrderTwo making next }
{}

/// With an identifier that is closed the rows are those of the records after it.
pub fn identifier_that_is_removed_keeps_rows()
    ensures rows { (making : Making) (birth n : ℕ) (db next : Trees) (r : Records)
        → KeepsRowsTwo making db r → AreInOrderTwo making db
        → RemovesFrom (second_layout making) 7 (is_keyed (pos birth) (pos n)) db next
        → KeepsRowsTwo making next (changed (RemoveInbound birth n) r) }
    ensures order { (making : Making) (birth n : ℕ) (db next : Trees) (r : Records)
        → KeepsRowsTwo making db r → AreInOrderTwo making db
        → RemovesFrom (second_layout making) 7 (is_keyed (pos birth) (pos n)) db next
        → AreInOrderTwo making next }
{}
