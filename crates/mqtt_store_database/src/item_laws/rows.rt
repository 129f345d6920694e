//! The sessions' own rows and the retained messages before and after a change (4.1).
ghost use Rattle.std.specs.Prelude.{◌≡◌, ◌≢◌, ◌⊎◌, ℕ};
ghost use Rattle.mqtt_records.specs.declared.messages.message.RetainedMessage.{RetainedMessage};
ghost use Rattle.mqtt_records.specs.declared.state.session.Columns.{Columns};
ghost use Rattle.mqtt_records.specs.declared.state.records.Records.{Records};
ghost use Rattle.mqtt_records.specs.declared.state.change.Change.TheVariants.{PutSession, SetSession, RemoveSession, PutRetained, RemoveRetained};
ghost use Rattle.mqtt_records.specs.state.Session.{birth_of};
ghost use Rattle.mqtt_records.specs.state.Records.{changed, Fits, kept_place};
ghost use Rattle.mqtt_records.specs.lists.Order.{IsAscending};
ghost use Rattle.mqtt_records.specs.state.Members.{Has};
ghost use Rattle.mqtt_store_database.specs.item_laws.Members.{HasColumns};

/// A session's own row that is put stands, and every other session's as before.
pub fn session_is_put()
    ensures new { (row c : Columns) (r : Records)
        → IsAscending birth_of r.sessions → Fits (PutSession row) r
        → HasColumns (changed (PutSession row) r) c
        → (c ≡ row) ⊎ (HasColumns r c × (c.birth ≡ row.birth → ⊥)) }
    ensures old { (row c : Columns) (r : Records)
        → IsAscending birth_of r.sessions → Fits (PutSession row) r
        → (c ≡ row) ⊎ (HasColumns r c × (c.birth ≡ row.birth → ⊥))
        → HasColumns (changed (PutSession row) r) c }
{}

/// A session's own row that is set stands, and every other session's as before.
pub fn session_is_set()
    ensures new { (row c : Columns) (r : Records)
        → IsAscending birth_of r.sessions → HasColumns (changed (SetSession row) r) c
        → (c ≡ row) ⊎ (HasColumns r c × (c.birth ≡ row.birth → ⊥)) }
    ensures old { (row c : Columns) (r : Records)
        → IsAscending birth_of r.sessions → Fits (SetSession row) r
        → (c ≡ row) ⊎ (HasColumns r c × (c.birth ≡ row.birth → ⊥))
        → HasColumns (changed (SetSession row) r) c }
{}

/// With a session its own row is gone, and every other session's stands.
pub fn columns_are_removed()
    ensures new { (birth : ℕ) (c : Columns) (r : Records)
        → HasColumns (changed (RemoveSession birth) r) c
        → HasColumns r c × (c.birth ≡ birth → ⊥) }
    ensures old { (birth : ℕ) (c : Columns) (r : Records)
        → HasColumns r c × (c.birth ≡ birth → ⊥)
        → HasColumns (changed (RemoveSession birth) r) c }
{}

/// A retained message that is put stands in its place, and every other as before.
pub fn retained_is_put()
    ensures new { (kept x : RetainedMessage) (r : Records)
        → IsAscending kept_place r.retained → Fits (PutRetained kept) r
        → Has (changed (PutRetained kept) r).retained x
        → (x ≡ kept) ⊎ (Has r.retained x × x.place ≢ kept.place) }
    ensures old { (kept x : RetainedMessage) (r : Records)
        → IsAscending kept_place r.retained → Fits (PutRetained kept) r
        → (x ≡ kept) ⊎ (Has r.retained x × x.place ≢ kept.place)
        → Has (changed (PutRetained kept) r).retained x }
{}

/// A retained message that is removed is gone, and every other stands as before.
pub fn retained_is_removed()
    ensures new { (place : ℕ) (x : RetainedMessage) (r : Records)
        → Has (changed (RemoveRetained place) r).retained x
        → Has r.retained x × x.place ≢ place }
    ensures old { (place : ℕ) (x : RetainedMessage) (r : Records)
        → Has r.retained x × x.place ≢ place
        → Has (changed (RemoveRetained place) r).retained x }
{}
