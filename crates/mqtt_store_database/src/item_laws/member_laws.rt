//! In which rows records stand before and after a change (4.1).
ghost use Rattle.std.specs.Prelude.{◌≡◌, ◌⊎◌, ℕ};
ghost use Rattle.mqtt_base.specs.declared.session.Phase.{Phase};
ghost use Rattle.mqtt_records.specs.messages.Queue.{CopyRow};
ghost use Rattle.mqtt_records.specs.declared.state.records.Records.{Records};
ghost use Rattle.mqtt_records.specs.declared.state.change.Change.TheVariants.{PutCopy, SetCopy, RemoveCopy, RemoveSession};
ghost use Rattle.mqtt_records.specs.state.Session.{in_phase};
ghost use Rattle.mqtt_records.specs.state.Records.{changed, Fits};
ghost use Rattle.mqtt_records.specs.state.Members.{InQueue};
ghost use Rattle.mqtt_store_database.specs.item_laws.Members.{IsKept, IsOther, AllOrdered, SameRows};

/// A copy that is put stands in its place, and every other copy as before.
pub fn copy_is_put()
    ensures new { (birth : ℕ) (entry : CopyRow) (r : Records) (b : ℕ) (x : CopyRow)
        → IsKept r → Fits (PutCopy birth entry) r → InQueue (changed (PutCopy birth entry) r) b x
        → ((b ≡ birth) × (x ≡ entry)) ⊎ (InQueue r b x × IsOther b x birth entry.place) }
    ensures old { (birth : ℕ) (entry : CopyRow) (r : Records) (b : ℕ) (x : CopyRow)
        → IsKept r → Fits (PutCopy birth entry) r
        → ((b ≡ birth) × (x ≡ entry)) ⊎ (InQueue r b x × IsOther b x birth entry.place)
        → InQueue (changed (PutCopy birth entry) r) b x }
{}

/// A copy that is set has its phase, and every other copy stands as before.
pub fn copy_is_set()
    ensures new { (birth place : ℕ) (phase : Phase) (r : Records) (b : ℕ) (x : CopyRow)
        → IsKept r → InQueue (changed (SetCopy birth place phase) r) b x
        → ((y : CopyRow) × (b ≡ birth) × (y.place ≡ place) × InQueue r b y × (x ≡ in_phase phase y))
        ⊎ (InQueue r b x × IsOther b x birth place) }
    ensures old { (birth place : ℕ) (phase : Phase) (r : Records) (b : ℕ) (x : CopyRow)
        → IsKept r
        → ((y : CopyRow) × (b ≡ birth) × (y.place ≡ place) × InQueue r b y × (x ≡ in_phase phase y))
        ⊎ (InQueue r b x × IsOther b x birth place)
        → InQueue (changed (SetCopy birth place phase) r) b x }
{}

/// A copy that is removed is gone, and every other copy stands as before.
pub fn copy_is_removed()
    ensures new { (birth place : ℕ) (r : Records) (b : ℕ) (x : CopyRow)
        → IsKept r → InQueue (changed (RemoveCopy birth place) r) b x
        → InQueue r b x × IsOther b x birth place }
    ensures old { (birth place : ℕ) (r : Records) (b : ℕ) (x : CopyRow)
        → IsKept r → InQueue r b x × IsOther b x birth place
        → InQueue (changed (RemoveCopy birth place) r) b x }
{}

/// With a session its copies are gone, and all others stand.
pub fn session_is_removed()
    ensures new { (birth : ℕ) (r : Records) (b : ℕ) (x : CopyRow)
        → InQueue (changed (RemoveSession birth) r) b x → InQueue r b x × (b ≡ birth → ⊥) }
    ensures old { (birth : ℕ) (r : Records) (b : ℕ) (x : CopyRow)
        → InQueue r b x × (b ≡ birth → ⊥) → InQueue (changed (RemoveSession birth) r) b x }
{}

/// Rows determine the sessions that they are of.
pub fn rows_determine_sessions()
    ensures { (q r : Records) → AllOrdered q → AllOrdered r → SameRows q r → q.sessions ≡ r.sessions }
{}
