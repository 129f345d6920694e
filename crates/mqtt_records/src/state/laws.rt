//! Laws of records, in other words than their definitions.
ghost use Rattle.std.specs.Prelude.{◌≡◌, ◌≢◌, ◌≤◌, ℕ, None, List, []};
ghost use Rattle.mqtt_records.specs.lists.Order.{row_at};
ghost use Rattle.mqtt_records.specs.state.Session.{birth_of};
ghost use Rattle.mqtt_records.specs.declared.state.records.Records.{Records};
ghost use Rattle.mqtt_records.specs.declared.state.change.Change.{Change};
ghost use Rattle.mqtt_records.specs.declared.state.change.Counter.{Counter};
ghost use Rattle.mqtt_records.specs.state.Records.{changed, changed_all, counter_of, FitAll};

/// With a session all its rows are gone, and nothing else is (4.1).
pub fn ended_session_leaves_nothing()
    ensures gone { (birth : ℕ) (r : Records)
        → row_at birth_of birth (changed (Change.RemoveSession birth) r).sessions ≡ None }
    ensures others { (birth other : ℕ) (r : Records)
        → birth ≢ other
        → row_at birth_of other (changed (Change.RemoveSession birth) r).sessions
        ≡ row_at birth_of other r.sessions }
    ensures retained { (birth : ℕ) (r : Records)
        → (changed (Change.RemoveSession birth) r).retained ≡ r.retained }
{}

/// No changes fit any records, and change nothing; changes that fit let no number fall.
pub fn numbers_never_fall()
    ensures none { (r : Records) → FitAll [] r × (changed_all [] r ≡ r) }
    ensures some { (counter : Counter) (changes : List Change) (r : Records)
        → FitAll changes r
        → counter_of counter r ≤ counter_of counter (changed_all changes r) }
{}
