//! The laws of what a store in SQL has (4.1).
ghost use Rattle.std.specs.Prelude.{◌≡◌, ◌⊎◌};
ghost use Rattle.sqlite.specs.Held.{Held, state};
ghost use Rattle.sqlite_trees.specs.declared.memory.MemStore.{MemStore as InMemory};
ghost use Rattle.mqtt_records.specs.declared.state.records.Records.{Records};
ghost use Rattle.mqtt_store_database.specs.loading.Loading.{HasKept, OnlyLoads};
ghost use Rattle.mqtt_store.specs.Holding.{Holds, Leaves, OnlySteps};
ghost use Rattle.mqtt_store.specs.declared.keep.SqlKeep.{SqlKeep as TheKeep};

use crate::keep::SqlKeep;
use mqtt_keep::Keep;
use sqlite::{Alter, MemStore};
use sqlite_trees::store::Store;

/// A store whose rows are those of records between two transactions has these, whatever a crash may
/// leave.
pub fn loaded_store_has<S: Alter>()
    ensures { (conn : Held S) (r : Records)
        → HasKept (state S.Store conn) r → Holds (state S.Store conn) r }
{}

/// What a store has stays through a load: a load commits what it finds at the most.
pub fn load_keeps_what_it_has<S: Alter>()
    ensures { (old new : Held S) (r : Records)
        → OnlyLoads (state S.Store old) (state S.Store new)
        → Holds (state S.Store old) r → Holds (state S.Store new) r }
{}

/// After a load a crash leaves what it left before, and nothing else.
pub fn load_leaves_no_more<S: Alter>()
    ensures { (old new : Held S) (r : Records)
        → OnlyLoads (state S.Store old) (state S.Store new)
        → Leaves (state S.Store new) r → Leaves (state S.Store old) r }
{}

/// After a step, whatever became of it, a crash leaves the records before it or those after it.
pub fn step_leaves_one_of_two<S: Alter>()
    ensures { (old new : Held S) (r after left : Records)
        → OnlySteps (state S.Store old) (state S.Store new) after
        → Holds (state S.Store old) r → Leaves (state S.Store new) left → (left ≡ r) ⊎ (left ≡ after) }
{}

/// A crash leaves what a store has.
pub fn crash_leaves_what_it_has<S: Alter>()
    ensures { (conn : Held S) (left r : Records)
        → Holds (state S.Store conn) r → Leaves (state S.Store conn) left → left ≡ r }
{}

/// A store over a database in memory is sound, whatever was done with it: that its device has so far returned what was written is
/// no premise there.
pub fn store_in_memory_is_sound()
    ensures { (keep : TheKeep InMemory ⟦<MemStore as Store>⟧) → ⟦<SqlKeep<MemStore> as Keep>⟧.is_sound keep }
{}
