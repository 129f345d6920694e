//! A store in memory of which some calls fail.
ghost use Rattle.std.specs.Prelude.{◌≡◌};

use mqtt_keep::{Keep, KeepError, MemKeep, Settles};
use mqtt_records::{Change, CopyContent, Records};
use std::alloc::{AllocError, Global};

/// What a call that fails lacks.
#[derive(Clone, Copy, Debug, PartialEq, Eq)]
pub(crate) enum Lack {
    /// Memory: it answers Memory.
    Memory,
    /// Room on its device: it answers Size, and counts a failure.
    Room,
}

/// A store in memory of which some calls of `apply` fail, one behind the other, and change nothing.
#[derive(Drop)]
pub(crate) struct FailingKeep {
    keep: MemKeep,
    /// How many calls are made before the first that fails.
    made: u64,
    /// How many fail then; later ones are made.
    failing: u64,
    lack: Lack,
    failures: u64,
}

impl FailingKeep {
    /// A store that has nothing yet. So many calls of `apply` are made, the next so many fail, and later ones are made.
    pub(crate) fn new(
        alloc: Global,
        made: u64,
        failing: u64,
        lack: Lack,
    ) -> Result<FailingKeep, AllocError> {
        Ok(FailingKeep {
            keep: MemKeep::new(alloc)?,
            made,
            failing,
            lack,
            failures: 0,
        })
    }

    /// Whether this call is made. Each is counted.
    fn is_made(&mut self) -> bool
        ensures same { self.new.keep ≡ self.old.keep }
        ensures uncounted { self.new.failures ≡ self.old.failures }
    {
        if self.made > 0 {
            self.made -= 1;
            return true;
        }
        if self.failing > 0 {
            self.failing -= 1;
            return false;
        }
        true
    }
}

impl Keep for FailingKeep {
    ghost use Rattle.std.specs.Prelude.{◌≡◌};
    ghost use Rattle.std.proofs.Common.{◌∙◌, ap};
    ghost use Rattle.mqtt_records.specs.state.Telling.{told_by, filling_in};

    ghost holds = { λ store r. store.keep.records ≡ r };

    ghost is_loaded = { λ _. Unit {0} };

    ghost is_sound = { λ _. Unit {0} };

    ghost leaves = { λ store left. left ≡ store.keep.records };

    ghost counted = { λ store. store.failures };

    ghost refuses = { λ _ _. Unit {0} };

    ghost fillings = { λ store. told_by store.keep.records };

    ghost read_so_far = { λ store. store.keep.reads };

    fn load(&mut self, alloc: Global) -> Result<Records, KeepError> {
        self.keep.load(alloc)
    }

    fn apply(&mut self, changes: &[Change]) -> Result<(), KeepError> {
        if self.is_made() {
            return self.keep.apply(changes);
        }
        match self.lack {
            Lack::Memory => Err(KeepError::Memory),
            Lack::Room => {
                self.failures = self.failures.wrapping_add(1);
                Err(KeepError::Size)
            }
        }
    }

    fn contents(
        &mut self,
        alloc: Global,
        birth: u64,
        place: u64,
        limit: u32,
    ) -> Result<Vec<CopyContent>, KeepError> {
        self.keep.contents(alloc, birth, place, limit)
    }

    fn failures(&self) -> u64 {
        self.failures
    }

    fn reads(&self) -> u64 {
        self.keep.reads()
    }

    ghost leaves_held = { λ store left r settled has found. found ∙ has };

    ghost tells = { λ store r sound loaded has birth place e found.
        ap (λ r. told_by r birth place) has ∙ ap filling_in found };
}

impl Settles for FailingKeep {
    fn settle(&mut self) -> Result<(), KeepError> {
        Ok(())
    }
}
