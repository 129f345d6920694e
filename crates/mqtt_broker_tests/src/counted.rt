//! A store of which one call fails, whichever call it is.
ghost use Rattle.std.specs.Prelude.{◌≡◌, ◌≢◌, ◌⊎◌};

use mqtt_keep::{Keep, KeepError, MemKeep};
use mqtt_records::{Change, CopyContent, Records};
use std::alloc::{AllocError, Global};

/// How a call of a store fails.
#[derive(Clone, Copy, PartialEq, Eq)]
pub(crate) enum Failing {
    /// The device fails before the changes are made.
    Before,
    /// The device fails after they were made.
    After,
    /// Memory is wanting, and nothing changes.
    Memory,
}

/// What a store is asked for.
#[derive(Clone, Copy, PartialEq, Eq)]
pub(crate) enum Ask {
    /// All rows.
    Load,
    /// Changes.
    Apply,
    /// What copies say.
    Contents,
}

/// Whose turn it is to fail.
#[derive(Clone, Copy)]
struct Turns {
    /// How many calls are made before the one that fails; none: no further call fails.
    until: Option<u64>,
    failing: Failing,
    /// What the call was that failed.
    failed: Option<Ask>,
    /// Whether the device has failed, and the store was not loaded since.
    is_broken: bool,
    failures: u64,
    /// How often it was called.
    calls: u64,
}

impl Turns {
    /// Whether this call fails; counts it.
    fn fails(&mut self, ask: Ask) -> bool
        ensures { self.new.failures ≡ self.old.failures }
    {
        self.calls = self.calls.wrapping_add(1);
        if self.is_broken && ask != Ask::Load {
            return true;
        }
        match self.until {
            Some(0) => {
                self.until = None;
                self.failed = Some(ask);
                true
            }
            Some(until) => {
                self.until = Some(until - 1);
                false
            }
            None => false,
        }
    }

    /// The device fails; counts the failure.
    fn fail(&mut self) -> KeepError
        ensures disk { result ≡ KeepError.Disk }
        ensures counted { self.new.failures ≢ self.old.failures }
    {
        self.is_broken = true;
        self.failures = self.failures.wrapping_add(1);
        KeepError::Disk
    }

    /// A call that only reads fails.
    fn fail_reading(&mut self) -> KeepError
        ensures cause { result ≡ KeepError.Disk → self.new.failures ≢ self.old.failures }
        ensures fault { (result ≡ KeepError.Memory) ⊎ (result ≡ KeepError.Disk) }
    {
        match self.failing {
            Failing::Before | Failing::After => self.fail(),
            Failing::Memory => KeepError::Memory,
        }
    }
}

/// A store in memory that counts its calls, and of which one fails. Once its device has failed it has to be loaded anew: what
/// else it is asked for before fails too, and is counted.
#[derive(Drop)]
pub(crate) struct CountedKeep {
    keep: MemKeep,
    turns: Turns,
    /// How often it was asked for contents, modulo 2^64.
    reads: u64,
}

impl CountedKeep {
    /// A store that has nothing yet. `until` calls are made, the next fails, later ones are made again.
    pub(crate) fn new(
        alloc: Global,
        until: u64,
        failing: Failing,
    ) -> Result<CountedKeep, AllocError> {
        Ok(CountedKeep {
            keep: MemKeep::new(alloc)?,
            turns: Turns {
                until: Some(until),
                failing,
                failed: None,
                is_broken: false,
                failures: 0,
                calls: 0,
            },
            reads: 0,
        })
    }

    /// What the call was that failed, if one did.
    pub(crate) fn failed(&self) -> Option<Ask> {
        self.turns.failed
    }

    /// How often it was called.
    pub(crate) fn calls(&self) -> u64 {
        self.turns.calls
    }
}

impl Keep for CountedKeep {
    ghost use Rattle.std.specs.Prelude.{◌≡◌};
    ghost use Rattle.std.proofs.Common.{◌∙◌, ap};
    ghost use Rattle.mqtt_records.specs.state.Telling.{told_by, filling_in};

    ghost holds = { λ store r. store.keep.records ≡ r };

    ghost is_loaded = { λ _. Unit {0} };

    ghost is_sound = { λ _. Unit {0} };

    ghost leaves = { λ store left. left ≡ store.keep.records };

    ghost counted = { λ store. store.turns.failures };

    ghost refuses = { λ _ _. Unit {0} };

    ghost fillings = { λ store. told_by store.keep.records };

    ghost read_so_far = { λ store. store.reads };

    fn load(&mut self, alloc: Global) -> Result<Records, KeepError> {
        if self.turns.fails(Ask::Load) {
            return Err(self.turns.fail_reading());
        }
        self.turns.is_broken = false;
        self.keep.load(alloc)
    }

    fn apply(&mut self, changes: &[Change]) -> Result<(), KeepError> {
        if !self.turns.fails(Ask::Apply) {
            return self.keep.apply(changes);
        }
        match self.turns.failing {
            Failing::Before => Err(self.turns.fail()),
            Failing::After => match self.keep.apply(changes) {
                Ok(()) => Err(self.turns.fail()),
                Err(fault) => Err(fault),
            },
            Failing::Memory => Err(KeepError::Memory),
        }
    }

    fn contents(
        &mut self,
        alloc: Global,
        birth: u64,
        place: u64,
        limit: u32,
    ) -> Result<Vec<CopyContent>, KeepError> {
        self.reads = self.reads.wrapping_add(1);
        if self.turns.fails(Ask::Contents) {
            return Err(self.turns.fail_reading());
        }
        self.keep.contents(alloc, birth, place, limit)
    }

    fn failures(&self) -> u64 {
        self.turns.failures
    }

    fn reads(&self) -> u64 {
        self.reads
    }

    ghost leaves_held = { λ store left r settled has found. found ∙ has };

    ghost tells = { λ store r sound loaded has birth place e found.
        ap (λ r. told_by r birth place) has ∙ ap filling_in found };
}
