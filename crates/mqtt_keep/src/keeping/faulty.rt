//! A store for tests, whose device fails once.
ghost use Rattle.std.specs.Prelude.{◌≡◌, ◌≢◌, false, IfOk, IsTrue, Some};
ghost use Rattle.mqtt_records.specs.state.Records.{nothing};

use crate::keeping::keep::{Keep, KeepError};
use crate::keeping::loading::slim_if_lawful;
use mqtt_records::{Change, CopyContent, Records, clone_all, contents_in};
use std::alloc::{AllocError, Global};
use std::marker::Model;

/// What a failing call of `apply` leaves.
#[derive(Clone, Copy, Debug, PartialEq, Eq)]
pub enum Failure {
    /// The records before the call.
    BeforeChanges,
    /// The records after it.
    AfterChanges,
}

/// A store in memory of which some call of `apply` answers Disk. For tests.
#[derive(Drop)]
pub struct FaultyKeep {
    records: Records,
    alloc: Global,
    /// How many calls of `apply` are made before the one that fails; none: no further call fails.
    until: Option<u64>,
    failure: Failure,
    failures: u64,
    /// How often it was asked for contents, modulo 2^64.
    reads: u64,
}

impl Model for FaultyKeep {
    ghost use Rattle.mqtt_keep.specs.keeping.Faulty.{Faulty};

    ghost Value = { Faulty };

    ghost view = { λ a. record {
      records = a.records;
      until = a.until;
      failure = a.failure;
      failures = a.failures;
      reads = a.reads;
    } };
}

impl FaultyKeep {
    /// A store that has nothing yet. `until` calls of `apply` are made, the next fails, later ones
    /// are made again.
    pub fn new(alloc: Global, until: u64, failure: Failure) -> Result<FaultyKeep, AllocError>
        ensures records { IfOk result (λ keep. keep.records ≡ nothing) }
        ensures until { IfOk result (λ keep. keep.until ≡ Some until) }
        ensures failure { IfOk result (λ keep. keep.failure ≡ failure) }
    {
        Ok(FaultyKeep {
            records: Records::new(alloc)?,
            alloc,
            until: Some(until),
            failure,
            failures: 0,
            reads: 0,
        })
    }

    /// Whether this call fails; counts it, or the failure.
    fn fails(&mut self) -> bool
        ensures same { self.new.records ≡ self.old.records }
        ensures reads { self.new.reads ≡ self.old.reads }
        ensures counted { IsTrue result → self.new.failures ≢ self.old.failures }
        ensures uncounted { result ≡ false → self.new.failures ≡ self.old.failures }
    {
        match self.until {
            Some(0) => {
                self.until = None;
                self.failures = self.failures.wrapping_add(1);
                true
            }
            Some(until) => {
                self.until = Some(until - 1);
                false
            }
            None => false,
        }
    }
}

impl Keep for FaultyKeep {
    ghost use Rattle.std.specs.Prelude.{◌≡◌, ◌⊎◌};
    ghost use Rattle.std.proofs.Common.{◌∙◌, ap};
    ghost use Rattle.mqtt_keep.specs.declared.keeping.keep.KeepError.TheVariants.{Memory, Corrupt};
    ghost use Rattle.mqtt_keep.specs.lawful.Lawful.{IsLawful};
    ghost use Rattle.mqtt_records.specs.state.Telling.{told_by, filling_in};

    ghost holds = { λ keep r. keep.records ≡ r };

    ghost is_loaded = { λ _. Unit {0} };

    ghost is_sound = { λ _. Unit {0} };

    ghost leaves = { λ keep left. left ≡ keep.records };

    ghost counted = { λ keep. keep.failures };

    ghost refuses = { λ keep fault. (fault ≡ Memory)
        ⊎ ((fault ≡ Corrupt) × (IsLawful keep.records → ⊥)) };

    ghost fillings = { λ keep. told_by keep.records };

    ghost read_so_far = { λ keep. keep.reads };

    fn load(&mut self, alloc: Global) -> Result<Records, KeepError> {
        slim_if_lawful(alloc, self.records.clone()?)
    }

    fn apply(&mut self, changes: &[Change]) -> Result<(), KeepError> {
        let changes = clone_all(self.alloc, changes)?;
        if !self.fails() {
            self.records.change_all(changes);
            return Ok(());
        }
        match self.failure {
            Failure::BeforeChanges => {}
            Failure::AfterChanges => self.records.change_all(changes),
        }
        Err(KeepError::Disk)
    }

    fn contents(
        &mut self,
        alloc: Global,
        birth: u64,
        place: u64,
        limit: u32,
    ) -> Result<Vec<CopyContent>, KeepError> {
        self.reads = self.reads.wrapping_add(1);
        Ok(contents_in(alloc, &self.records, birth, place, limit)?)
    }

    fn failures(&self) -> u64 {
        self.failures
    }

    fn reads(&self) -> u64 {
        self.reads
    }

    ghost leaves_held = { λ keep left r settled has found. found ∙ has };

    ghost tells = { λ keep r sound loaded has birth place e found.
        ap (λ r. told_by r birth place) has ∙ ap filling_in found };
}
