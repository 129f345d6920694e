//! The store in memory.
ghost use Rattle.std.specs.Prelude.{◌≡◌, IfOk, OnOk, OnErr};
ghost use Rattle.mqtt_records.specs.state.Records.{nothing, changed_all};

use crate::keeping::keep::{Keep, KeepError};
use crate::keeping::loading::slim_if_lawful;
use mqtt_records::{Change, CopyContent, Records, clone_all, contents_in};
use std::alloc::{AllocError, Global};
use std::marker::Model;

/// A store in memory: it has its records as long as it lives. It refuses for want of memory, and a load of records that
/// break their rules.
#[derive(Drop)]
pub struct MemKeep {
    records: Records,
    alloc: Global,
    /// How often it was asked for contents, modulo 2^64.
    reads: u64,
}

impl Model for MemKeep {
    ghost use Rattle.mqtt_keep.specs.keeping.InMemory.{InMemory};

    ghost Value = { InMemory };

    ghost view = { λ a. record { records = a.records; reads = a.reads } };
}

impl MemKeep {
    /// A store that has nothing yet.
    pub fn new(alloc: Global) -> Result<MemKeep, AllocError>
        ensures { IfOk result (λ keep. keep ≡ record { records = nothing; reads = 0 }) }
    {
        let records = Records::new(alloc)?;
        Ok(MemKeep::with(alloc, records))
    }

    /// A store that has these records. Takes no memory.
    pub fn with(alloc: Global, records: Records) -> MemKeep
        ensures { result ≡ record { records = records; reads = 0 } }
    {
        MemKeep {
            records,
            alloc,
            reads: 0,
        }
    }

    /// Makes all changes, in order, or none for want of memory.
    pub fn change_all(&mut self, changes: &[Change]) -> Result<(), AllocError>
        ensures ok { OnOk result (self.new
            ≡ record self.old { records = changed_all changes.now self.old.records }) }
        ensures err { OnErr result (self.new ≡ self.old) }
    {
        let changes = clone_all(self.alloc, changes)?;
        self.records.change_all(changes);
        Ok(())
    }
}

impl Keep for MemKeep {
    ghost use Rattle.std.specs.Prelude.{◌≡◌, ◌⊎◌};
    ghost use Rattle.std.proofs.Common.{◌∙◌, ap};
    ghost use Rattle.mqtt_keep.specs.declared.keeping.keep.KeepError.TheVariants.{Memory, Corrupt};
    ghost use Rattle.mqtt_keep.specs.lawful.Lawful.{IsLawful};
    ghost use Rattle.mqtt_records.specs.state.Telling.{told_by, filling_in};

    ghost holds = { λ keep r. keep.records ≡ r };

    ghost is_loaded = { λ _. Unit {0} };

    ghost is_sound = { λ _. Unit {0} };

    ghost leaves = { λ keep left. left ≡ keep.records };

    ghost counted = { λ _. 0 };

    ghost refuses = { λ keep fault. (fault ≡ Memory)
        ⊎ ((fault ≡ Corrupt) × (IsLawful keep.records → ⊥)) };

    ghost fillings = { λ keep. told_by keep.records };

    ghost read_so_far = { λ keep. keep.reads };

    fn load(&mut self, alloc: Global) -> Result<Records, KeepError> {
        slim_if_lawful(alloc, self.records.clone()?)
    }

    fn apply(&mut self, changes: &[Change]) -> Result<(), KeepError> {
        Ok(self.change_all(changes)?)
    }

    fn contents(
        &mut self,
        alloc: Global,
        birth: u64,
        place: u64,
        limit: u32,
    ) -> Result<Vec<CopyContent>, KeepError> {
        self.reads = self.reads.wrapping_add(1);
        Ok(contents_in(alloc, &self.records, birth, place, limit)?)
    }

    fn failures(&self) -> u64 {
        0
    }

    fn reads(&self) -> u64 {
        self.reads
    }

    ghost leaves_held = { λ keep left r settled has found. found ∙ has };

    ghost tells = { λ keep r sound loaded has birth place e found.
        ap (λ r. told_by r birth place) has ∙ ap filling_in found };
}
