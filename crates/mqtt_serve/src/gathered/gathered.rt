//! A store that gathers changes until it is settled (4.1).
ghost use Rattle.std.specs.Prelude.{◌≡◌, ◌≢◌, ◌⊎◌, ◌↔◌, ◌+◌, length, IfErr, IsTrue, OnErr, OnOk};
ghost use Rattle.mqtt_records.specs.declared.state.records.Records.{Records as TheRecords};
ghost use Rattle.mqtt_serve.specs.gathered.Counting.{sets_of};
ghost use Rattle.mqtt_serve.specs.gathered.Gathering.{Holding, NothingWaits};

use super::counts::Counts;
use super::joins::join_last_all;
use super::rows::push_rows;
use mqtt_keep::{Keep, KeepError, Settles};
use mqtt_link::Commit;
use mqtt_records::{Change, CopyContent, Records};
use std::alloc::Global;

/// The most changes that wait to be written, counters that were set among them (ours).
pub const GATHERED_LIMIT: usize = 10_000;

/// A store, and the changes that it wasn't told yet. A crash leaves what the store has without them until it is settled.
#[derive(Drop)]
pub struct Gathered<K: Settles> {
    alloc: Global,
    keep: K,
    /// Changes of rows, in order.
    changes: Vec<Change>,
    /// The counters that were set: each is written once, whatever the number of steps.
    counts: Counts,
    /// The most that waits: once there is more, it is written.
    limit: usize,
    /// How often it was asked for contents, modulo 2^64.
    reads: u64,
}

impl<K: Settles> Gathered<K> {
    /// In front of a store, with nothing gathered. With `Commit::Step` the changes of each step are written at once, with
    /// `Commit::Turn` when it is settled, or once more than 10,000 wait. Takes no memory.
    pub fn new(alloc: Global, keep: K, commit: Commit) -> Gathered<K>
        ensures keep { result.keep ≡ keep }
        ensures nothing { NothingWaits result.changes.items result.counts }
    {
        Gathered {
            alloc,
            keep,
            changes: Vec::new(alloc),
            counts: Counts::new(),
            limit: match commit {
                Commit::Turn => GATHERED_LIMIT,
                Commit::Step => 0,
            },
            reads: 0,
        }
    }

    /// The store. Changes that were not written are gone.
    pub fn into_inner(self) -> K
        ensures { result ≡ self.keep }
    {
        self.keep
    }

    /// How many changes wait to be written, one for each counter that was set among them.
    fn waiting(&self) -> usize
        ensures { result ≡ length self.now.changes.items + length (sets_of self.now.counts) }
    {
        self.changes.len() + self.counts.len()
    }

    /// Whether nothing waits to be written.
    fn is_empty(&self) -> bool
        ensures { IsTrue result ↔ NothingWaits self.now.changes.items self.now.counts }
    {
        self.changes.is_empty() && self.counts.is_empty()
    }
}

/// What a store that can't be settled is to who asks for contents: a full device has failed, too.
fn unread(error: KeepError) -> KeepError
    ensures memory { error ≡ KeepError.Memory → result ≡ KeepError.Memory }
    ensures disk { error ≡ KeepError.Disk → result ≡ KeepError.Disk }
    ensures size { error ≡ KeepError.Size → result ≡ KeepError.Disk }
{
    match error {
        KeepError::Memory => KeepError::Memory,
        _ => KeepError::Disk,
    }
}

impl<K: Settles> Keep for Gathered<K> {
    ghost use Rattle.std.specs.Prelude.{◌≡◌, ◌⊎◌};
    ghost use Rattle.mqtt_keep.specs.declared.keeping.keep.KeepError.TheVariants.{Memory};
    ghost use Rattle.mqtt_serve.specs.gathered.Gathering.{Holding, NothingWaits, settled_leaves};
    ghost use Rattle.mqtt_serve.specs.gathered.Telling.{told_after_all, gathered_tells};

    ghost holds = { λ g r. Holding K.holds g.keep g.changes.items g.counts r };

    ghost is_loaded = { λ g. K.is_loaded g.keep };

    ghost is_sound = { λ g. K.is_sound g.keep };

    ghost leaves = { λ g left. K.leaves g.keep left };

    ghost is_settled = { λ g. K.is_settled g.keep × NothingWaits g.changes.items g.counts };

    ghost counted = { λ g. K.counted g.keep };

    // A load is refused where changes wait to be written.
    ghost refuses = { λ g fault. K.refuses g.keep fault ⊎ ((fault ≡ Memory) × ¬ NothingWaits g.changes.items g.counts) };

    ghost fillings = { λ g. told_after_all g.changes.items (K.fillings g.keep) };

    ghost read_so_far = { λ g. g.reads };

    #[tactic(auto, using(crate::proofs::gathered_lemmas::Gathers::emptied))]
    fn load(&mut self, alloc: Global) -> Result<Records, KeepError> {
        if !self.is_empty() {
            return Err(KeepError::Memory);
        }
        self.keep.load(alloc)
    }

    fn apply(&mut self, changes: &[Change]) -> Result<(), KeepError> {
        push_rows(&mut self.changes, changes)?;
        join_last_all(&mut self.changes, changes.len());
        self.counts.set_all(changes);
        if self.waiting() > self.limit {
            return self.settle_long();
        }
        Ok(())
    }

    fn contents(
        &mut self,
        alloc: Global,
        birth: u64,
        place: u64,
        limit: u32,
    ) -> Result<Vec<CopyContent>, KeepError> {
        self.reads = self.reads.wrapping_add(1);
        match self.settle() {
            Ok(()) => self.keep.contents(alloc, birth, place, limit),
            Err(error) => Err(unread(error)),
        }
    }

    fn failures(&self) -> u64 {
        self.keep.failures()
    }

    fn reads(&self) -> u64 {
        self.reads
    }

    ghost leaves_held = { λ g left r settled has found. settled_leaves K.holds K.is_settled K.leaves K.leaves_held g.keep g.changes.items g.counts left r settled has found };

    ghost tells = { λ g r sound loaded has. gathered_tells K.holds g.keep (K.fillings g.keep) g.changes.items g.counts r (λ start holds. K.tells g.keep start sound loaded holds) has };
}

impl<K: Settles> Gathered<K> {
    /// Writes what waits, if memory is there; else it waits on. `Disk` (2) alone refuses.
    fn settle_long(&mut self) -> Result<(), KeepError>
        requires { K.is_loaded self.old.keep }
        ensures ok { (r : TheRecords) → Holding K.holds self.old.keep self.old.changes.items self.old.counts r
            → OnOk result (Holding K.holds self.new.keep self.new.changes.items self.new.counts r) }
        ensures loaded { OnOk result (K.is_loaded self.new.keep) }
        ensures crash { (r left : TheRecords) → Holding K.holds self.old.keep self.old.changes.items self.old.counts r
            → K.leaves self.new.keep left → K.leaves self.old.keep left ⊎ (left ≡ r) }
        ensures sound { K.is_sound self.new.keep → K.is_sound self.old.keep }
        ensures refused { IfErr result (λ fault. fault ≡ KeepError.Disk) }
        ensures cause { OnErr result (K.counted self.new.keep ≢ K.counted self.old.keep) }
        ensures uncounted { OnOk result (K.counted self.new.keep ≡ K.counted self.old.keep) }
        ensures reads { self.new.reads ≡ self.old.reads }
    {
        match self.settle() {
            Ok(()) | Err(KeepError::Memory) => Ok(()),
            Err(_) => Err(KeepError::Disk),
        }
    }
}

impl<K: Settles> Settles for Gathered<K> {
    #[tactic(auto, using(crate::proofs::gathered_lemmas::Gathers::emptied))]
    fn settle(&mut self) -> Result<(), KeepError> {
        if self.is_empty() {
            return self.keep.settle();
        }
        self.counts.move_behind(self.alloc, &mut self.changes)?;
        self.keep.apply(&self.changes)?;
        self.changes.clear();
        self.keep.settle()
    }
}
