//! What any store of records promises, whatever it is made of (4.1).
ghost use Rattle.std.specs.Prelude.{◌≡◌, ◌≢◌, ◌⊎◌, ◌+◌, ◌%◌, ◌^◌, ℕ, IfOk, IfErr, OnOk, IsErrOf};
ghost use Rattle.mqtt_records.specs.messages.Filling.{Fillings};
ghost use Rattle.mqtt_records.specs.declared.state.records.Records.{Records};
ghost use Rattle.mqtt_keep.specs.declared.keeping.keep.KeepError.{KeepError};
ghost use Rattle.mqtt_keep.specs.declared.keeping.keep.KeepError.TheVariants.{Memory};
ghost use Rattle.mqtt_records.specs.state.Records.{changed_all, FitAll};
ghost use Rattle.mqtt_records.specs.state.Saying.{AllSayable};
ghost use Rattle.mqtt_records.specs.state.Contents.{FitContents};
ghost use Rattle.mqtt_records.specs.state.Telling.{AreTold, contents_from};
ghost use Rattle.mqtt_keep.specs.keeping.Loading.{AreRead};

use mqtt_records::{Change, CopyContent, Records};
use std::alloc::{AllocError, Global};
use thiserror::Error;

/// Why a store didn't do what was asked.
#[derive(Clone, Copy, Debug, PartialEq, Eq, Error)]
pub enum KeepError {
    /// 1: want of memory. Nothing changed.
    #[error("want of memory")]
    Memory = 1,
    /// 2: the device failed. The records are those before or those after: open the store again.
    #[error("the device failed")]
    Disk = 2,
    /// 3: a value or a row is larger than the store takes. Nothing changed.
    #[error("larger than the store takes")]
    Size = 3,
    /// 4: at `load`, what is kept breaks its own rules.
    #[error("the records break their rules")]
    Corrupt = 4,
    /// 5: at `load`, what is kept isn't of a form that this store reads.
    #[error("the records are of another schema")]
    Schema = 5,
}

impl From<AllocError> for KeepError {
    ghost from_gives = { λ _ fault. fault ≡ Memory };

    fn from(_: AllocError) -> Self {
        KeepError::Memory
    }
}

/// A store of records.
pub trait Keep: Drop {
    // It has these records. Of a store whose device lied this says nothing.
    ghost holds: { Self → Records → Type 0 };

    // A load has answered Ok, and changes can be applied.
    ghost is_loaded: { Self → Type 0 };

    // So far its device has returned what was written.
    ghost is_sound: { Self → Type 0 };

    // What is opened after a crash at this moment may have these records.
    ghost leaves: { Self → Records → Type 0 };

    // Nothing that it has waits to be written, so that a crash leaves what it has. A store that writes all at once is always so.
    ghost is_settled: { Self → Type 0 } = { λ _. Unit {0} };

    // How many failures of its device it has counted, modulo 2^64.
    ghost counted: { Self → ℕ };

    // While its device is sound, a load may be refused so.
    ghost refuses: { Self → KeepError → Type 0 };

    // What it tells for each place of each session's queue, by the session's birth. Where no copy stands it may be any.
    ghost fillings: { Self → Fillings };

    // How often it was asked for contents, modulo 2^64.
    ghost read_so_far: { Self → ℕ };

    /// Reads all rows, slim: of a waiting copy they say nothing but its topic and what rules read. What a copy says is read
    /// by `contents`. Changes can be applied once it has answered Ok.
    fn load(&mut self, alloc: Global) -> Result<Records, KeepError>
        // Whatever its device returned, they are of whole records that a store may be opened with.
        ensures read { IfOk result (AreRead (holds self.old) (leaves self.old) (holds self.new)
            (is_sound self.new)) }
        ensures loaded { OnOk result (is_loaded self.new) }

        // What it has stays, and a crash finds nothing else than before.
        ensures same { (r : Records) → holds self.old r → holds self.new r }
        ensures crash { (r : Records) → leaves self.new r → leaves self.old r }
        ensures sound { is_sound self.new → is_sound self.old }

        // Of a device that lied nothing is said: its rows may break any rule.
        ensures refused { IfErr result (λ fault. is_sound self.new → refuses self.old fault) }
        ensures cause { IsErrOf result KeepError.Disk ⊎ IsErrOf result KeepError.Size
            → counted self.new ≢ counted self.old }
        ensures reads { read_so_far self.new ≡ read_so_far self.old };

    /// Makes all changes, in order, or none. They have to fit what it has, be such as rows can say, and say what is said
    /// under a publication's number.
    fn apply(&mut self, changes: &[Change]) -> Result<(), KeepError>
        requires { is_loaded self.old }
        ensures ok { (r : Records) → holds self.old r → FitAll changes.now r
            → AllSayable changes.now → FitContents changes.now r
            → OnOk result (holds self.new (changed_all changes.now r)) }
        ensures loaded { OnOk result (is_loaded self.new) }

        // Memory and Size leave the records before.
        ensures same { IsErrOf result KeepError.Memory ⊎ IsErrOf result KeepError.Size
            → is_loaded self.new
            × ((r : Records) → holds self.old r → FitAll changes.now r → AllSayable changes.now
            → FitContents changes.now r → holds self.new r) }

        // A crash leaves what it left before, or the records after, never some of the changes.
        ensures crash { (r left : Records) → holds self.old r → FitAll changes.now r
            → AllSayable changes.now → FitContents changes.now r → leaves self.new left
            → leaves self.old left ⊎ (left ≡ changed_all changes.now r) }
        ensures sound { is_sound self.new → is_sound self.old }

        ensures refused { (IsErrOf result KeepError.Corrupt → ⊥)
            × (IsErrOf result KeepError.Schema → ⊥) }
        ensures cause { IsErrOf result KeepError.Disk ⊎ IsErrOf result KeepError.Size
            → counted self.new ≢ counted self.old }
        ensures uncounted { (IsErrOf result KeepError.Disk → ⊥) → (IsErrOf result KeepError.Size → ⊥)
            → counted self.new ≡ counted self.old }
        ensures reads { read_so_far self.new ≡ read_so_far self.old };

    /// What the first copies of a session say from a place on, at most so many, in the order of the queue (3.3); nothing
    /// of a session that isn't there.
    fn contents(
        &mut self,
        alloc: Global,
        birth: u64,
        place: u64,
        limit: u32,
    ) -> Result<Vec<CopyContent>, KeepError>
        requires { is_loaded self.old }
        ensures exact { (r : Records) → holds self.old r
            → IfOk result (λ all. is_sound self.new → all.items ≡ contents_from birth place limit r) }

        // What it has stays, and a crash finds nothing else than before, or that.
        ensures same { (r : Records) → holds self.old r → OnOk result (holds self.new r) }
        ensures memory { (r : Records) → holds self.old r → IsErrOf result KeepError.Memory
            → is_loaded self.new × holds self.new r }
        ensures crash { (r left : Records) → holds self.old r → leaves self.new left → leaves self.old left ⊎ (left ≡ r) }
        ensures sound { is_sound self.new → is_sound self.old }
        ensures loaded { OnOk result (is_loaded self.new) }

        ensures refused { IfErr result (λ fault. (fault ≡ KeepError.Memory)
            ⊎ (fault ≡ KeepError.Disk)) }
        ensures read { read_so_far self.new ≡ (read_so_far self.old + 1) % 2 ^ 64 }
        ensures cause { IsErrOf result KeepError.Disk → counted self.new ≢ counted self.old }
        ensures uncounted { OnOk result (counted self.new ≡ counted self.old) };

    /// How many failures of its device it has counted, modulo 2^64. Takes no memory.
    fn failures(&self) -> u64
        ensures { result ≡ counted self.now };

    /// How often it was asked for contents, modulo 2^64. Takes no memory.
    fn reads(&self) -> u64
        ensures { result ≡ read_so_far self.now };

    // A crash leaves what a settled store has.
    ghost leaves_held: { (keep : Self) (left r : Records)
        → is_settled keep → holds keep r → leaves keep left → left ≡ r };

    // What a store has says what it tells: a copy is told by its place.
    ghost tells: { (keep : Self) (r : Records)
        → is_sound keep → is_loaded keep → holds keep r → AreTold (fillings keep) r };
}
