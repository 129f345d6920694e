//! A store that may have what isn't written yet (4.1).
ghost use Rattle.std.specs.Prelude.{◌≡◌, ◌≢◌, ◌⊎◌, OnOk, IfErr, IsErrOf};
ghost use Rattle.mqtt_records.specs.declared.state.records.Records.{Records};

use crate::keeping::faulty::FaultyKeep;
use crate::keeping::keep::{Keep, KeepError};
use crate::keeping::memory::MemKeep;

/// A store that can be asked to write what it has and isn't written yet.
pub trait Settles: Keep {
    /// Writes what waits to be written. Its records stay. `Memory` (1): nothing changed. `Disk` (2), `Size` (3).
    fn settle(&mut self) -> Result<(), KeepError>
        requires { Self.is_loaded self.old }
        ensures ok { OnOk result (Self.is_settled self.new) }
        ensures loaded { OnOk result (Self.is_loaded self.new) }
        ensures same { (r : Records) → Self.holds self.old r → OnOk result (Self.holds self.new r) }
        ensures memory { IsErrOf result KeepError.Memory ⊎ IsErrOf result KeepError.Size
            → Self.is_loaded self.new × ((r : Records) → Self.holds self.old r → Self.holds self.new r) }

        // A crash leaves what it left before, or what it has.
        ensures crash { (r left : Records) → Self.holds self.old r → Self.leaves self.new left → Self.leaves self.old left ⊎ (left ≡ r) }
        ensures sound { Self.is_sound self.new → Self.is_sound self.old }
        ensures refused { IfErr result (λ fault. (fault ≡ KeepError.Memory) ⊎ ((fault ≡ KeepError.Disk) ⊎ (fault ≡ KeepError.Size))) }
        ensures cause { IsErrOf result KeepError.Disk ⊎ IsErrOf result KeepError.Size
            → Self.counted self.new ≢ Self.counted self.old }
        ensures uncounted { (IsErrOf result KeepError.Disk → ⊥) → (IsErrOf result KeepError.Size → ⊥)
            → Self.counted self.new ≡ Self.counted self.old }
        ensures reads { Self.read_so_far self.new ≡ Self.read_so_far self.old };
}

impl Settles for MemKeep {
    fn settle(&mut self) -> Result<(), KeepError> {
        Ok(())
    }
}

impl Settles for FaultyKeep {
    fn settle(&mut self) -> Result<(), KeepError> {
        Ok(())
    }
}
