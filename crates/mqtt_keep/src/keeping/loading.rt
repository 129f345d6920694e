//! What a store answers a load with: slim rows, of records that a store may be opened with (3.3, 4.1).
ghost use Rattle.std.specs.Prelude.{◌≡◌, ◌⊎◌, IfOk, IfErr, OnOk, IsErrOf};
ghost use Rattle.mqtt_records.specs.state.PassedOn.{StoresPassedOn};
ghost use Rattle.mqtt_records.specs.state.Slim.{all_slim};
ghost use Rattle.mqtt_keep.specs.lawful.Lawful.{IsLawful};

use crate::keeping::keep::KeepError;
use crate::lawful::is_lawful;
use mqtt_records::{Records, records_pass_on};
use std::alloc::Global;

/// Records that a store may be opened with, whose waiting copies say nothing but their topics from then on. `Memory` (1);
/// `Corrupt` (4) if they break their rules.
pub fn slim_if_lawful(alloc: Global, mut records: Records) -> Result<Records, KeepError>
    ensures slim { IfOk result (λ slim. slim ≡ all_slim records) }
    ensures lawful { OnOk result (IsLawful records) }
    ensures passed { OnOk result (StoresPassedOn records) }
    ensures corrupt { IsErrOf result KeepError.Corrupt → IsLawful records → ⊥ }
    ensures refused { IfErr result (λ error. (error ≡ KeepError.Memory) ⊎ (error ≡ KeepError.Corrupt)) }
{
    match is_lawful(alloc, &records) {
        Ok(true) => {
            records_pass_on(&records);
            records.make_all_slim();
            Ok(records)
        }
        Ok(false) => {
            drop(records);
            Err(KeepError::Corrupt)
        }
        Err(_) => {
            drop(records);
            Err(KeepError::Memory)
        }
    }
}
