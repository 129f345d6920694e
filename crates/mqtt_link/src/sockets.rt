//! What a call of a socket that doesn't wait gave (MQTT 5.0, 4.2).
ghost use Rattle.std.specs.Prelude.{◌≡◌, ◌≢◌, ◌⊎◌, ℕ, List, length, Ok, IfOk, IfErr};
ghost use Rattle.std.specs.Io.{ReadsAtMost, WritesAtMost};
ghost use Rattle.std.specs.IoError.{error_kind};
ghost use Rattle.mqtt_link.specs.Links.{GivesAtMost};

use crate::link::Got;
use std::io;
use std::io::ErrorKind;

/// What a call of a socket that didn't wait gave: nothing if it would have waited or was interrupted, the end if
/// it moved no byte. Takes no memory.
pub fn got(count: io::Result<usize>) -> Got<usize>
    ensures end { count ≡ Ok 0 → result ≡ Got.End }
    ensures gave { IfOk count (λ moved. moved ≢ 0 → result ≡ Got.Given moved) }
    ensures waits { IfErr count (λ fault. (error_kind fault ≡ ErrorKind.WouldBlock) ⊎ (error_kind fault ≡ ErrorKind.Interrupted)
        → result ≡ Got.Nothing) }
    ensures failed { IfErr count (λ fault. error_kind fault ≢ ErrorKind.WouldBlock → error_kind fault ≢ ErrorKind.Interrupted
        → result ≡ Got.Failure) }
    ensures wrote { (bytes : List ℕ) → WritesAtMost count bytes → GivesAtMost result (length bytes) }
    ensures read { (buffer : List ℕ) → ReadsAtMost count buffer → GivesAtMost result (length buffer) }
{
    match count {
        Ok(0) => Got::End,
        Ok(count) => Got::Given(count),
        Err(fault) => match fault.kind() {
            ErrorKind::WouldBlock | ErrorKind::Interrupted => Got::Nothing,
            _ => Got::Failure,
        },
    }
}
