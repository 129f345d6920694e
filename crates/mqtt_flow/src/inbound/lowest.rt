//! The lowest packet identifier that isn't in use (2.2.1).

ghost use Rattle.std.specs.Prelude.{◌≡◌, ℕ, ◌+◌, ◌<◌, ◌||◌, false, length, get_or, IfOk, IfErr};
ghost use Rattle.mqtt_flow.specs.inbound.Identifiers.{free_identifier, is_among};

use crate::inbound::fault::FlowFault;
use std::alloc::Global;

/// Sets the flag of each identifier in use, as far as the flags go.
fn mark_used(flags: &mut [bool], used: &[u16])
    ensures len { length flags.new ≡ length flags.old }
    ensures marked { (i : ℕ) → i < length flags.old →
        get_or flags.new i false ≡ (get_or flags.old i false || is_among i used.now) }
{
    for identifier in used {
        let index = usize::from(*identifier);
        if index < flags.len() {
            flags[index] = true;
        }
    }
}

/// The lowest identifier whose flag isn't set.
fn first_unset(flags: &[bool], used: &[u16]) -> u16
    requires few { length used.now < 65534 }
    requires long { length flags.now ≡ length used.now + 2 }
    requires marked { (i : ℕ) → i < length flags.now → get_or flags.now i false ≡ is_among i used.now }
    ensures { result ≡ free_identifier used.now }
{
    let mut identifier = 1;
    for _tried in 0..used.len() {
        if !flags[usize::from(identifier)] {
            return identifier;
        }
        identifier += 1;
    }
    identifier
}

/// The lowest identifier that isn't used (2.2.1).
pub fn lowest_free(alloc: Global, used: &[u16]) -> Result<u16, FlowFault>
    requires { length used.now < 65534 }
    ensures exact { IfOk result (λ identifier. identifier ≡ free_identifier used.now) }
    ensures fault { IfErr result (λ fault. fault ≡ FlowFault.Memory) }
{
    let mut flags = vec![in alloc; false; used.len() + 2].map_err(|_| FlowFault::Memory)?;
    mark_used(&mut flags, used);
    Ok(first_unset(&flags, used))
}
