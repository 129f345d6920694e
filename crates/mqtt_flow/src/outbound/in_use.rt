//! The packet identifiers that a session's outbound copies have (2.2.1).

ghost use Rattle.std.specs.Prelude.{◌≡◌, ◌≤◌, ℕ, List, ◌++◌, length, map, IfErr, OnOk};
ghost use Rattle.mqtt_flow.specs.inbound.Identifiers.{ids_without};
ghost use Rattle.mqtt_flow.specs.outbound.Queue.{also, identifiers};
ghost use Rattle.mqtt_flow.specs.outbound.Outbound.{freed};

use crate::inbound::FlowFault;
use crate::outbound::row::QueueView;
use mqtt_base::Phase;

/// Adds an identifier, if there is one.
fn push_identifier(used: &mut Vec<u16>, identifier: Option<u16>) -> Result<(), FlowFault>
    ensures exact { (rest : List ℕ) → OnOk result (used.new.items ++ rest ≡ used.old.items ++ also identifier rest) }
    ensures fault { IfErr result (λ fault. fault ≡ FlowFault.Memory) }
{
    match identifier {
        None => Ok(()),
        Some(identifier) => used.push(identifier).map_err(|_| FlowFault::Memory),
    }
}

/// Adds the identifiers in use.
pub(crate) fn push_identifiers<V: QueueView>(
    used: &mut Vec<u16>,
    rows: &[V::Row],
) -> Result<(), FlowFault>
    ensures exact { (view : V) → OnOk result (used.new.items ≡ used.old.items ++ identifiers (map (V.entry view) rows.now)) }
    ensures fault { IfErr result (λ fault. fault ≡ FlowFault.Memory) }
{
    for row in rows {
        push_identifier(used, V::phase(row).identifier())?;
    }
    Ok(())
}

/// Closes an identifier.
fn close(used: &mut Vec<u16>, identifier: u16)
    ensures items { used.new.items ≡ ids_without identifier used.old.items }
    ensures len { length used.new.items ≤ length used.old.items }
{
    used.retain(|other| *other != identifier);
}

/// Frees the identifier of a copy that leaves.
pub(crate) fn free(used: &mut Vec<u16>, phase: Phase)
    ensures items { used.new.items ≡ freed phase used.old.items }
    ensures len { length used.new.items ≤ length used.old.items }
{
    match phase {
        Phase::Waiting => {}
        Phase::Sent { identifier } => close(used, identifier),
        Phase::Released { identifier, .. } => close(used, identifier),
        Phase::Oversize { identifier, .. } => close(used, identifier),
    }
}
