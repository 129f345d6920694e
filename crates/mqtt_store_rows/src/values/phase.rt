//! The columns of a copy that tell its identity and its phase (4.3, 4.8).
ghost use Rattle.std.specs.Prelude.{◌≡◌, ◌≢◌, ◌<◌, ◌⊎◌, [], MatchOption, MatchBool, IfOk, IfErr, IsErrOf};
ghost use Rattle.sqlite_value.specs.Value.{owned};
ghost use Rattle.sqlite_value.specs.declared.value.Value.TheVariants as sql;
ghost use Rattle.mqtt_base.specs.declared.session.Phase.{Phase};
ghost use Rattle.mqtt_base.specs.declared.session.Cause.{Cause};
ghost use Rattle.mqtt_base.specs.declared.session.CopyId.{CopyId};
ghost use Rattle.mqtt_store_rows.specs.values.Values.{number};
ghost use Rattle.mqtt_store_rows.specs.values.Rows.{SaysCause, SaysId, SaysPhase};

use crate::values::value::{counted, is_null, is_number, packet_identifier, text, value_at, whole};
use mqtt_base::{Cause, CopyId, Phase, Qos};
use mqtt_keep::KeepError;
use sqlite::Row;
use sqlite::types::ValueRef;
use std::alloc::Global;

/// The phase of a released copy: 2 or 3.
fn released(qos: Qos, pid: ValueRef<'_>, phase: u64, rel: ValueRef<'_>) -> Option<Phase>
    requires { 1 < phase }
    ensures { MatchOption result
        ((p : Phase) → SaysPhase qos p (owned pid.entry) (number phase) (owned rel.entry) → ⊥)
        (λ p. SaysPhase qos p (owned pid.entry) (number phase) (owned rel.entry)) }
{
    let Qos::ExactlyOnce = qos else {
        return None;
    };
    let identifier = packet_identifier(pid)?;
    let order = counted(rel)?;
    match phase {
        2 => Some(Phase::Released { identifier, order }),
        3 => Some(Phase::Oversize { identifier, order }),
        _ => None,
    }
}

/// The phase that three columns say of a copy of that QoS.
pub fn phase_of(
    qos: Qos,
    pid: ValueRef<'_>,
    phase: ValueRef<'_>,
    rel: ValueRef<'_>,
) -> Option<Phase>
    ensures { MatchOption result
        ((p : Phase) → SaysPhase qos p (owned pid.entry) (owned phase.entry) (owned rel.entry) → ⊥)
        (λ p. SaysPhase qos p (owned pid.entry) (owned phase.entry) (owned rel.entry)) }
{
    match whole(phase)? {
        0 => {
            if is_null(pid) && is_null(rel) {
                Some(Phase::Waiting)
            } else {
                None
            }
        }
        1 => {
            let identifier = packet_identifier(pid)?;
            if is_null(rel) {
                Some(Phase::Sent { identifier })
            } else {
                None
            }
        }
        phase => released(qos, pid, phase, rel),
    }
}

/// Whether it is the empty text.
fn is_empty_text(value: ValueRef<'_>) -> bool
    ensures { MatchBool result (owned value.entry ≡ sql.Text []) (owned value.entry ≢ sql.Text []) }
{
    match value {
        ValueRef::Text(bytes) => bytes.is_empty(),
        _ => false,
    }
}

/// The cause that three columns say.
fn cause_of(
    alloc: Global,
    cause: ValueRef<'_>,
    group: ValueRef<'_>,
    subscribe: ValueRef<'_>,
) -> Result<Cause, KeepError>
    ensures ok { IfOk result
        (λ c. SaysCause c (owned cause.entry) (owned group.entry) (owned subscribe.entry)) }
    ensures err { IsErrOf result KeepError.Corrupt → (c : Cause)
        → SaysCause c (owned cause.entry) (owned group.entry) (owned subscribe.entry) → ⊥ }
    ensures fault { IfErr result (λ e. (e ≡ KeepError.Memory) ⊎ (e ≡ KeepError.Corrupt)) }
{
    let Some(kind) = whole(cause) else {
        return Err(KeepError::Corrupt);
    };
    if kind == 1 {
        if !is_number(subscribe, 0) {
            return Err(KeepError::Corrupt);
        }
        let group = text(alloc, group)?;
        return Ok(Cause::Share { group });
    }
    if !is_empty_text(group) {
        return Err(KeepError::Corrupt);
    }
    if kind == 0 && is_number(subscribe, 0) {
        return Ok(Cause::Direct);
    }
    match counted(subscribe) {
        Some(subscribe) if kind == 2 => Ok(Cause::Retained { subscribe }),
        _ => Err(KeepError::Corrupt),
    }
}

/// What tells the copy of a row from all others.
pub fn id_of(alloc: Global, row: &Row) -> Result<CopyId, KeepError>
    ensures ok { IfOk result (λ id. SaysId id row.now) }
    ensures err { IsErrOf result KeepError.Corrupt → (id : CopyId) → SaysId id row.now → ⊥ }
    ensures fault { IfErr result (λ e. (e ≡ KeepError.Memory) ⊎ (e ≡ KeepError.Corrupt)) }
{
    let Some(birth) = counted(value_at(row, 0)) else {
        return Err(KeepError::Corrupt);
    };
    let Some(publication) = counted(value_at(row, 2)) else {
        return Err(KeepError::Corrupt);
    };
    match cause_of(alloc, value_at(row, 3), value_at(row, 4), value_at(row, 5)) {
        Ok(cause) => Ok(CopyId {
            publication,
            birth,
            cause,
        }),
        Err(fault) => Err(fault),
    }
}
