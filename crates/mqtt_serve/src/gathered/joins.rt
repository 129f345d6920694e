//! A copy that is put, and comes into a phase while it waits to be written, is put in that phase (4.1, 4.3).
ghost use Rattle.std.specs.Prelude.{◌≡◌, IfSome, IsTrue};
ghost use Rattle.mqtt_serve.specs.gathered.Joining.{IsPutAt, IsSentAt, Puts, StandFor, put_in};
ghost use Rattle.mqtt_serve.specs.gathered.Joining.{is_apart as has_no_part};

use mqtt_base::Phase;
use mqtt_records::{Change, CopyPart, Editable};

/// How many changes are looked through for the one that puts a copy (ours).
const LOOK_BACK: usize = 256;

/// Whether it neither puts, sets nor removes the copy at a place of a session's queue, nor puts or removes a session.
fn is_apart(change: &Change, birth: u64, place: u64) -> bool
    ensures { result ≡ has_no_part birth place change.now }
{
    match change {
        Change::PutSession { .. } | Change::RemoveSession { .. } => false,
        Change::PutCopy { birth: owner, row } => !(*owner == birth && row.get().place() == place),
        Change::SetCopy {
            birth: owner,
            place: at,
            ..
        }
        | Change::RemoveCopy {
            birth: owner,
            place: at,
        } => !(*owner == birth && *at == place),
        _ => true,
    }
}

/// Whether it puts the copy at a place of a session's queue.
fn puts(change: &Change, birth: u64, place: u64) -> bool
    ensures { IsTrue result → Puts birth place change.now }
{
    match change {
        Change::PutCopy { birth: owner, row } => *owner == birth && row.get().place() == place,
        _ => false,
    }
}

/// Where the copy at a place of a session's queue is put, if it is among the last changes, and none behind it has a part in it.
fn put_at(changes: &[Change], birth: u64, place: u64) -> Option<usize>
    ensures { IfSome result (IsPutAt birth place changes.now) }
{
    let mut rest = changes;
    for _ in 0..LOOK_BACK {
        let (change, before) = rest.split_last()?;
        if puts(change, birth, place) {
            return Some(before.len());
        }
        if !is_apart(change, birth, place) {
            return None;
        }
        rest = before;
    }
    None
}

/// Where the copy is put whose phase the last change sets, if it is among the last changes; and that phase.
fn sent_at(changes: &[Change]) -> Option<(usize, Phase)>
    ensures { IfSome result (λ it. IsSentAt changes.now it.0 it.1) }
{
    let (last, earlier) = changes.split_last()?;
    let Change::SetCopy {
        birth,
        place,
        phase,
    } = last
    else {
        return None;
    };
    let at = put_at(earlier, *birth, *place)?;
    Some((at, *phase))
}

/// If it puts a copy, it puts it in the phase. Takes no memory.
fn set_phase(change: &mut Change, phase: Phase)
    ensures { change.new ≡ put_in phase change.old }
{
    if let Change::PutCopy { row, .. } = change {
        row.edit(CopyPart::SetPhase { phase });
    }
}

/// If the last change sets the phase of a copy that is put among the last ones, the copy is put in it, and the change is left out.
/// Takes no memory.
fn join_last(list: &mut Vec<Change>) -> bool
    ensures { StandFor list.old.items list.new.items }
{
    let Some((at, phase)) = sent_at(list.as_slice()) else {
        return false;
    };
    drop(list.pop());
    set_phase(&mut list[at], phase);
    true
}

/// The last changes, at most so many, are left out as long as they set phases of copies that are put among the last ones: these are
/// put in them. Takes no memory.
pub fn join_last_all(list: &mut Vec<Change>, most: usize)
    ensures { StandFor list.old.items list.new.items }
{
    for _ in 0..most {
        if !join_last(list) {
            return;
        }
    }
}
