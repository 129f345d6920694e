//! Changes of rows that wait to be written, one behind the other (4.1).
ghost use Rattle.std.specs.Prelude.{◌≡◌, ◌++◌, filter, length, take, OnErr, OnOk};
ghost use Rattle.mqtt_serve.specs.gathered.Counting.{changes_rows};

use mqtt_records::Change;
use std::alloc::AllocError;

/// Whether it changes rows, and sets no counter.
fn is_of_rows(change: &Change) -> bool
    ensures { result ≡ changes_rows change.now }
{
    !matches!(change, Change::SetCounter { .. })
}

/// Puts clones of the changes of rows behind a list, in order. What a copy says stands where the change has it. For want of memory
/// some may stand there.
fn push_clones(list: &mut Vec<Change>, changes: &[Change]) -> Result<(), AllocError>
    ensures ok { OnOk result (list.new.items ≡ list.old.items ++ filter changes_rows changes.now) }
    ensures front { OnErr result (take (length list.old.items) list.new.items ≡ list.old.items) }
{
    for change in changes {
        if is_of_rows(change) {
            list.push(change.clone()?)?;
        }
    }
    Ok(())
}

/// Puts clones of the changes of rows behind a list, in order. For want of memory the list stays.
pub fn push_rows(list: &mut Vec<Change>, changes: &[Change]) -> Result<(), AllocError>
    ensures ok { OnOk result (list.new.items ≡ list.old.items ++ filter changes_rows changes.now) }
    ensures err { OnErr result (list.new.items ≡ list.old.items) }
{
    let before = list.len();
    list.reserve(changes.len())?;
    let pushed = push_clones(list, changes);
    if pushed.is_err() {
        list.truncate(before);
    }
    pushed
}
