//! Rows of which some have left in front: their places stay for a while, so that no other row moves.
ghost use Rattle.std.specs.Prelude.{◌≡◌, ◌<◌, ◌≤◌, ◌+◌, map, take, drop, remove, length, slice_index_or, vec_len, vec_capacity};
ghost use Rattle.mqtt_records.specs.lists.Front.{left_with};

use crate::lists::row::Slimmable;

/// So many rows in front are looked at before all others: copies leave a queue there. No more of those that have left
/// stay.
pub(crate) const FRONT: usize = 32;

/// A list is long if it has more rows than these.
const LONG: usize = 128;

/// The rows behind those that have left. Takes no memory.
pub(crate) fn behind<R>(rows: &[R], gone: usize) -> &[R]
    requires { gone ≤ length rows.now }
    ensures { result.now ≡ drop gone rows.now }
{
    &rows[gone..]
}

/// The places of those that have left go. Takes no memory.
pub(crate) fn close_up<R: Drop>(rows: &mut Vec<R>, gone: usize)
    requires { gone ≤ vec_len rows.old }
    ensures items { rows.new.items ≡ drop gone rows.old.items }
    ensures capacity { vec_capacity rows.new ≡ vec_capacity rows.old }
{
    if gone > 0 {
        let len = rows.len();
        rows.rotate_left(gone);
        rows.truncate(len - gone);
    }
}

/// There is a place for a row more, if there are fewer than `limit`: those of rows that have left go if it needs them.
/// Answers how many of these still stand. Takes no memory.
pub(crate) fn make_place<R: Drop>(rows: &mut Vec<R>, gone: usize, limit: usize) -> usize
    requires { gone ≤ vec_len rows.old }
    ensures rest { drop result rows.new.items ≡ drop gone rows.old.items }
    ensures gone { result ≤ vec_len rows.new }
    ensures few { result ≤ gone }
    ensures place { length (drop gone rows.old.items) < limit → vec_len rows.new < limit }
    ensures capacity { vec_capacity rows.new ≡ vec_capacity rows.old }
{
    if rows.len() < limit {
        gone
    } else {
        close_up(rows, gone);
        0
    }
}

/// The row at a place behind those that have left is taken out, and all behind it move up. Takes no memory.
pub(crate) fn take_out<R>(rows: &mut Vec<R>, gone: usize, place: usize) -> R
    requires { gone + place < vec_len rows.old }
    ensures row { result ≡ slice_index_or (drop gone rows.old.items) place result }
    ensures rest { drop gone rows.new.items ≡ remove (drop gone rows.old.items) place }
    ensures gone { gone ≤ vec_len rows.new }
    ensures capacity { vec_capacity rows.new ≡ vec_capacity rows.old }
{
    rows.remove(gone + place)
}

/// The row at a place goes to the front, slim; those before it go one place on.
fn bring_to_front<R: Slimmable>(rows: &mut [R], place: usize)
    requires { place < length rows.old }
    ensures rest { drop 1 rows.new ≡ remove rows.old place }
    ensures slim { take 1 rows.new ≡ map R.slimmed (take 1 (drop place rows.old)) }
    ensures len { length rows.new ≡ length rows.old }
{
    rows[place].leave_out();
    let (before, _) = rows.split_at_mut(place + 1);
    before.rotate_right(1);
}

/// The row at a place behind those that have left goes to their end, slim; only the rows before it move.
fn pass_all_by<R: Slimmable>(rows: &mut [R], gone: usize, place: usize)
    requires { gone + place < length rows.old }
    ensures rest { drop (gone + 1) rows.new ≡ remove (drop gone rows.old) place }
    ensures slim { take (gone + 1) rows.new ≡ left_with R.slimmed gone place rows.old }
    ensures len { length rows.new ≡ length rows.old }
{
    let (_, behind) = rows.split_at_mut(gone);
    bring_to_front(behind, place);
}

/// The row at a place behind those that have left leaves too.
fn pass_by<R: Slimmable>(rows: &mut Vec<R>, gone: usize, place: usize)
    requires { gone + place < vec_len rows.old }
    ensures rest { drop (gone + 1) rows.new.items ≡ remove (drop gone rows.old.items) place }
    ensures slim { take (gone + 1) rows.new.items ≡ left_with R.slimmed gone place rows.old.items }
    ensures len { vec_len rows.new ≡ vec_len rows.old }
    ensures capacity { vec_capacity rows.new ≡ vec_capacity rows.old }
{
    pass_all_by(rows, gone, place);
}

/// The places of those that have left go once there are many. Answers how many stand.
fn close_at_times<R: Drop>(rows: &mut Vec<R>, gone: usize) -> usize
    requires { gone ≤ vec_len rows.old }
    ensures rest { drop result rows.new.items ≡ drop gone rows.old.items }
    ensures left { 0 < result → take result rows.new.items ≡ take gone rows.old.items }
    ensures gone { result ≤ vec_len rows.new }
    ensures few { result < FRONT }
    ensures capacity { vec_capacity rows.new ≡ vec_capacity rows.old }
{
    if gone < FRONT {
        gone
    } else {
        close_up(rows, gone);
        0
    }
}

/// The row at a place behind those that have left leaves. In front of a long list it stays among them, slim, so that
/// only the rows before it move; else all of them go with it. Answers how many stand. Takes no memory.
pub(crate) fn leave<R: Slimmable>(rows: &mut Vec<R>, gone: usize, place: usize) -> usize
    requires { gone + place < vec_len rows.old }
    ensures rest { drop result rows.new.items ≡ remove (drop gone rows.old.items) place }
    ensures slim { 0 < result → take result rows.new.items ≡ left_with R.slimmed gone place rows.old.items }
    ensures gone { result ≤ vec_len rows.new }
    ensures few { result < FRONT }
    ensures capacity { vec_capacity rows.new ≡ vec_capacity rows.old }
{
    if place < FRONT && rows.len() - gone > LONG {
        pass_by(rows, gone, place);
        close_at_times(rows, gone + 1)
    } else {
        let _row = take_out(rows, gone, place);
        close_up(rows, gone);
        0
    }
}
