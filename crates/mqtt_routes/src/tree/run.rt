//! Neighbours in the order of filters that begin with the same levels: a node of the tree and what is below it.
ghost use Rattle.std.specs.Prelude.{◌≡◌, ◌+◌, ◌<◌, ◌≤◌, ◌++◌, ◌∷◌, [], ℕ, true, false, ◌&&◌, count_by, length, nat_eq, OnOk};
ghost use Rattle.mqtt_topic.specs.names.Levels.{is_none_left};
ghost use Rattle.mqtt_routes.specs.tree.Tree.{IsRun, is_before, is_within, begins_with, once, rest_of};

use crate::tree::fault::TreeFault;
use crate::tree::filters::Filters;
use crate::tree::level::{end_of, is_before};

/// Filters from one number up to another that begin with the same levels, and the byte at which
/// the last of these ends, if there is one.
#[derive(Clone, Copy, Drop)]
pub(crate) struct Run {
    pub(crate) from: usize,
    pub(crate) to: usize,
    pub(crate) end: Option<usize>,
}

/// The first number of a run whose filter, as to what the run doesn't have in common, isn't before
/// those that begin with a level, or with `also`, isn't before those behind them. Mostly it is at an
/// end of the run, so these are looked at first. Else it is sought by halves; with `also`, by steps
/// that double from the front, as long as these are less, since mostly it isn't far. Takes no memory.
fn boundary<F: Filters>(filters: &F, run: Run, also: bool, level: &str) -> usize
    requires run { IsRun (F.texts filters.now) run }
    ensures from { run.from ≤ result }
    ensures to { result ≤ run.to }
    ensures before { (i : ℕ) → run.from ≤ i → i < result
        → is_before also level.now (rest_of (F.texts filters.now) run i) ≡ true }
    ensures behind { (i : ℕ) → result ≤ i → i < run.to
        → is_before also level.now (rest_of (F.texts filters.now) run i) ≡ false }
{
    if run.from == run.to || !is_before(filters.text(run.from), run.end, also, level) {
        return run.from;
    }
    if is_before(filters.text(run.to - 1), run.end, also, level) {
        return run.to;
    }
    let mut from = run.from + 1;
    let mut to = run.to;
    while from < to {
        let half = (to - from) / 2;
        let middle = if also && from - run.from < half {
            from + (from - run.from)
        } else {
            from + half
        };
        if is_before(filters.text(middle), run.end, also, level) {
            from = middle + 1;
        } else {
            to = middle;
        }
    }
    from
}

/// The filters of a run whose rest begins with a level, without it. Takes no memory.
pub(crate) fn narrowed<F: Filters>(filters: &F, run: Run, level: &str) -> Run
    requires run { IsRun (F.texts filters.now) run }
    ensures run { IsRun (F.texts filters.now) result }
    ensures inside { (run.from ≤ result.from) × (result.to ≤ run.to) }
    ensures which { (i : ℕ) → is_within i result
        ≡ (is_within i run && begins_with level.now (rest_of (F.texts filters.now) run i)) }
    ensures rest { (i : ℕ) → result.from ≤ i → i < result.to
        → rest_of (F.texts filters.now) run i ≡ level.now ∷ rest_of (F.texts filters.now) result i }
    ensures before { (i : ℕ) → run.from ≤ i → i < result.from
        → is_before false level.now (rest_of (F.texts filters.now) run i) ≡ true }
    ensures behind { (i : ℕ) → result.to ≤ i → i < run.to
        → is_before true level.now (rest_of (F.texts filters.now) run i) ≡ false }
{
    let from = boundary(filters, run, false, level);
    let to = boundary(filters, Run { from, ..run }, true, level);
    if from == to {
        return Run { from, to, ..run };
    }
    let end = Some(end_of(filters.text(from), run.end, level));
    Run { from, to, end }
}

/// The filters of a run that have no level more. Takes no memory.
pub(crate) fn ended<F: Filters>(filters: &F, run: Run) -> Run
    requires run { IsRun (F.texts filters.now) run }
    ensures some { result.from ≤ result.to }
    ensures which { (i : ℕ) → is_within i result
        ≡ (is_within i run && is_none_left (rest_of (F.texts filters.now) run i)) }
{
    let to = boundary(filters, run, false, "");
    Run { to, ..run }
}

/// Adds the numbers of a run to others.
pub(crate) fn push_all(numbers: &mut Vec<usize>, run: Run) -> Result<(), TreeFault>
    requires { run.from ≤ run.to }
    ensures { OnOk result ((i : ℕ) → count_by (nat_eq i) numbers.new.items
        ≡ count_by (nat_eq i) numbers.old.items + once (is_within i run)) }
{
    for number in run.from..run.to {
        numbers.push(number)?;
    }
    Ok(())
}

/// Adds a number to others if it was found.
pub(crate) fn push_if(
    found: &mut Vec<usize>,
    number: usize,
    is_found: bool,
) -> Result<(), TreeFault>
    ensures { OnOk result ((i : ℕ) → count_by (nat_eq i) found.new.items
        ≡ count_by (nat_eq i) found.old.items + once (nat_eq i number && is_found)) }
{
    if is_found {
        found.push(number)?;
    }
    Ok(())
}
