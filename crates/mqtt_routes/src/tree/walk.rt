//! Which filters match a topic name, found level by level (MQTT 5.0, 4.7).
ghost use Rattle.std.specs.Prelude.{◌≡◌, ◌+◌, ◌≤◌, ◌∷◌, [], ℕ, List, false, nat_eq, count_by, IfErr, IfOk, OnOk};
ghost use Rattle.mqtt_topic.specs.names.Names.{has_wildcard};
ghost use Rattle.mqtt_topic.specs.names.Levels.{levels};
ghost use Rattle.mqtt_topic.specs.names.Matching.{dollar, is_first};
ghost use Rattle.mqtt_routes.specs.tree.Tree.{AreMatching, AreOrdered, AreRuns, ArePlain, IsRun, found_in, found_in_all, is_found, levels_behind};

use crate::tree::fault::TreeFault;
use crate::tree::filters::Filters;
use crate::tree::level::{end_of, matches_behind};
use crate::tree::run::{Run, ended, narrowed, push_all, push_if};
use mqtt_topic::{Levels, TopicName};
use std::alloc::Global;

/// How many filters of a run are tried one by one, since that takes less time than to narrow it.
const FEW: usize = 8;

/// Whether a name begins with `$`.
fn begins_dollar(name: &str) -> bool
    ensures { result ≡ is_first (nat_eq dollar) name.now }
{
    matches!(name.as_bytes().first(), Some(b'$'))
}

/// Where a walk by a name begins: at all filters, or at those that have its first level if it
/// begins with `$`, so that no wildcard takes that level (4.7.2). The levels that are left are
/// those to walk, and begin behind the byte that is answered with it.
fn start<F: Filters>(filters: &F, name: &str, rest: &mut Levels<'_>) -> (Run, Option<usize>)
    requires ordered { AreOrdered (F.texts filters.now) }
    requires plain { has_wildcard name.now ≡ false }
    requires levels { rest.old ≡ levels name.now }
    ensures run { IsRun (F.texts filters.now) result.0 }
    ensures behind { rest.new ≡ levels_behind result.1 name.now }
    ensures plain { ArePlain rest.new }
    ensures found { (i : ℕ) → found_in (F.texts filters.now) rest.new i result.0
        ≡ is_found (F.texts filters.now) name.now i }
{
    let all = Run {
        from: 0,
        to: filters.count(),
        end: None,
    };
    if !begins_dollar(name) {
        return (all, None);
    }
    match rest.next() {
        Some(level) => {
            let at = end_of(name, None, level);
            (narrowed(filters, all, level), Some(at))
        }
        None => (all, None),
    }
}

/// Adds a run to others, unless nothing is in it.
fn push_some<F: Filters>(filters: &F, runs: &mut Vec<Run>, run: Run) -> Result<(), TreeFault>
    requires old { AreRuns (F.texts filters.now) runs.old.items }
    requires new { IsRun (F.texts filters.now) run }
    ensures runs { OnOk result (AreRuns (F.texts filters.now) runs.new.items) }
    ensures found { OnOk result ((i : ℕ) (ls : List (List ℕ))
        → found_in_all (F.texts filters.now) ls i runs.new.items
        ≡ found_in_all (F.texts filters.now) ls i runs.old.items + found_in (F.texts filters.now) ls i run) }
{
    if run.from < run.to {
        runs.push(run)?;
    }
    Ok(())
}

/// Walks one level on in a run.
fn step<F: Filters>(
    filters: &F,
    run: Run,
    level: &str,
    found: &mut Vec<usize>,
    next: &mut Vec<Run>,
) -> Result<(), TreeFault>
    requires run { IsRun (F.texts filters.now) run }
    requires old { AreRuns (F.texts filters.now) next.old.items }
    requires plain { has_wildcard level.now ≡ false }
    ensures runs { OnOk result (AreRuns (F.texts filters.now) next.new.items) }
    ensures found { OnOk result ((i : ℕ) (ls : List (List ℕ))
        → count_by (nat_eq i) found.new.items + found_in_all (F.texts filters.now) ls i next.new.items
        ≡ (count_by (nat_eq i) found.old.items + found_in_all (F.texts filters.now) ls i next.old.items)
        + found_in (F.texts filters.now) (level.now ∷ ls) i run) }
{
    push_all(found, narrowed(filters, run, "#"))?;
    push_some(filters, next, narrowed(filters, run, "+"))?;
    push_some(filters, next, narrowed(filters, run, level))
}

/// Walks one level on in several runs.
fn pass<F: Filters>(
    alloc: Global,
    filters: &F,
    level: &str,
    runs: &[Run],
    found: &mut Vec<usize>,
) -> Result<Vec<Run>, TreeFault>
    requires runs { AreRuns (F.texts filters.now) runs.now }
    requires plain { has_wildcard level.now ≡ false }
    ensures runs { IfOk result (λ next. AreRuns (F.texts filters.now) next.items) }
    ensures found { IfOk result (λ next. (i : ℕ) (ls : List (List ℕ))
        → count_by (nat_eq i) found.new.items + found_in_all (F.texts filters.now) ls i next.items
        ≡ count_by (nat_eq i) found.old.items
        + found_in_all (F.texts filters.now) (level.now ∷ ls) i runs.now) }
{
    let mut next = Vec::new(alloc);
    for run in runs {
        step(filters, *run, level, found, &mut next)?;
    }
    Ok(next)
}

/// Adds the filters of a run that match the levels of a name behind a byte.
fn try_each<F: Filters>(
    filters: &F,
    run: Run,
    name: &str,
    at: Option<usize>,
    found: &mut Vec<usize>,
) -> Result<(), TreeFault>
    requires { IsRun (F.texts filters.now) run }
    ensures { OnOk result ((i : ℕ) → count_by (nat_eq i) found.new.items
        ≡ count_by (nat_eq i) found.old.items
        + found_in (F.texts filters.now) (levels_behind at name.now) i run) }
{
    for number in run.from..run.to {
        let filter = filters.text(number).as_bytes();
        push_if(
            found,
            number,
            matches_behind(filter, run.end, name.as_bytes(), at),
        )?;
    }
    Ok(())
}

/// Adds a run to others, or if it has few filters, those of them that match the levels of a name
/// behind a byte.
fn settle_one<F: Filters>(
    filters: &F,
    run: Run,
    name: &str,
    at: Option<usize>,
    found: &mut Vec<usize>,
    left: &mut Vec<Run>,
) -> Result<(), TreeFault>
    requires run { IsRun (F.texts filters.now) run }
    requires old { AreRuns (F.texts filters.now) left.old.items }
    ensures runs { OnOk result (AreRuns (F.texts filters.now) left.new.items) }
    ensures found { OnOk result ((i : ℕ) → count_by (nat_eq i) found.new.items
        + found_in_all (F.texts filters.now) (levels_behind at name.now) i left.new.items
        ≡ (count_by (nat_eq i) found.old.items
        + found_in_all (F.texts filters.now) (levels_behind at name.now) i left.old.items)
        + found_in (F.texts filters.now) (levels_behind at name.now) i run) }
{
    if run.to - run.from > FEW {
        push_some(filters, left, run)
    } else {
        try_each(filters, run, name, at, found)
    }
}

/// The runs that have more than a few filters. Of the others, the filters that match the levels of
/// a name behind a byte are added.
fn settled<F: Filters>(
    alloc: Global,
    filters: &F,
    name: &str,
    at: Option<usize>,
    runs: &[Run],
    found: &mut Vec<usize>,
) -> Result<Vec<Run>, TreeFault>
    requires { AreRuns (F.texts filters.now) runs.now }
    ensures runs { IfOk result (λ left. AreRuns (F.texts filters.now) left.items) }
    ensures found { IfOk result (λ left. (i : ℕ) → count_by (nat_eq i) found.new.items
        + found_in_all (F.texts filters.now) (levels_behind at name.now) i left.items
        ≡ count_by (nat_eq i) found.old.items
        + found_in_all (F.texts filters.now) (levels_behind at name.now) i runs.now) }
{
    let mut left = Vec::new(alloc);
    for run in runs {
        settle_one(filters, *run, name, at, found, &mut left)?;
    }
    Ok(left)
}

/// Ends a walk in several runs.
fn end<F: Filters>(filters: &F, runs: &[Run], found: &mut Vec<usize>) -> Result<(), TreeFault>
    requires { AreRuns (F.texts filters.now) runs.now }
    ensures { OnOk result ((i : ℕ) → count_by (nat_eq i) found.new.items
        ≡ count_by (nat_eq i) found.old.items + found_in_all (F.texts filters.now) [] i runs.now) }
{
    for run in runs {
        push_all(found, narrowed(filters, *run, "#"))?;
        push_all(found, ended(filters, *run))?;
    }
    Ok(())
}

/// The numbers of the filters that match a topic name, each once, in no order (4.7). Its only fault
/// is 1 (Memory). The time is that of the levels and of what matches, times the logarithm of how
/// many filters there are.
pub fn matching<F: Filters>(
    alloc: Global,
    filters: &F,
    name: &TopicName,
) -> Result<Vec<usize>, TreeFault>
    requires ordered { AreOrdered (F.texts filters.now) }
    ensures { IfOk result (λ found. AreMatching (F.texts filters.now) name.now found.items) }
{
    let text = name.as_str();
    let mut rest = name.levels();
    let (all, mut at) = start(filters, text, &mut rest);
    let mut found = Vec::new(alloc);
    let mut runs = settled(alloc, filters, text, at, &[all], &mut found)?;
    while let Some(level) = rest.next() {
        at = Some(end_of(text, at, level));
        let next = pass(alloc, filters, level, runs.as_slice(), &mut found)?;
        runs = settled(alloc, filters, text, at, next.as_slice(), &mut found)?;
    }
    end(filters, runs.as_slice(), &mut found)?;
    Ok(found)
}
