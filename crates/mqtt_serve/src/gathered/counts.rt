//! Counters that wait to be written: of each the newest value alone (4.1).
ghost use Rattle.std.specs.Prelude.{◌≡◌, ◌↔◌, ◌++◌, length, IfOk, IsTrue, OnErr, OnOk};
ghost use Rattle.mqtt_serve.specs.gathered.Counting.{counts_after_all, no_counts, set_of, sets_of, with_count};

use mqtt_records::{Change, Counter};
use std::alloc::{AllocError, Global};

/// For each counter the value that it is to have, if it was set.
#[derive(Clone, Copy, Debug, PartialEq, Eq)]
pub struct Counts {
    births: Option<u64>,
    publications: Option<u64>,
    subscribes: Option<u64>,
    autos: Option<u64>,
    moment: Option<u64>,
}

impl Counts {
    /// No counter was set.
    pub fn new() -> Counts
        ensures { result ≡ no_counts }
    {
        Counts {
            births: None,
            publications: None,
            subscribes: None,
            autos: None,
            moment: None,
        }
    }

    /// Sets a counter. Its older value is forgotten.
    pub fn set(&mut self, counter: Counter, value: u64)
        ensures { self.new ≡ with_count counter value self.old }
    {
        match counter {
            Counter::Births => self.births = Some(value),
            Counter::Publications => self.publications = Some(value),
            Counter::Subscribes => self.subscribes = Some(value),
            Counter::Autos => self.autos = Some(value),
            Counter::Moment => self.moment = Some(value),
        }
    }

    /// Sets each counter that changes set, in order. What they do to rows has no part in it.
    pub fn set_all(&mut self, changes: &[Change])
        ensures { self.new ≡ counts_after_all changes.now self.old }
    {
        for change in changes {
            if let Change::SetCounter { counter, value } = change {
                self.set(*counter, *value);
            }
        }
    }

    /// How many counters were set.
    pub fn len(&self) -> usize
        ensures { result ≡ length (sets_of self.now) }
    {
        usize::from(self.births.is_some())
            + usize::from(self.publications.is_some())
            + usize::from(self.subscribes.is_some())
            + usize::from(self.autos.is_some())
            + usize::from(self.moment.is_some())
    }

    /// Whether no counter was set.
    pub fn is_empty(&self) -> bool
        ensures { IsTrue result ↔ (self.now ≡ no_counts) }
    {
        self.len() == 0
    }

    /// One change for each counter that was set, in the order of `Counter`.
    pub fn changes(&self, alloc: Global) -> Result<Vec<Change>, AllocError>
        ensures { IfOk result (λ sets. sets.items ≡ sets_of self.now) }
    {
        let mut sets = Vec::with_capacity(alloc, self.len())?;
        push_set(&mut sets, Counter::Births, self.births)?;
        push_set(&mut sets, Counter::Publications, self.publications)?;
        push_set(&mut sets, Counter::Subscribes, self.subscribes)?;
        push_set(&mut sets, Counter::Autos, self.autos)?;
        push_set(&mut sets, Counter::Moment, self.moment)?;
        Ok(sets)
    }

    /// Moves the counters that were set behind a list, as changes. For want of memory nothing changed.
    pub fn move_behind(&mut self, alloc: Global, list: &mut Vec<Change>) -> Result<(), AllocError>
        ensures moved { OnOk result (list.new.items ≡ list.old.items ++ sets_of self.old) }
        ensures none { OnOk result (self.new ≡ no_counts) }
        ensures list { OnErr result (list.new.items ≡ list.old.items) }
        ensures same { OnErr result (self.new ≡ self.old) }
    {
        let mut sets = self.changes(alloc)?;
        list.append(&mut sets)?;
        *self = Counts::new();
        Ok(())
    }
}

/// If the counter was set, the change that sets it comes behind the others.
fn push_set(sets: &mut Vec<Change>, counter: Counter, count: Option<u64>) -> Result<(), AllocError>
    ensures { OnOk result (sets.new.items ≡ sets.old.items ++ set_of counter count) }
{
    if let Some(value) = count {
        sets.push(Change::SetCounter { counter, value })?;
    }
    Ok(())
}
