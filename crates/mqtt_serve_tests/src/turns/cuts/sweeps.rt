//! Whatever a power cut leaves was settled and is gone on with (MQTT 5.0, 4.1, 4.3.3).
use crate::turns::cuts::files::{Image, Power, act_after, act_until};
use crate::turns::cuts::judging::{Cut, known_after};
use crate::turns::cuts::peers::{Known, NOTHING};
use crate::turns::cuts::runs::{Plan, Told};
use std::alloc::Global;
use std::hash::RandomState;
use std::io;
use std::process::Abort;
use std::test::Fail;

/// What is counted up to a cut.
#[derive(Clone, Copy, Debug, PartialEq, Eq)]
enum Counted {
    /// Calls of the log.
    Log,
    /// Calls of the file.
    File,
    /// Writes to the clients.
    Writes,
}

/// A cut: after so many of these, of a server that stores each stretch before anything of it goes out, or of one that stores too
/// late.
#[derive(Clone, Copy, Debug)]
struct Point {
    counted: Counted,
    count: u64,
    is_hasty: bool,
}

impl Point {
    /// The count, if it is of these.
    fn count_of(self, counted: Counted) -> u64 {
        if self.counted == counted {
            self.count
        } else {
            u64::MAX
        }
    }

    /// When the files fail.
    fn power(self) -> Power {
        Power {
            log: self.count_of(Counted::Log),
            db: self.count_of(Counted::File),
        }
    }

    /// The run up to it.
    fn plan(self) -> Plan {
        Plan {
            known: NOTHING,
            writes: self.count_of(Counted::Writes),
            begin: 0,
            is_hasty: self.is_hasty,
            is_watched: false,
        }
    }
}

/// The run over what a cut left, once the clients come again who know this.
fn plan_after(known: Known) -> Plan {
    Plan {
        known,
        writes: u64::MAX,
        begin: 1_000,
        is_hasty: false,
        is_watched: true,
    }
}

/// How many cuts left what was settled last, and how many more; and the first that left anything else.
#[derive(Clone, Copy, Debug)]
struct Swept {
    last: u64,
    later: u64,
    wrong: Option<(Point, Cut)>,
}

/// No cut yet.
const NO_CUT: Swept = Swept {
    last: 0,
    later: 0,
    wrong: None,
};

impl Swept {
    /// Counts a cut.
    fn count(&mut self, point: Point, cut: Cut) {
        match cut.judge() {
            Some(false) => self.last = self.last.saturating_add(1),
            Some(true) => self.later = self.later.saturating_add(1),
            None => self.wrong = Some((point, cut)),
        }
    }
}

/// What the last cut left, what the clients knew then, and what came of the run over it.
#[derive(Drop)]
struct Left {
    image: Image,
    known: Known,
    again: Option<Told>,
}

impl Left {
    /// Nothing yet.
    fn new(alloc: Global) -> Left {
        Left {
            image: Image::new(alloc),
            known: NOTHING,
            again: None,
        }
    }

    /// The run over it, once the clients come again who know this. It is the one before if nothing is new.
    fn run_again(
        &mut self,
        alloc: Global,
        known: Known,
        hasher: RandomState,
    ) -> io::Result<Option<Told>> {
        if self.image.is_new() || known != self.known || self.again.is_none() {
            self.known = known;
            self.again = act_after(alloc, &self.image, plan_after(known), hasher)?;
        }
        Ok(self.again)
    }
}

/// Cuts one after the other: what the last one left, all that was written and what was synced.
#[derive(Drop)]
struct Cuts {
    alloc: Global,
    hasher: RandomState,
    kept: Left,
    synced: Left,
}

impl Cuts {
    /// No cut yet.
    fn new(alloc: Global, hasher: RandomState) -> Cuts {
        Cuts {
            alloc,
            hasher,
            kept: Left::new(alloc),
            synced: Left::new(alloc),
        }
    }

    /// The run up to a cut.
    fn run_until(&mut self, point: Point) -> io::Result<Option<Told>> {
        act_until(
            self.alloc,
            &mut self.kept.image,
            &mut self.synced.image,
            point.power(),
            point.plan(),
            self.hasher,
        )
    }

    /// What comes of a cut, where what was not synced stays, and where it is lost.
    fn cut_at(&mut self, point: Point) -> io::Result<[Cut; 2]> {
        let first = self.run_until(point)?;
        let known = known_after(first);
        let kept = self.kept.run_again(self.alloc, known, self.hasher)?;
        let synced = self.synced.run_again(self.alloc, known, self.hasher)?;
        Ok([
            Cut {
                is_lost: false,
                first,
                again: kept,
            },
            Cut {
                is_lost: true,
                first,
                again: synced,
            },
        ])
    }

    /// Cuts after none of these, and after one more each time, up to one that isn't before the end, or that left what it may not.
    fn sweep(&mut self, counted: Counted, is_hasty: bool) -> io::Result<Swept> {
        let mut swept = NO_CUT;
        for count in 0..2_000 {
            let point = Point {
                counted,
                count,
                is_hasty,
            };
            let [kept, lost] = self.cut_at(point)?;
            swept.count(point, kept);
            swept.count(point, lost);
            if kept.is_none() || swept.wrong.is_some() {
                return Ok(swept);
            }
        }
        Ok(swept)
    }
}

/// Such cuts, from the first on.
fn sweep(
    alloc: Global,
    hasher: RandomState,
    counted: Counted,
    is_hasty: bool,
) -> io::Result<Swept> {
    let mut cuts = Cuts::new(alloc, hasher);
    let swept = cuts.sweep(counted, is_hasty);
    drop(cuts);
    swept
}

/// Prints how many cuts there were. A sync of the log that fails may have brought its bytes to the disk.
#[test]
fn a_power_cut_at_a_call_of_the_disk_leaves_what_was_settled(rt: HostRuntime) -> Result<(), Fail> {
    for counted in [Counted::Log, Counted::File] {
        let swept = sweep(rt.alloc(), RandomState::new(&rt)?, counted, false)?;
        println!(rt;
            "sweep: power cuts at calls of the disk, {counted:?}; {} left what was settled last, {} the next stretch",
            swept.last, swept.later
        )?;
        assert!(rt; swept.wrong.is_none() && swept.last > 20, "{swept:?}");
        assert!(rt; swept.later > 0 || counted == Counted::File, "{swept:?}");
    }
    Ok(())
}

/// Prints how many cuts there were: six writes are made.
#[test]
fn a_power_cut_at_a_write_leaves_what_was_settled(rt: HostRuntime) -> Result<(), Fail> {
    let swept = sweep(rt.alloc(), RandomState::new(&rt)?, Counted::Writes, false)?;
    println!(rt;
        "sweep: power cuts before writes to clients; {} left what was settled last",
        swept.last
    )?;
    assert!(rt; swept.wrong.is_none(), "{swept:?}");
    assert!(rt; swept.last == 14 && swept.later == 0, "{swept:?}");
    Ok(())
}

/// It is found once the first write was taken, of the CONNACK to "s", whose session isn't stored then.
#[test]
fn a_server_that_stores_too_late_is_found(rt: HostRuntime) -> Result<(), Fail> {
    let swept = sweep(rt.alloc(), RandomState::new(&rt)?, Counted::Writes, true)?;
    assert!(rt; swept.wrong.is_some() && swept.last == 2, "{swept:?}");
    Ok(())
}
