//! Publishes to the broker over the store in memory, without sockets, and tells the time of each kind of step; for
//! bench/engine/run, reconnects and queues. Words: how many batches of 16 publications, sessions that went away, filters of
//! each, copies that wait in each, readers, batches of 16 times that a client comes back, and batches of 16 answers of a
//! reader with such a queue. Or copies wait over the store in SQL, for bench/engine/waiting: `fill`, a file, how many sessions,
//! copies in each and bytes of a message; or `drain` and the file.

mod bed;
mod packets;
mod waiting;

use crate::engine::bed::{Crowd, Lines, Step, Tally, fill, gather, make};
use crate::engine::waiting::{Waiting, run_waiting};
use mqtt_broker::{Engine, KeepError, Limits};
use mqtt_flow::Full;
use mqtt_keep::MemKeep;
use std::alloc::Global;
use std::hash::RandomState;
use std::time::{CpuClock, Duration};

/// How many there are of each.
#[derive(Clone, Copy)]
struct Sizes {
    batches: u64,
    crowd: Crowd,
    readers: u64,
    returns: u64,
    answers: u64,
}

/// Steps of one kind: of which publications, which, how many, and how long they took.
#[derive(Clone, Copy)]
struct Part {
    of: &'static str,
    name: &'static str,
    step: Step,
    tally: Tally,
    time: Duration,
}

fn part_of(of: &'static str, name: &'static str, step: Step) -> Part {
    Part {
        of,
        name,
        step,
        tally: Tally::new(),
        time: Duration::ZERO,
    }
}

/// A batch at each QoS, one after the other, and turns when there is nothing to do.
fn parts() -> [Part; 11] {
    [
        part_of("qos0", "PUBLISH", Step::PublishAtOnce),
        part_of("qos1", "PUBLISH", Step::Publish(0x32)),
        part_of("qos1", "pump", Step::Pump),
        part_of("qos1", "PUBACK", Step::Answer(0x40)),
        part_of("qos2", "PUBLISH", Step::Publish(0x34)),
        part_of("qos2", "pump", Step::Pump),
        part_of("qos2", "PUBREC", Step::Answer(0x50)),
        part_of("qos2", "PUBCOMP", Step::Answer(0x70)),
        part_of("qos2", "PUBREL", Step::Release),
        part_of("idle", "pump", Step::IdlePump),
        part_of("idle", "tick", Step::IdleTick),
    ]
}

/// What goes on at a queue behind a full window: turns when nothing can go out, answers, as many publications, and the
/// turn that fills the window again.
fn parts_of_a_queue() -> [Part; 4] {
    [
        part_of("queue", "idle", Step::IdlePump),
        part_of("queue", "PUBACK", Step::Answer(0x40)),
        part_of("queue", "PUBLISH", Step::Publish(0x32)),
        part_of("queue", "pump", Step::Pump),
    ]
}

/// A broker over a store in memory that has nothing yet.
fn opened(alloc: Global, hasher: RandomState) -> Result<Engine<MemKeep>, KeepError> {
    let limits = Limits {
        full: Full::Refuse,
        queue: 1000,
        sessions: 1000,
        retained: 1000,
    };
    match Engine::open(alloc, MemKeep::new(alloc)?, 0, limits, hasher) {
        Ok(engine) => Ok(engine),
        Err((keep, fault)) => {
            drop(keep);
            Err(fault)
        }
    }
}

/// Makes steps of one kind, and adds their time.
fn timed(
    rt: &impl CpuClock,
    engine: &mut Engine<MemKeep>,
    lines: Lines,
    part: &mut Part,
) -> anyhow::Result<()> {
    let start = rt.process_cpu_time()?;
    make(engine, &mut part.tally, lines, part.step)?;
    let end = rt.process_cpu_time()?;
    part.time = part.time.saturating_add(end.saturating_sub(start));
    Ok(())
}

/// Prints what was done on standard output, and the seconds that it took on standard error.
fn report(rt: &(impl Print + Eprint), course: &str, part: &Part) -> anyhow::Result<()> {
    println!(rt;
        "{course} {} {} steps={} sent={}",
        part.of, part.name, part.tally.steps, part.tally.sent
    )?;
    eprintln!(rt;
        "{course} {} {} {} {}.{:09}",
        part.of,
        part.name,
        part.tally.steps,
        part.time.as_secs(),
        part.time.subsec_nanos()
    )?;
    Ok(())
}

/// Makes one batch.
fn make_batch(
    rt: &impl CpuClock,
    engine: &mut Engine<MemKeep>,
    lines: Lines,
    parts: &mut [Part],
) -> anyhow::Result<()> {
    for part in parts.iter_mut() {
        timed(rt, engine, lines, part)?;
    }
    Ok(())
}

/// Prints all parts.
fn report_all(rt: &(impl Print + Eprint), course: &str, parts: &[Part]) -> anyhow::Result<()> {
    for part in parts {
        report(rt, course, part)?;
    }
    Ok(())
}

/// Makes batches with a broker that nobody has connected to, and tells the time of each kind of step.
fn measure(
    rt: &(impl Print + Eprint + CpuClock),
    engine: &mut Engine<MemKeep>,
    course: &str,
    sizes: Sizes,
) -> anyhow::Result<()> {
    let lines = gather(engine, sizes.crowd, sizes.readers)?;
    let mut parts = parts();
    for _ in 0..sizes.batches {
        make_batch(rt, engine, lines, &mut parts)?;
    }
    report_all(rt, course, &parts)
}

/// Has a client come back to its session again and again, and tells the time; it was there once before.
fn measure_returns(
    rt: &(impl Print + Eprint + CpuClock),
    engine: &mut Engine<MemKeep>,
    course: &str,
    sizes: Sizes,
) -> anyhow::Result<()> {
    let lines = gather(engine, sizes.crowd, 0)?;
    let mut first = Tally::new();
    make(engine, &mut first, lines, Step::Return)?;
    let mut part = part_of("session", "return", Step::Return);
    for _ in 0..sizes.returns {
        timed(rt, engine, lines, &mut part)?;
    }
    report(rt, course, &part)
}

/// Makes batches at a reader's queue, and tells the time of each kind of step.
fn measure_queue(
    rt: &(impl Print + Eprint + CpuClock),
    engine: &mut Engine<MemKeep>,
    course: &str,
    sizes: Sizes,
) -> anyhow::Result<()> {
    let lines = fill(engine, sizes.crowd.copies)?;
    let mut parts = parts_of_a_queue();
    for _ in 0..sizes.answers {
        make_batch(rt, engine, lines, &mut parts)?;
    }
    report_all(rt, course, &parts)
}

/// The same with a new broker.
fn run_queue(
    rt: &(impl Print + Eprint + CpuClock),
    alloc: Global,
    hasher: RandomState,
    course: &str,
    sizes: Sizes,
) -> anyhow::Result<()> {
    let mut engine = opened(alloc, hasher)?;
    let measured = measure_queue(rt, &mut engine, course, sizes);
    drop(engine.close());
    measured
}

/// The same with a new broker.
fn run_returns(
    rt: &(impl Print + Eprint + CpuClock),
    alloc: Global,
    hasher: RandomState,
    course: &str,
    sizes: Sizes,
) -> anyhow::Result<()> {
    let mut engine = opened(alloc, hasher)?;
    let measured = measure_returns(rt, &mut engine, course, sizes);
    drop(engine.close());
    measured
}

/// Batches with a new broker.
fn run_course(
    rt: &(impl Print + Eprint + CpuClock),
    alloc: Global,
    hasher: RandomState,
    course: &str,
    sizes: Sizes,
) -> anyhow::Result<()> {
    let mut engine = opened(alloc, hasher)?;
    let measured = measure(rt, &mut engine, course, sizes);
    drop(engine.close());
    measured
}

/// Sizes with a part of the crowd.
fn beside(sizes: Sizes, filters: u64, copies: u64) -> Sizes {
    let sessions = if filters > 0 || copies > 0 {
        sizes.crowd.sessions
    } else {
        0
    };
    let crowd = Crowd {
        sessions,
        filters,
        copies,
    };
    Sizes {
        crowd,
        readers: 1,
        ..sizes
    }
}

/// One to one alone, one to many, and one to one beside each crowd that throughput must not fall with.
fn run_all(
    rt: &(impl Print + Eprint + CpuClock),
    alloc: Global,
    hasher: RandomState,
    sizes: Sizes,
) -> anyhow::Result<()> {
    let Crowd {
        filters,
        copies,
        ..
    } = sizes.crowd;
    let alone = beside(sizes, 0, 0);
    run_course(rt, alloc, hasher, "alone", alone)?;
    let many = Sizes {
        batches: sizes.batches / 32 + 1,
        readers: sizes.readers,
        ..alone
    };
    run_course(rt, alloc, hasher, "many", many)?;
    run_course(rt, alloc, hasher, "filters", beside(sizes, filters, 0))?;
    let few = beside(sizes, 0, copies.min(10));
    run_course(rt, alloc, hasher, "few-copies", few)?;
    run_course(rt, alloc, hasher, "copies", beside(sizes, 0, copies))
}

/// A client comes back where nobody else was, beside sessions alone, and beside the copies that wait for them.
fn run_all_returns(
    rt: &(impl Print + Eprint + CpuClock),
    alloc: Global,
    hasher: RandomState,
    sizes: Sizes,
) -> anyhow::Result<()> {
    run_returns(rt, alloc, hasher, "empty", beside(sizes, 0, 0))?;
    let mut sessions = beside(sizes, 0, 1);
    sessions.crowd.copies = 0;
    run_returns(rt, alloc, hasher, "sessions", sessions)?;
    run_returns(
        rt,
        alloc,
        hasher,
        "copies",
        beside(sizes, 0, sizes.crowd.copies),
    )
}

/// A reader answers while few copies wait behind its window, and while many do.
fn run_all_queues(
    rt: &(impl Print + Eprint + CpuClock),
    alloc: Global,
    hasher: RandomState,
    sizes: Sizes,
) -> anyhow::Result<()> {
    let mut few = sizes;
    few.crowd.copies = sizes.crowd.copies.min(10);
    run_queue(rt, alloc, hasher, "few-behind", few)?;
    run_queue(rt, alloc, hasher, "behind", sizes)
}

/// The number that a word says, or this one if there is no word.
fn number(word: Option<&String>, other: u64) -> anyhow::Result<u64> {
    match word {
        Some(word) => Ok(word.parse::<u64>()?),
        None => Ok(other),
    }
}

/// What the words ask for.
fn sizes_of(words: &[String]) -> anyhow::Result<Sizes> {
    let batches = number(words.first(), 2)?;
    let sessions = number(words.get(1), 10)?;
    let filters = number(words.get(2), 3)?;
    let copies = number(words.get(3), 12)?;
    let readers = number(words.get(4), 3)?;
    let returns = number(words.get(5), 1)?;
    let answers = number(words.get(6), 1)?;
    let crowd = Crowd {
        sessions,
        filters,
        copies,
    };
    Ok(Sizes {
        batches,
        crowd,
        readers,
        returns,
        answers,
    })
}

/// What the words ask for, if they begin with `fill`; few small ones in memory if there is no word.
fn waiting_of(words: &[String]) -> anyhow::Result<Waiting> {
    let sessions = number(words.get(2), 3)?;
    let copies = number(words.get(3), 40)?;
    let bytes = number(words.get(4), 200)?;
    Ok(Waiting {
        sessions,
        copies,
        bytes,
    })
}

/// The word at a place.
fn word<'a>(words: &'a [String], place: usize, other: &'static str) -> &'a str {
    words.get(place).map_or(other, |word| word.as_str())
}

/// Batches over the store in memory.
fn run_batches(rt: &HostRuntime, hasher: RandomState, words: &[String]) -> anyhow::Result<()> {
    let sizes = sizes_of(words)?;
    if sizes.batches > 0 {
        run_all(rt, rt.alloc(), hasher, sizes)?;
    }
    if sizes.returns > 0 {
        run_all_returns(rt, rt.alloc(), hasher, sizes)?;
    }
    if sizes.answers > 0 {
        run_all_queues(rt, rt.alloc(), hasher, sizes)?;
    }
    Ok(())
}

/// Does what the words ask for; a little of all if there is none.
pub(crate) fn run(rt: &HostRuntime, words: &[String]) -> anyhow::Result<()> {
    let hasher = RandomState::new(rt)?;
    let place = word(words, 1, ":memory:");
    match word(words, 0, "") {
        "fill" => run_waiting(rt, hasher, place, Some(waiting_of(words)?)),
        "drain" => run_waiting(rt, hasher, place, None),
        "" => {
            run_batches(rt, hasher, words)?;
            run_waiting(rt, hasher, place, Some(waiting_of(words)?))
        }
        _ => run_batches(rt, hasher, words),
    }
}
