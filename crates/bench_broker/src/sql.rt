//! Fills a store in SQL, makes the steps of messages at QoS 2 in it or single commits, or loads it, and tells the time; for
//! bench/sql and bench/serve/run. Words: `fill`, `steps`, `commits` or `load`, a file, and two numbers: sessions and copies in each,
//! or how many messages or commits.

mod changes;
mod course;

use crate::sql::changes::Maker;
use crate::sql::course::{commits, counts, fill, messages};
use mqtt_keep::{Keep, KeepError};
use mqtt_serve::make_database;
use mqtt_store::SqlKeep;
use sqlite::{Alter, Connection};
use std::alloc::Global;
use std::time::{Clock, CpuClock, Duration};

/// What is done: its name, and two numbers.
#[derive(Clone, Copy)]
struct Deed<'a> {
    name: &'a str,
    count: u64,
    copies: u64,
}

/// A store over a connection.
fn store_over<S: Alter + Drop>(alloc: Global, conn: Connection<S>) -> anyhow::Result<SqlKeep<S>> {
    match SqlKeep::new(alloc, conn) {
        Ok(keep) => Ok(keep),
        Err((error, store)) => {
            drop(store);
            Err(error)?
        }
    }
}

/// What is found in a store: how many sessions, copies and publications, or why it is refused.
fn tell_load<K: Keep>(rt: &impl Print, keep: &mut K, alloc: Global) -> anyhow::Result<()> {
    match counts(keep, alloc) {
        Ok((sessions, copies, publications)) => {
            println!(rt; "sessions={sessions} copies={copies} publications={publications}")?;
        }
        Err(KeepError::Corrupt) => println!(rt; "Corrupt")?,
        Err(KeepError::Schema) => println!(rt; "Schema")?,
        Err(fault) => Err(fault)?,
    }
    Ok(())
}

/// Does a deed with a store; answers how long the longest message or commit took.
fn do_with<K: Keep>(
    rt: &impl Clock,
    keep: &mut K,
    maker: &Maker,
    deed: Deed<'_>,
) -> anyhow::Result<Duration> {
    match deed.name {
        "steps" => messages(rt, keep, maker, deed.count),
        "commits" => commits(rt, keep, maker, deed.count),
        _ => {
            fill(keep, maker, deed.count, deed.copies)?;
            Ok(Duration::ZERO)
        }
    }
}

/// Does a deed, and tells what is found if that is what is asked.
fn act<K: Keep>(
    rt: &(impl Print + Clock),
    keep: &mut K,
    alloc: Global,
    deed: Deed<'_>,
) -> anyhow::Result<Duration> {
    if deed.name == "load" {
        tell_load(rt, keep, alloc)?;
        return Ok(Duration::ZERO);
    }
    let maker = Maker::new(alloc)?;
    let done = do_with(rt, keep, &maker, deed);
    drop(maker);
    let longest = done?;
    println!(rt; "{} {} failures={}", deed.name, deed.count, keep.failures())?;
    Ok(longest)
}

/// Does a deed, and tells the seconds of the clock and of the processor on standard error.
fn measure<K: Keep>(
    rt: &(impl Print + Eprint + Clock + CpuClock),
    keep: &mut K,
    alloc: Global,
    deed: Deed<'_>,
) -> anyhow::Result<()> {
    let begun = (rt.monotonic()?, rt.process_cpu_time()?);
    let longest = act(rt, keep, alloc, deed)?;
    let clock = rt.monotonic()?.saturating_sub(begun.0);
    let processor = rt.process_cpu_time()?.saturating_sub(begun.1);
    eprintln!(rt;
        "{} {}.{:06} {}.{:06} longest={}us",
        deed.name,
        clock.as_secs(),
        clock.subsec_micros(),
        processor.as_secs(),
        processor.subsec_micros(),
        longest.as_micros()
    )?;
    Ok(())
}

/// The same in memory.
fn measure_in_memory(rt: &HostRuntime, deed: Deed<'_>) -> anyhow::Result<()> {
    let alloc = rt.alloc();
    let mut keep = store_over(alloc, Connection::open_in_memory(alloc)?)?;
    let done = measure(rt, &mut keep, alloc, deed);
    drop(keep);
    done
}

/// The same in a file, which is closed at the end.
fn measure_in_file(rt: &HostRuntime, path: &str, deed: Deed<'_>) -> anyhow::Result<()> {
    let alloc = rt.alloc();
    let mut keep = store_over(alloc, Connection::open(rt, path)?)?;
    let done = measure(rt, &mut keep, alloc, deed);
    let closed = keep.into_inner().close();
    done?;
    closed?;
    Ok(())
}

/// The same at a place: in memory, or in a file.
fn measure_at(rt: &HostRuntime, place: &str, deed: Deed<'_>) -> anyhow::Result<()> {
    if place == ":memory:" {
        return measure_in_memory(rt, deed);
    }
    // A new file is as the server makes it.
    let _made = make_database(rt, place)?;
    measure_in_file(rt, place, deed)
}

/// The number that a word says; 100 if there is none.
fn number(word: Option<&String>) -> anyhow::Result<u64> {
    match word {
        Some(word) => Ok(word.parse::<u64>()?),
        None => Ok(100),
    }
}

/// Does what the words ask for; the steps of messages in memory if there is none.
pub(crate) fn run(rt: &HostRuntime, words: &[String]) -> anyhow::Result<()> {
    let name = words.first().map_or("steps", |word| word.as_str());
    let place = words.get(1).map_or(":memory:", |word| word.as_str());
    let count = number(words.get(2))?;
    let copies = number(words.get(3))?;
    let deed = Deed {
        name,
        count,
        copies,
    };
    measure_at(rt, place, deed)
}
