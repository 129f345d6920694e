//! Calls of a broker over the store in memory, and what stands in it.

use crate::engine::packets::{
    NARROW, QOS_0, QUEUED, RETURNING, SUBSCRIBE, SUBSCRIBE_QUEUED, answer, connect, publish,
    subscribe,
};
use anyhow::Context;
use mqtt_broker::{Engine, EngineError, Outcome};
use mqtt_keep::MemKeep;

/// How many publications go before their answers: a turn of sending has as many (4.9).
const BATCH: u8 = 16;

/// How many turns an idle one is measured by.
const IDLE_TURNS: u64 = 64;

/// How many times a client comes back.
const RETURNS: u64 = 16;

/// How many calls were made, and how many packets went out.
#[derive(Clone, Copy)]
pub(crate) struct Tally {
    pub(crate) steps: u64,
    pub(crate) sent: u64,
}

/// The publisher's line, and those of the readers: from the first to before the end.
#[derive(Clone, Copy)]
pub(crate) struct Lines {
    publisher: u64,
    first: u64,
    end: u64,
}

/// What stands beside those that are measured.
#[derive(Clone, Copy)]
pub(crate) struct Crowd {
    /// Sessions that went away.
    pub(crate) sessions: u64,
    /// Filters of each of them, which match nothing.
    pub(crate) filters: u64,
    /// Copies that wait in each.
    pub(crate) copies: u64,
}

/// What is done with a batch.
#[derive(Clone, Copy)]
pub(crate) enum Step {
    /// The publisher's PUBLISH at QoS 0.
    PublishAtOnce,
    /// The publisher's PUBLISH with this first byte, at QoS 1 or 2.
    Publish(u8),
    /// A turn of sending for each reader.
    Pump,
    /// What each reader answers to each identifier, by its first byte.
    Answer(u8),
    /// The publisher's PUBREL.
    Release,
    /// Turns of sending when nothing waits, or the window is full.
    IdlePump,
    /// Turns of the clock when nothing is due.
    IdleTick,
    /// A client comes back and goes, with a turn of the clock after each.
    Return,
}

impl Tally {
    /// Nothing was done yet.
    pub(crate) fn new() -> Tally {
        Tally { steps: 0, sent: 0 }
    }

    /// Counts a call.
    fn note(&mut self, answer: Result<Outcome, EngineError>) -> Result<(), EngineError> {
        let outcome = answer?;
        let sent = outcome.outputs.len() as u64;
        drop(outcome);
        self.steps = self.steps.wrapping_add(1);
        self.sent = self.sent.wrapping_add(sent);
        Ok(())
    }
}

/// Gives bytes that are one packet.
fn give(
    engine: &mut Engine<MemKeep>,
    tally: &mut Tally,
    line: u64,
    bytes: &[u8],
) -> Result<(), EngineError> {
    tally.note(engine.piece(line, bytes, 0))
}

/// A turn of sending.
fn pump(engine: &mut Engine<MemKeep>, tally: &mut Tally, line: u64) -> Result<(), EngineError> {
    tally.note(engine.pump(line, 0))
}

/// A turn of the clock.
fn tick(engine: &mut Engine<MemKeep>, tally: &mut Tally) -> Result<(), EngineError> {
    tally.note(engine.tick(0))
}

/// The end of a line.
fn lose(engine: &mut Engine<MemKeep>, tally: &mut Tally, line: u64) -> Result<(), EngineError> {
    tally.note(engine.lost(line, 0))
}

/// A line on which a client with a number has connected.
fn join(engine: &mut Engine<MemKeep>, tally: &mut Tally, number: u64) -> anyhow::Result<u64> {
    let line = engine.link(0).context("a line")?;
    give(engine, tally, line, &connect(number))?;
    Ok(line)
}

/// One of a crowd comes, subscribes, and goes away.
fn visit(
    engine: &mut Engine<MemKeep>,
    tally: &mut Tally,
    number: u64,
    crowd: Crowd,
) -> anyhow::Result<()> {
    let line = join(engine, tally, number)?;
    for turn in 0..crowd.filters {
        give(engine, tally, line, &subscribe(number.wrapping_add(turn)))?;
    }
    if crowd.copies > 0 {
        give(engine, tally, line, SUBSCRIBE_QUEUED)?;
    }
    lose(engine, tally, line)?;
    Ok(())
}

/// A publisher comes, a crowd comes and goes, and so many readers come.
pub(crate) fn gather(
    engine: &mut Engine<MemKeep>,
    crowd: Crowd,
    readers: u64,
) -> anyhow::Result<Lines> {
    let mut tally = Tally::new();
    let publisher = join(engine, &mut tally, 1)?;
    for turn in 0..crowd.sessions {
        visit(engine, &mut tally, turn.wrapping_add(100), crowd)?;
    }
    for _ in 0..crowd.copies {
        give(engine, &mut tally, publisher, QUEUED)?;
    }
    let first = publisher.wrapping_add(crowd.sessions).wrapping_add(1);
    for turn in 0..readers {
        let line = join(engine, &mut tally, turn.wrapping_add(2))?;
        give(engine, &mut tally, line, SUBSCRIBE)?;
    }
    Ok(Lines {
        publisher,
        first,
        end: first.wrapping_add(readers),
    })
}

/// A publisher comes, and a reader with a window of a batch, which is full: behind it so many copies wait.
pub(crate) fn fill(engine: &mut Engine<MemKeep>, copies: u64) -> anyhow::Result<Lines> {
    let mut tally = Tally::new();
    let publisher = join(engine, &mut tally, 1)?;
    let line = engine.link(0).context("a line")?;
    give(engine, &mut tally, line, NARROW)?;
    give(engine, &mut tally, line, SUBSCRIBE)?;
    for _ in 0..copies.saturating_add(u64::from(BATCH)) {
        give(engine, &mut tally, publisher, &publish(0x32, 1))?;
    }
    pump(engine, &mut tally, line)?;
    Ok(Lines {
        publisher,
        first: line,
        end: line.wrapping_add(1),
    })
}

/// The publisher's packets with each identifier.
fn publish_all(
    engine: &mut Engine<MemKeep>,
    tally: &mut Tally,
    line: u64,
    first: u8,
) -> Result<(), EngineError> {
    for identifier in 1..=BATCH {
        give(engine, tally, line, &publish(first, identifier))?;
    }
    Ok(())
}

/// A line's answers to each identifier.
fn answer_all(
    engine: &mut Engine<MemKeep>,
    tally: &mut Tally,
    line: u64,
    first: u8,
) -> Result<(), EngineError> {
    for identifier in 1..=BATCH {
        give(engine, tally, line, &answer(first, identifier))?;
    }
    Ok(())
}

/// What each reader's line does.
fn read(
    engine: &mut Engine<MemKeep>,
    tally: &mut Tally,
    lines: Lines,
    step: Step,
) -> Result<(), EngineError> {
    for line in lines.first..lines.end {
        match step {
            Step::Answer(first) => answer_all(engine, tally, line, first)?,
            _ => pump(engine, tally, line)?,
        }
    }
    Ok(())
}

/// Turns of sending, or of the clock, when there is nothing to do.
fn idle(
    engine: &mut Engine<MemKeep>,
    tally: &mut Tally,
    lines: Lines,
    step: Step,
) -> Result<(), EngineError> {
    for _ in 0..IDLE_TURNS {
        match step {
            Step::IdleTick => tick(engine, tally)?,
            _ => pump(engine, tally, lines.first)?,
        }
    }
    Ok(())
}

/// A client comes back to its session, and its connection is lost; after each the clock turns once.
fn come_and_go(engine: &mut Engine<MemKeep>, tally: &mut Tally) -> Result<(), EngineError> {
    let Some(line) = engine.link(0) else {
        return Err(EngineError::Spent);
    };
    give(engine, tally, line, RETURNING)?;
    tick(engine, tally)?;
    lose(engine, tally, line)?;
    tick(engine, tally)
}

/// The same, so many times.
fn come_back(engine: &mut Engine<MemKeep>, tally: &mut Tally) -> Result<(), EngineError> {
    for _ in 0..RETURNS {
        come_and_go(engine, tally)?;
    }
    Ok(())
}

/// What is done with a batch.
pub(crate) fn make(
    engine: &mut Engine<MemKeep>,
    tally: &mut Tally,
    lines: Lines,
    step: Step,
) -> Result<(), EngineError> {
    let publisher = lines.publisher;
    match step {
        Step::PublishAtOnce => {
            for _ in 0..BATCH {
                give(engine, tally, publisher, QOS_0)?;
            }
            Ok(())
        }
        Step::Publish(first) => publish_all(engine, tally, publisher, first),
        Step::Release => answer_all(engine, tally, publisher, 0x62),
        Step::Pump | Step::Answer(_) => read(engine, tally, lines, step),
        Step::IdlePump | Step::IdleTick => idle(engine, tally, lines, step),
        Step::Return => come_back(engine, tally),
    }
}
