//! A turn of the server (MQTT 5.0, 4.2).
ghost use Rattle.std.specs.Prelude.{◌≡◌, ◌≢◌, ◌≤◌, [], length, OnOk, IfOk, IfErr};
ghost use Rattle.mqtt_link.specs.Links.{waited};
ghost use Rattle.mqtt_serve.specs.turns.Breaks.{BreaksAll, BreaksBelow, BreaksOff, BreaksTicks};
ghost use Rattle.mqtt_serve.specs.turns.Related.{Related};
ghost use Rattle.mqtt_serve.specs.turns.Resting.{IsNextServed};
ghost use Rattle.mqtt_serve.specs.turns.Wires.{WritesLast};
ghost use Rattle.mqtt_serve.specs.turns.Turns.{server, hosting, HasTurn, ServesAll, ServesBelow, Ticks};

use crate::journal::{Journal, Quiet};
use crate::turns::accepting::accept;
use crate::turns::asking::tick;
use crate::turns::connection::Connection;
use crate::turns::connections::Connections;
use crate::turns::line::serve_at;
use mqtt_broker::Engine;
use mqtt_broker_step::EngineError;
use mqtt_keep::Keep;
use mqtt_link::Link;
use std::alloc::{AllocError, Global};
use std::marker::Model;

/// The most bytes that are read from a connection in a turn (ours).
pub const READ_LIMIT: usize = 4_096;

/// The most turns of the clock in a turn (ours).
pub const TICK_LIMIT: usize = 16;

/// How many milliseconds turns may be brisk behind a full one (ours).
pub const FULL_TURN_EVERY: u64 = 16;

/// Which connections have their turn.
#[derive(Clone, Copy, Debug, PartialEq, Eq)]
pub enum Pace {
    /// Each.
    Full,
    /// Those for which something may have come about. Others are passed over.
    Brisk,
}

/// A link and its connections, in the order in which they came.
#[derive(Drop)]
pub struct Links<L: Link + Drop> {
    pub(crate) alloc: Global,
    pub(crate) link: L,
    pub(crate) lines: Connections<L>,
    /// In which span of milliseconds the server last chose whom to leave unread.
    pub(crate) chosen: Option<u64>,
}

impl<L: Link + Drop> Model for Links<L> {
    ghost use Rattle.mqtt_serve.specs.turns.Turns.{Linked};

    ghost Value = { Linked };

    ghost view = { λ l. record { calls = L.calls l.link; wires = l.lines } };
}

impl<L: Link + Drop> Links<L> {
    /// A link without connections, with room for 1,000 (ours). The one fault is want of memory.
    pub fn new(alloc: Global, link: L) -> Result<Links<L>, AllocError>
        ensures calls { IfOk result (λ links. links.calls ≡ L.calls link) }
        ensures wires { IfOk result (λ links. links.wires ≡ []) }
    {
        let lines = Connections::new(alloc)?;
        Ok(Links {
            alloc,
            link,
            lines,
            chosen: None,
        })
    }

    /// The link.
    pub fn link(&self) -> &L {
        &self.link
    }

    /// Waits a little, or until a connection changes. The connections stay as they are.
    pub fn wait(&mut self)
        ensures calls { self.new.calls ≡ waited self.old.calls }
        ensures wires { self.new.wires ≡ self.old.wires }
    {
        self.link.wait();
    }

    /// How many connections there are.
    pub fn len(&self) -> usize
        ensures { result ≡ length self.now.wires }
    {
        self.lines.len()
    }
}

/// The next connection from a place on that has its turn: in a full turn the one there, in a brisk one the next that is awake.
fn next_served<L: Link>(lines: &Connections<L>, pace: Pace, from: usize) -> Option<usize>
    requires within { from ≤ length lines.now }
    ensures { IsNextServed pace from lines.now result }
{
    match pace {
        Pace::Full if from < lines.len() => Some(from),
        Pace::Full => None,
        Pace::Brisk => lines.next_awake(from),
    }
}

/// Each connection has its turn, in order; in a brisk turn those are passed over for which nothing came about. Whether bytes went
/// in or out.
fn serve_lines<L: Link, K: Keep, J: Journal>(
    link: &mut L,
    lines: &mut Connections<L>,
    engine: &mut Engine<K>,
    pace: Pace,
    moment: u64,
    journal: &mut J,
) -> Result<bool, EngineError>
    ensures serves { IfOk result (λ moved. ServesBelow K.Keep pace moment (length lines.old) moved
        (server engine.old lines.old) (server engine.new lines.new)) }
    ensures same { L.calls link.new ≡ L.calls link.old }
    ensures refused { IfErr result (λ error. error ≢ EngineError.Memory) }
    ensures breaks { IfErr result (λ error. BreaksBelow K.Keep pace moment (length lines.old) error
        (server engine.old lines.old) (server engine.new lines.new)) }
{
    let mut buffer = [0_u8; READ_LIMIT];
    let mut busy = false;
    let mut from = 0;
    lines.wake_told(link);
    while let Some(place) = next_served(lines, pace, from) {
        busy |= serve_at(
            link,
            lines,
            engine,
            place,
            pace,
            moment,
            &mut buffer,
            journal,
        )?;
        from = lines.behind(place);
    }
    Ok(busy)
}

/// Turns of the clock, while more may be due.
fn tick_all<L: Link, K: Keep, J: Journal>(
    lines: &mut Connections<L>,
    engine: &mut Engine<K>,
    moment: u64,
    journal: &mut J,
) -> Result<(), EngineError>
    ensures ticks { OnOk result (Ticks K.Keep moment TICK_LIMIT
        (server engine.old lines.old) (server engine.new lines.new)) }
    ensures refused { IfErr result (λ error. error ≢ EngineError.Memory) }
    ensures breaks { IfErr result (λ error. BreaksTicks K.Keep moment TICK_LIMIT error
        (server engine.old lines.old) (server engine.new lines.new)) }
{
    for _ in 0..TICK_LIMIT {
        if !tick(lines, engine, moment, journal)? {
            return Ok(());
        }
    }
    Ok(())
}

/// What waits on connections that the broker closed is written once more.
fn write_closed<L: Link>(link: &mut L, lines: &mut Connections<L>)
    ensures writes { Related (λ x y. WritesLast x.fate x y) lines.old lines.new }
    ensures same { L.calls link.new ≡ L.calls link.old }
{
    let mut from = 0;
    while let Some(place) = lines.next_awake(from) {
        lines.write_last_at(link, place);
        from = lines.behind(place);
    }
}

/// Each connection has its turn, unless it is passed over, then the clock; what waits on connections that the broker closed is
/// written once more. Whether bytes went in or out.
pub(crate) fn serve_all<L: Link, K: Keep, J: Journal>(
    link: &mut L,
    lines: &mut Connections<L>,
    engine: &mut Engine<K>,
    pace: Pace,
    moment: u64,
    journal: &mut J,
) -> Result<bool, EngineError>
    ensures serves { IfOk result (λ moved. ServesAll K.Keep pace moment moved
        (server engine.old lines.old) (server engine.new lines.new)) }
    ensures same { L.calls link.new ≡ L.calls link.old }
    ensures refused { IfErr result (λ error. error ≢ EngineError.Memory) }
    ensures breaks { IfErr result (λ error. BreaksAll K.Keep pace moment error
        (server engine.old lines.old) (server engine.new lines.new)) }
{
    let moved = serve_lines(link, lines, engine, pace, moment, journal)?;
    tick_all(lines, engine, moment, journal)?;
    write_closed(link, lines);
    Ok(moved)
}

/// A turn: at most one connection is accepted; each connection is read once, the broker is given what came and sends,
/// and what waits is written once; then the clock has its turns, and connections that the broker closed are dropped.
/// Ok says whether a connection or bytes came or went. `Stopped` (2) and `Spent` (3) are the engine's.
pub fn serve_turn<L: Link + Drop, K: Keep>(
    links: &mut Links<L>,
    engine: &mut Engine<K>,
    moment: u64,
) -> Result<bool, EngineError>
    ensures turn { IfOk result (λ busy. HasTurn K.Keep moment busy
        (hosting engine.old links.old) (hosting engine.new links.new)) }
    ensures refused { IfErr result (λ error. error ≢ EngineError.Memory) }
    ensures breaks { IfErr result (λ error. BreaksOff K.Keep Pace.Full moment error
        (hosting engine.old links.old) (hosting engine.new links.new)) }
{
    let (alloc, link, lines) = (links.alloc, &mut links.link, &mut links.lines);
    let came = accept(alloc, link, lines, engine, moment, &mut Quiet);
    let moved = serve_all(link, lines, engine, Pace::Full, moment, &mut Quiet)?;
    lines.drop_closed(link);
    Ok(came | moved)
}
