//! Turns of the server whose steps are stored together, before anything of them goes out (MQTT 5.0, 4.1, 4.2).
ghost use Rattle.std.specs.Prelude.{◌≡◌, ◌≢◌, ◌≤◌, ◌<◌, true, length, IfOk, IfErr, IsTrue, OnOk};
ghost use Rattle.mqtt_serve.specs.turns.Breaks.{BreaksOff};
ghost use Rattle.mqtt_serve.specs.turns.Settled.{IsStoredOrPutOff, LetsGoBelow, RunsSettledFor, RunsSettledUntil, RunsStretch, RunsStretchUntil, RunsTogether, RunsTogetherUntil, ServedTurn, StoresNothing};
ghost use Rattle.mqtt_serve.specs.turns.Turns.{server, hosting, pace_of};

use crate::journal::Journal;
use crate::turns::accepting::accept;
use crate::turns::connections::Connections;
use crate::turns::holding::hold;
use crate::turns::running::{Timer, rest_behind};
use crate::turns::turn::{FULL_TURN_EVERY, Links, Pace, serve_all};
use mqtt_broker::Engine;
use mqtt_broker_step::EngineError;
use mqtt_keep::Settles;
use mqtt_link::{HeldBack, Link};

/// The most turns that are stored together (ours): a disk that takes 10 ms a sync takes them at once for eight reads of each
/// connection.
pub const TURNS_TOGETHER: u32 = 8;

/// Turns that were had.
#[derive(Clone, Copy, Debug)]
pub struct Had {
    /// How many.
    pub turns: u32,
    /// The moment of the last, in milliseconds.
    pub last: u64,
    /// Whether anything came or went in the last, or went out after it.
    pub busy: bool,
}

/// What is held back on each connection goes out, in order. Whether bytes did.
fn let_go_all<L: Link + Drop>(link: &mut HeldBack<L>, lines: &mut Connections<HeldBack<L>>) -> bool
    ensures lets { LetsGoBelow (length lines.old) result lines.old lines.new }
    ensures len { length lines.new ≡ length lines.old }
    ensures same { L.calls link.new.link ≡ L.calls link.old.link }
{
    let mut went = false;
    let mut from = 0;
    while let Some(place) = lines.next_awake(from) {
        went |= lines.let_go_at(link, place);
        from = lines.behind(place);
    }
    went
}

/// What the turns did is stored; then what is held back goes out, and connections that the broker closed are dropped. For
/// want of memory nothing goes out, and nothing is dropped. Whether bytes went out. `Stopped` (2) is the engine's.
fn store_turn<L: Link + Drop, K: Settles>(
    link: &mut HeldBack<L>,
    lines: &mut Connections<HeldBack<L>>,
    engine: &mut Engine<K>,
) -> Result<bool, EngineError>
    ensures stores { IfOk result (λ went. IsStoredOrPutOff K.Keep went
        (server engine.old lines.old) (server engine.new lines.new)) }
    ensures breaks { IfErr result (λ error. StoresNothing K.Keep error
        (server engine.old lines.old) (server engine.new lines.new)) }
    ensures same { L.calls link.new.link ≡ L.calls link.old.link }
{
    match engine.settle() {
        Ok(()) => {
            let went = let_go_all(link, lines);
            lines.drop_closed(link);
            Ok(went)
        }
        Err(EngineError::Memory) => Ok(false),
        Err(error) => Err(error),
    }
}

/// Whether a turn is full or brisk, by the moments of the turn before it and of itself.
fn pace_of(last: u64, now: u64) -> Pace
    ensures { result ≡ pace_of last now }
{
    if now / FULL_TURN_EVERY == last / FULL_TURN_EVERY {
        Pace::Brisk
    } else {
        Pace::Full
    }
}

/// A turn whose steps are not stored yet: that of `serve_turn` over a link that holds back what is written, but that connections
/// that the broker closed aren't dropped, and that a brisk one passes connections over. Whether a connection or bytes came or
/// went. `Stopped` (2) and `Spent` (3) are the engine's.
fn serve_unstored<L: Link + Drop, K: Settles, J: Journal>(
    links: &mut Links<HeldBack<L>>,
    engine: &mut Engine<K>,
    pace: Pace,
    moment: u64,
    journal: &mut J,
) -> Result<bool, EngineError>
    ensures turn { IfOk result (λ busy. ServedTurn K.Keep pace moment busy
        (hosting engine.old links.old) (hosting engine.new links.new)) }
    ensures refused { IfErr result (λ error. error ≢ EngineError.Memory) }
    ensures breaks { IfErr result (λ error. BreaksOff K.Keep pace moment error
        (hosting engine.old links.old) (hosting engine.new links.new)) }
{
    let (alloc, link, lines) = (links.alloc, &mut links.link, &mut links.lines);
    let came = accept(alloc, link, lines, engine, moment, journal);
    let moved = serve_all(link, lines, engine, pace, moment, journal)?;
    Ok(came | moved)
}

/// Such a turn, in which connections that are held are left unread.
fn serve_chosen<L: Link + Drop, K: Settles, J: Journal>(
    links: &mut Links<HeldBack<L>>,
    engine: &mut Engine<K>,
    pace: Pace,
    moment: u64,
    journal: &mut J,
) -> Result<bool, EngineError>
    ensures turn { IfOk result (λ busy. ServedTurn K.Keep pace moment busy
        (hosting engine.old links.old) (hosting engine.new links.new)) }
    ensures refused { IfErr result (λ error. error ≢ EngineError.Memory) }
    ensures breaks { IfErr result (λ error. BreaksOff K.Keep pace moment error
        (hosting engine.old links.old) (hosting engine.new links.new)) }
{
    hold(links, engine, moment);
    serve_unstored(links, engine, pace, moment, journal)
}

/// What the turns did is stored, as `store_turn` does.
fn store_all<L: Link + Drop, K: Settles>(
    links: &mut Links<HeldBack<L>>,
    engine: &mut Engine<K>,
) -> Result<bool, EngineError>
    ensures stores { IfOk result (λ went. IsStoredOrPutOff K.Keep went
        (server engine.old links.old.wires) (server engine.new links.new.wires)) }
    ensures breaks { IfErr result (λ error. StoresNothing K.Keep error
        (server engine.old links.old.wires) (server engine.new links.new.wires)) }
    ensures same { links.new.calls ≡ links.old.calls }
{
    store_turn(&mut links.link, &mut links.lines, engine)
}

/// Whether the next turn comes before what was done is stored. Never after a turn in which nothing came or went, nor while a
/// connection that the broker closed is to be dropped, or one has little room left. After the first turn else, if something came
/// or went on two connections, or something is to be sent on one; and after any if a read filled its buffer, so that more is at
/// hand.
fn goes_on<L: Link + Drop>(links: &Links<L>, busy: bool, before: u32) -> bool
    ensures { IsTrue result → busy ≡ true }
{
    if !busy {
        return false;
    }
    let (mut one, mut two, mut more) = (false, false, false);
    let mut from = 0;
    while let Some(place) = links.lines.next_awake(from) {
        let line = links.lines.at(place);
        if !line.can_wait() {
            return false;
        }
        two |= one && line.has_moved();
        one |= line.has_moved();
        more |= line.has_more() || (before == 0 && line.has_new());
        from = links.lines.behind(place);
    }
    more || (before == 0 && two)
}

/// At least one turn, and at most so many, none of which is stored yet, each at the greatest moment that the clock has told. The
/// first in each span of 16 milliseconds is full: so no connection is passed over for longer.
fn serve_together<L: Link + Drop, K: Settles, T: Timer, J: Journal>(
    links: &mut Links<HeldBack<L>>,
    engine: &mut Engine<K>,
    timer: &mut T,
    limit: u32,
    begin: u64,
    journal: &mut J,
) -> Result<Had, EngineError>
    requires some { 0 < limit }
    requires few { limit ≤ TURNS_TOGETHER }
    ensures turns { IfOk result (λ had. RunsTogether K.Keep begin had.turns had.last had.busy (T.told timer.old) (T.told timer.new)
        (hosting engine.old links.old) (hosting engine.new links.new)) }
    ensures within { IfOk result (λ had. (0 < had.turns) × (had.turns ≤ limit)) }
    ensures refused { IfErr result (λ error. error ≢ EngineError.Memory) }
    ensures breaks { IfErr result (λ error. RunsTogetherUntil K.Keep begin limit error (T.told timer.old) (T.told timer.new)
        (hosting engine.old links.old) (hosting engine.new links.new)) }
{
    let mut last = begin;
    for before in 0..limit {
        let now = timer.now();
        let pace = pace_of(last, now);
        last = last.max(now);
        let busy = serve_chosen(links, engine, pace, last, journal)?;
        if !goes_on(links, busy, before) {
            return Ok(Had {
                turns: before + 1,
                last,
                busy,
            });
        }
    }
    Ok(Had {
        turns: limit,
        last,
        busy: true,
    })
}

/// A stretch: turns over a link that holds back what is written, one to eight of them and at most so many, whose steps are stored
/// together, before anything of them goes out; and connections that the broker closed are dropped after that. For want of memory
/// nothing goes out, and the next stretch tries again. `Stopped` (2) and `Spent` (3) are the engine's; nothing of such a stretch
/// goes out.
pub fn serve_stretch<L: Link + Drop, K: Settles, T: Timer, J: Journal>(
    links: &mut Links<HeldBack<L>>,
    engine: &mut Engine<K>,
    timer: &mut T,
    limit: u32,
    begin: u64,
    journal: &mut J,
) -> Result<Had, EngineError>
    requires some { 0 < limit }
    ensures stretch { IfOk result (λ had. RunsStretch K.Keep begin had.turns had.last had.busy (T.told timer.old) (T.told timer.new)
        (hosting engine.old links.old) (hosting engine.new links.new)) }
    ensures within { IfOk result (λ had. (0 < had.turns) × (had.turns ≤ limit)) }
    ensures refused { IfErr result (λ error. error ≢ EngineError.Memory) }
    ensures breaks { IfErr result (λ error. RunsStretchUntil K.Keep begin limit error (T.told timer.old) (T.told timer.new)
        (hosting engine.old links.old) (hosting engine.new links.new)) }
{
    let had = serve_together(
        links,
        engine,
        timer,
        limit.min(TURNS_TOGETHER),
        begin,
        journal,
    )?;
    let went = store_all(links, engine)?;
    Ok(Had {
        turns: had.turns,
        last: had.last,
        busy: had.busy | went,
    })
}

/// Runs so many turns in stretches, the first from a moment on. The link is asked to wait after a stretch in which nothing came or
/// went, and after another if nothing is to be done at once. `Stopped` (2) and `Spent` (3) are the engine's.
pub fn run_settled_turns<L: Link + Drop, K: Settles, T: Timer, J: Journal>(
    links: &mut Links<HeldBack<L>>,
    engine: &mut Engine<K>,
    timer: &mut T,
    turns: u32,
    begin: u64,
    journal: &mut J,
) -> Result<(), EngineError>
    ensures ran { OnOk result (RunsSettledFor K.Keep begin turns (T.told timer.old) (T.told timer.new)
        (hosting engine.old links.old) (hosting engine.new links.new)) }
    ensures refused { IfErr result (λ error. error ≢ EngineError.Memory) }
    ensures breaks { IfErr result (λ error. RunsSettledUntil K.Keep begin turns error (T.told timer.old) (T.told timer.new)
        (hosting engine.old links.old) (hosting engine.new links.new)) }
{
    let mut left = turns;
    let mut last = begin;
    while left > 0 {
        let had = serve_stretch(links, engine, timer, left, last, journal)?;
        journal.rested(had.last, engine);
        rest_behind(links, had.busy);
        last = had.last;
        left -= had.turns;
    }
    Ok(())
}
