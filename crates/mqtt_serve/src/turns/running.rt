//! Turns of the server, one after the other (MQTT 5.0, 4.2).
ghost use Rattle.std.specs.Prelude.{◌≡◌, ◌≢◌, ◌∷◌, [], ℕ, All, List, Option, None, false, OnOk, IfErr};
ghost use Rattle.mqtt_link.specs.Links.{and_then};
ghost use Rattle.mqtt_serve.specs.turns.Breaks.{RunsUntil};
ghost use Rattle.mqtt_serve.specs.turns.Settled.{CanWait, IsAtOnce};
ghost use Rattle.mqtt_serve.specs.turns.Turns.{hosting, rested, RunsFor};

use crate::turns::connection::Connection;
use crate::turns::connections::Connections;
use crate::turns::turn::{Links, serve_turn};
use mqtt_broker::Engine;
use mqtt_broker_step::EngineError;
use mqtt_keep::Keep;
use mqtt_link::{HeldBack, Link};

/// A clock. One that tells its moments has `told`; of another it says nothing.
pub trait Timer {
    /// The moments that it told, in order, if they are told.
    ghost told: { Self → Option (List ℕ) } = { λ _. None };

    /// The moment now, in whole milliseconds.
    fn now(&mut self) -> u64
        ensures { told self.new ≡ and_then (told self.old) (result ∷ []) };
}

/// Whether something is to go out on a connection that was not tried to be written yet.
fn has_new<L: Link>(lines: &Connections<L>) -> bool {
    let mut from = 0;
    while let Some(place) = lines.next_awake(from) {
        if lines.at(place).has_new() {
            return true;
        }
        from = lines.behind(place);
    }
    false
}

/// What a connection is told by the clock, or by one that had its turn behind it, is not to wait for the next wait to end.
fn hurry<L: Link + Drop>(links: &mut Links<L>)
    ensures { links.new ≡ links.old }
{
    if has_new(&links.lines) {
        links.link.hurry();
    }
}

/// Waits a little after a turn in which nothing came or went.
fn rest<L: Link + Drop>(links: &mut Links<L>, busy: bool)
    ensures { links.new ≡ rested busy links.old }
{
    if !busy {
        hurry(links);
        links.wait();
    }
}

impl<L: Link + Drop> Connection<HeldBack<L>> {
    /// Whether something is to be done on it before the link waits, behind a stretch that was busy: it is lost, something is to go
    /// out on it, or something may have come.
    fn is_awake(&self, link: &HeldBack<L>) -> bool
        ensures { result ≡ false → CanWait self.now }
    {
        self.is_lost() || self.has_new() || link.has_come(&self.peer)
    }
}

/// Whether something is to be done on a connection before the link waits, behind a stretch that was busy.
fn is_any_awake<L: Link + Drop>(link: &HeldBack<L>, lines: &Connections<HeldBack<L>>) -> bool
    ensures { result ≡ false → All CanWait lines.now }
{
    let mut from = 0;
    while let Some(place) = lines.next_awake(from) {
        if lines.at(place).is_awake(link) {
            return true;
        }
        from = lines.behind(place);
    }
    false
}

/// Behind a stretch the next comes at once, if this one was busy and something is to be done; else the link is asked to wait a
/// little. Whether it comes at once.
pub(crate) fn rest_behind<L: Link + Drop>(links: &mut Links<HeldBack<L>>, busy: bool) -> bool
    ensures at_once { IsAtOnce busy result links.old.wires }
    ensures rests { links.new ≡ rested result links.old }
{
    let at_once = busy && is_any_awake(&links.link, &links.lines);
    match (busy, at_once) {
        (false, _) => rest(links, false),
        (true, false) => links.wait(),
        (true, true) => {}
    }
    at_once
}

/// Runs so many turns from a moment on, each at the greatest moment that the clock has told. After one in which nothing was
/// accepted, read or written the link is asked to wait. `Stopped` (2) and `Spent` (3) are the engine's.
pub fn run_turns<L: Link + Drop, K: Keep, T: Timer>(
    links: &mut Links<L>,
    engine: &mut Engine<K>,
    timer: &mut T,
    turns: u32,
    begin: u64,
) -> Result<(), EngineError>
    ensures ran { OnOk result (RunsFor K.Keep begin turns (T.told timer.old) (T.told timer.new)
        (hosting engine.old links.old) (hosting engine.new links.new)) }
    ensures refused { IfErr result (λ error. error ≢ EngineError.Memory) }
    ensures breaks { IfErr result (λ error. RunsUntil K.Keep begin turns error (T.told timer.old) (T.told timer.new)
        (hosting engine.old links.old) (hosting engine.new links.new)) }
{
    let mut last = begin;
    for _ in 0..turns {
        last = last.max(timer.now());
        let busy = serve_turn(links, engine, last)?;
        rest(links, busy);
    }
    Ok(())
}
