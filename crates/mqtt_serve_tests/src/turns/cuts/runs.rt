//! Runs of the server over a store, up to a cut (MQTT 5.0, 4.1).
use crate::turns::course::{Seen, look};
use crate::turns::cuts::peers::{Known, Peers};
use crate::turns::stretches::stretch;
use crate::turns::turns::LIMITS;
use mqtt_broker::Engine;
use mqtt_keep::{Keep, Settles};
use mqtt_link::{Commit, HeldBack};
use mqtt_serve::{Gathered, Links, serve_turn};
use std::alloc::Global;
use std::hash::RandomState;

/// How many stretches the server is given that isn't cut.
const STRETCHES: u64 = 12;

/// How a run is to go.
#[derive(Clone, Copy, Debug)]
pub(crate) struct Plan {
    /// What the clients know who come.
    pub(crate) known: Known,
    /// How many writes to them are taken.
    pub(crate) writes: u64,
    /// When the server begins, in milliseconds.
    pub(crate) begin: u64,
    /// Whether each turn is stored only after its answers have gone out, which is wrong.
    pub(crate) is_hasty: bool,
    /// Whether what is stored is looked at before and after it.
    pub(crate) is_watched: bool,
}

/// How far a run came.
#[derive(Clone, Copy, Debug, PartialEq, Eq)]
pub(crate) struct Ran {
    /// How many stretches were stored.
    pub(crate) stored: u64,
    /// Whether the next broke off.
    pub(crate) is_broken: bool,
    /// Whether a write was not taken after the last that was stored.
    pub(crate) is_cut: bool,
}

/// What came of a run.
#[derive(Clone, Copy, Debug)]
pub(crate) struct Told {
    /// What was stored before; none if the store couldn't be loaded, or wasn't looked at.
    pub(crate) before: Option<Seen>,
    /// How far it came; none if the broker couldn't be opened.
    pub(crate) ran: Option<Ran>,
    /// What the clients know then.
    pub(crate) known: Known,
    /// What is stored then, as before.
    pub(crate) after: Option<Seen>,
}

/// Connections to both clients that hold back what is written.
type Held = Links<HeldBack<Peers>>;

/// Stretches a millisecond each, up to one that breaks off or after which a write isn't taken.
fn run<K: Settles>(links: &mut Held, engine: &mut Engine<K>, begin: u64) -> Ran {
    for stored in 0..STRETCHES {
        let is_broken = stretch(links, engine, begin.saturating_add(stored)).is_err();
        let is_cut = links.link().link().is_cut();
        if is_broken || is_cut {
            return Ran {
                stored: if is_broken { stored } else { stored + 1 },
                is_broken,
                is_cut,
            };
        }
    }
    Ran {
        stored: STRETCHES,
        is_broken: false,
        is_cut: false,
    }
}

/// A turn whose answers go out at once, and which is stored after that. Whether it was had, and stored.
fn turn_hastily<K: Settles>(links: &mut Links<Peers>, engine: &mut Engine<K>, moment: u64) -> bool {
    if serve_turn(links, engine, moment).is_err() || links.link().is_cut() {
        return false;
    }
    engine.settle().is_ok()
}

/// As `run`, by such turns.
fn run_hastily<K: Settles>(links: &mut Links<Peers>, engine: &mut Engine<K>, begin: u64) -> Ran {
    for stored in 0..STRETCHES {
        if !turn_hastily(links, engine, begin.saturating_add(stored)) {
            return Ran {
                stored,
                is_broken: true,
                is_cut: links.link().is_cut(),
            };
        }
    }
    Ran {
        stored: STRETCHES,
        is_broken: false,
        is_cut: false,
    }
}

/// A broker over a store, which gathers the steps of a stretch; the store, if it can't be opened.
fn opened<K: Settles>(
    alloc: Global,
    keep: K,
    begin: u64,
    hasher: RandomState,
) -> Result<Engine<Gathered<K>>, K> {
    let keep = Gathered::new(alloc, keep, Commit::Turn);
    match Engine::open(alloc, keep, begin, LIMITS, hasher) {
        Ok(engine) => Ok(engine),
        Err((keep, _)) => Err(keep.into_inner()),
    }
}

/// A run over a store: how far it came, and the store.
fn run_over<K: Settles>(
    links: &mut Held,
    alloc: Global,
    keep: K,
    begin: u64,
    hasher: RandomState,
) -> (Option<Ran>, K) {
    match opened(alloc, keep, begin, hasher) {
        Ok(engine) => {
            let mut engine = engine;
            let ran = run(links, &mut engine, begin);
            (Some(ran), engine.close().into_inner())
        }
        Err(keep) => (None, keep),
    }
}

/// The same by turns that are stored too late.
fn run_hastily_over<K: Settles>(
    links: &mut Links<Peers>,
    alloc: Global,
    keep: K,
    begin: u64,
    hasher: RandomState,
) -> (Option<Ran>, K) {
    match opened(alloc, keep, begin, hasher) {
        Ok(engine) => {
            let mut engine = engine;
            let ran = run_hastily(links, &mut engine, begin);
            (Some(ran), engine.close().into_inner())
        }
        Err(keep) => (None, keep),
    }
}

/// A run as it is planned: how far it came, what the clients know then, and the store.
fn run_plan<K: Settles>(
    alloc: Global,
    keep: K,
    plan: Plan,
    hasher: RandomState,
) -> (Option<Ran>, Known, K) {
    let peers = Peers::new(alloc, plan.known, plan.writes);
    let Ok(mut links) = Links::new(alloc, HeldBack::new(alloc, peers)) else {
        return (None, plan.known, keep);
    };
    let (ran, keep) = run_over(&mut links, alloc, keep, plan.begin, hasher);
    let known = links.link().link().known();
    drop(links);
    (ran, known, keep)
}

/// The same by turns that are stored too late.
fn run_plan_hastily<K: Settles>(
    alloc: Global,
    keep: K,
    plan: Plan,
    hasher: RandomState,
) -> (Option<Ran>, Known, K) {
    let peers = Peers::new(alloc, plan.known, plan.writes);
    let Ok(mut links) = Links::new(alloc, peers) else {
        return (None, plan.known, keep);
    };
    let (ran, keep) = run_hastily_over(&mut links, alloc, keep, plan.begin, hasher);
    let known = links.link().known();
    drop(links);
    (ran, known, keep)
}

/// Either, as the plan says.
fn run_either<K: Settles>(
    alloc: Global,
    keep: K,
    plan: Plan,
    hasher: RandomState,
) -> (Option<Ran>, Known, K) {
    if plan.is_hasty {
        return run_plan_hastily(alloc, keep, plan, hasher);
    }
    run_plan(alloc, keep, plan, hasher)
}

/// What a store has, if it is to be looked at.
fn look_if<K: Keep>(alloc: Global, keep: &mut K, is_watched: bool) -> Option<Seen> {
    if is_watched { look(alloc, keep) } else { None }
}

/// A run as it is planned, with what is stored before and after it; and the store.
pub(crate) fn act<K: Settles>(
    alloc: Global,
    keep: K,
    plan: Plan,
    hasher: RandomState,
) -> (Told, K) {
    let mut keep = keep;
    let before = look_if(alloc, &mut keep, plan.is_watched);
    let (ran, known, keep) = run_either(alloc, keep, plan, hasher);
    let mut keep = keep;
    let after = look_if(alloc, &mut keep, plan.is_watched);
    let told = Told {
        before,
        ran,
        known,
        after,
    };
    (told, keep)
}
