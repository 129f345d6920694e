//! A script is played by a broker that is opened over a store, and what the store has then is told.

use crate::engine::refuses_all;
use crate::kept::{tell_contents, tell_records};
use crate::play::{Play, Stop};
use crate::telling::Telling;
use mqtt_broker::{Engine, Keep, KeepError, Limits};
use mqtt_records::Records;
use std::alloc::Global;
use std::hash::RandomState;

/// Which lines of a script are played.
#[derive(Clone, Copy)]
pub struct Part {
    /// How many.
    pub count: usize,
    /// Those behind this word aren't.
    pub passed_over: &'static str,
    /// How many calls of the broker are made at most, openings among them.
    pub calls: u64,
}

impl Part {
    /// The script as it is.
    pub fn whole() -> Part {
        Part::of(usize::MAX)
    }

    /// So many lines of it.
    pub fn of(count: usize) -> Part {
        Part {
            count,
            passed_over: "-",
            calls: u64::MAX,
        }
    }

    /// As much of it as so many calls of the broker do.
    pub fn of_calls(calls: u64) -> Part {
        Part {
            count: usize::MAX,
            passed_over: "-",
            calls,
        }
    }

    /// The script without what is refused.
    pub fn without() -> Part {
        Part {
            count: usize::MAX,
            passed_over: "+",
            calls: u64::MAX,
        }
    }
}

/// How a script was played.
#[derive(Drop)]
pub struct Played {
    /// How many lines were played.
    pub lines: usize,
    /// Whether each told what it says.
    pub is_right: bool,
    /// What the last one told.
    pub told: Telling,
    /// What the store has.
    pub kept: Telling,
    /// How many failures the store had counted by then.
    pub failures: u64,
    /// How many calls of the broker were made, openings among them.
    pub asked: u64,
    /// Whether a broker whose store had failed refused all that it was asked for then.
    pub refuses_all: bool,
    /// How many calls were answered so that memory was wanting.
    pub wanted: u64,
}

/// Opens a broker over a store.
fn open<K: Keep>(
    alloc: Global,
    hasher: RandomState,
    keep: K,
    play: &Play,
) -> Result<Engine<K>, (K, KeepError)> {
    let limits = Limits {
        full: play.limits.full,
        queue: play.limits.queue.min(1000),
        sessions: play.limits.sessions.min(1000),
        retained: play.limits.retained.min(1000),
    };
    Engine::open(alloc, keep, play.moment, limits, hasher)
}

/// And once more if memory was wanting; not if as many calls were made.
fn opened<K: Keep>(
    alloc: Global,
    hasher: RandomState,
    keep: K,
    play: &mut Play,
) -> Result<Engine<K>, (K, KeepError)> {
    if !play.asking.goes_on() {
        return Err((keep, KeepError::Disk));
    }
    match open(alloc, hasher, keep, play) {
        Err((keep, KeepError::Memory)) => {
            play.asking.want();
            open(alloc, hasher, keep, play)
        }
        answer => answer,
    }
}

/// Plays by a broker that is opened, and asks it for everything if its store has failed.
fn play_by<K: Keep>(
    engine: &mut Engine<K>,
    play: &mut Play,
    turned: &mut Telling,
    script: &str,
    count: usize,
) -> Stop {
    let stop = play.play(engine, turned, script, count);
    if play.asking.is_stopped {
        play.refuses_all = refuses_all(engine, play.moment);
    }
    stop
}

fn tell_fault(told: &mut Telling, fault: KeepError) {
    told.clear();
    told.word(match fault {
        KeepError::Memory => "Memory",
        KeepError::Disk => "Disk",
        KeepError::Size => "Size",
        KeepError::Corrupt => "Corrupt",
        KeepError::Schema => "Schema",
    });
}

/// Plays until the broker is to be opened anew.
fn play_once<K: Keep>(
    alloc: Global,
    hasher: RandomState,
    keep: K,
    play: &mut Play,
    turned: &mut Telling,
    script: &str,
    count: usize,
) -> (K, Stop) {
    match opened(alloc, hasher, keep, play) {
        Ok(engine) => {
            let mut engine = engine;
            let stop = play_by(&mut engine, play, turned, script, count);
            (engine.close(), stop)
        }
        Err((keep, fault)) => {
            tell_fault(&mut play.told, fault);
            (keep, Stop::Other)
        }
    }
}

/// Plays to the end; answers whether each line told what it says.
fn play_all<K: Keep>(
    alloc: Global,
    hasher: RandomState,
    keep: K,
    play: &mut Play,
    turned: &mut Telling,
    script: &str,
    count: usize,
) -> (K, bool) {
    let mut keep = keep;
    for _ in 0..=script.len() {
        let (back, stop) = play_once(alloc, hasher, keep, play, turned, script, count);
        keep = back;
        match stop {
            Stop::Restart => {}
            Stop::End => return (keep, true),
            Stop::Other => return (keep, false),
        }
    }
    (keep, false)
}

/// Tells what the waiting copies of a loaded store say.
fn tell_waiting<K: Keep>(
    alloc: Global,
    told: &mut Telling,
    keep: &mut K,
    records: &Records,
) -> Result<(), KeepError>
    requires { K.Keep.is_loaded keep.old }
{
    for session in records.sessions.as_slice() {
        let contents = keep.contents(alloc, session.get().birth, 0, u32::MAX)?;
        tell_contents(told, &contents);
        drop(contents);
    }
    Ok(())
}

/// Tells the rows of a store, and what its waiting copies say.
fn tell_once<K: Keep>(alloc: Global, told: &mut Telling, keep: &mut K) -> Result<(), KeepError> {
    let records = keep.load(alloc)?;
    tell_records(told, &records);
    let answer = tell_waiting(alloc, told, keep, &records);
    drop(records);
    answer
}

/// Tells what a store has; it is asked once more if that fails.
pub fn tell_kept<K: Keep>(alloc: Global, told: &mut Telling, keep: &mut K) {
    if tell_once(alloc, told, keep).is_err() {
        told.clear();
        if let Err(fault) = tell_once(alloc, told, keep) {
            tell_fault(told, fault);
        }
    }
}

/// How a play ended, by which so many failures were counted. What the store has is not told.
fn end(alloc: Global, play: Play, is_right: bool, failures: u64) -> Played {
    let (asking, refuses_all) = (play.asking, play.refuses_all);
    let (lines, told) = play.end();
    Played {
        lines,
        is_right,
        told,
        kept: Telling::new(alloc),
        failures,
        asked: asking.asked,
        refuses_all,
        wanted: asking.wanted,
    }
}

/// Plays a script by a broker that is opened over a store at the moment 0; gives the store back. What it has is not told.
pub fn play_untold<K: Keep>(
    alloc: Global,
    hasher: RandomState,
    keep: K,
    script: &str,
    part: Part,
) -> (K, Played) {
    let mut play = Play::new(alloc, part.passed_over, part.calls);
    let mut turned = Telling::new(alloc);
    let (keep, is_right) = play_all(
        alloc,
        hasher,
        keep,
        &mut play,
        &mut turned,
        script,
        part.count,
    );
    if turned.is_short() {
        play.told.shorten();
    }
    drop(turned);
    let failures = keep.failures();
    (keep, end(alloc, play, is_right, failures))
}

/// The same, and what the store has is told.
pub fn play_over<K: Keep>(
    alloc: Global,
    hasher: RandomState,
    keep: K,
    script: &str,
    part: Part,
) -> (K, Played) {
    let (keep, played) = play_untold(alloc, hasher, keep, script, part);
    let (mut keep, mut played) = (keep, played);
    tell_kept(alloc, &mut played.kept, &mut keep);
    (keep, played)
}
