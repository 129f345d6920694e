//! Who hears what happens while the server runs (ours).
use crate::causes::Cause;
use crate::journal::call::Call;
use mqtt_broker::{Engine, Outcome};
use mqtt_broker_step::EngineError;
use mqtt_keep::Keep;
use std::net::SocketAddr;

/// Who hears what happens while the server runs, each with its moment in milliseconds since 1970. It gets looks alone, so it changes
/// nothing of it. What it hears of a turn is stored later, and goes out after that.
pub trait Journal {
    /// The server listens at this address, over what its store held.
    fn began<K: Keep>(&mut self, moment: u64, address: SocketAddr, engine: &Engine<K>);

    /// A connection was accepted, and is linked as the line of this number. Its other side has this address, if that is known.
    fn accepted(&mut self, moment: u64, line: u64, peer: Option<SocketAddr>);

    /// A connection was accepted, and is dropped: as many are here as may be.
    fn dropped(&mut self, moment: u64, peer: Option<SocketAddr>);

    /// A call of the broker was answered, and left it so.
    fn answered<K: Keep>(
        &mut self,
        moment: u64,
        call: Call<'_>,
        engine: &Engine<K>,
        answer: &Result<Outcome, EngineError>,
    );

    /// Turns have ended whose steps are stored together.
    fn rested<K: Keep>(&mut self, moment: u64, engine: &Engine<K>);

    /// The server ends: it had its turns, or for this cause.
    fn ended(&mut self, cause: Option<Cause>);
}

/// Nobody listens.
#[derive(Clone, Copy, Debug)]
pub struct Quiet;

impl Journal for Quiet {
    fn began<K: Keep>(&mut self, _: u64, _: SocketAddr, _: &Engine<K>) {}

    fn accepted(&mut self, _: u64, _: u64, _: Option<SocketAddr>) {}

    fn dropped(&mut self, _: u64, _: Option<SocketAddr>) {}

    fn answered<K: Keep>(
        &mut self,
        _: u64,
        _: Call<'_>,
        _: &Engine<K>,
        _: &Result<Outcome, EngineError>,
    ) {}

    fn rested<K: Keep>(&mut self, _: u64, _: &Engine<K>) {}

    fn ended(&mut self, _: Option<Cause>) {}
}

/// A journal that may be there; nobody listens if it isn't.
impl<J: Journal> Journal for Option<J> {
    fn began<K: Keep>(&mut self, moment: u64, address: SocketAddr, engine: &Engine<K>) {
        if let Some(journal) = self {
            journal.began(moment, address, engine);
        }
    }

    fn accepted(&mut self, moment: u64, line: u64, peer: Option<SocketAddr>) {
        if let Some(journal) = self {
            journal.accepted(moment, line, peer);
        }
    }

    fn dropped(&mut self, moment: u64, peer: Option<SocketAddr>) {
        if let Some(journal) = self {
            journal.dropped(moment, peer);
        }
    }

    fn answered<K: Keep>(
        &mut self,
        moment: u64,
        call: Call<'_>,
        engine: &Engine<K>,
        answer: &Result<Outcome, EngineError>,
    ) {
        if let Some(journal) = self {
            journal.answered(moment, call, engine, answer);
        }
    }

    fn rested<K: Keep>(&mut self, moment: u64, engine: &Engine<K>) {
        if let Some(journal) = self {
            journal.rested(moment, engine);
        }
    }

    fn ended(&mut self, cause: Option<Cause>) {
        if let Some(journal) = self {
            journal.ended(cause);
        }
    }
}
