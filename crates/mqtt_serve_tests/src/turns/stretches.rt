//! Stretches of turns over clients in memory, on a link that holds back what is written.
use crate::turns::clients::{Clients, Stage};
use mqtt_broker::Engine;
use mqtt_broker_step::EngineError;
use mqtt_keep::Settles;
use mqtt_link::{HeldBack, Link};
use mqtt_serve::{Links, Quiet, Timer, serve_stretch};
use std::alloc::{AllocError, Global};

/// Connections to clients in memory that hold back what is written.
pub(crate) type Held = Links<HeldBack<Clients>>;

/// No connection yet, and clients that will come over a link that holds back what is written.
pub(crate) fn clients_held(
    alloc: Global,
    clients: &[&'static [Stage]],
) -> Result<Held, AllocError> {
    let clients = Clients::new(alloc, clients, 4096, None)?;
    Links::new(alloc, HeldBack::new(alloc, clients))
}

/// How many bytes came to the first two clients.
pub(crate) fn taken(links: &Held) -> (usize, usize) {
    let clients = links.link().link();
    (clients.taken(0).len(), clients.taken(1).len())
}

/// A clock that stands.
#[derive(Drop)]
pub(crate) struct Standing {
    pub(crate) moment: u64,
}

impl Timer for Standing {
    fn now(&mut self) -> u64 {
        self.moment
    }
}

/// Turns at one moment that are stored together, behind one at another moment; whether each could be had, and stored.
pub(crate) fn stretch_behind<L: Link + Drop, K: Settles>(
    links: &mut Links<HeldBack<L>>,
    engine: &mut Engine<K>,
    last: u64,
    moment: u64,
) -> Result<(), EngineError> {
    serve_stretch(
        links,
        engine,
        &mut Standing { moment },
        1_000,
        last,
        &mut Quiet,
    )?;
    Ok(())
}

/// The same behind one at the same moment, so that all of them are brisk.
pub(crate) fn stretch<L: Link + Drop, K: Settles>(
    links: &mut Links<HeldBack<L>>,
    engine: &mut Engine<K>,
    moment: u64,
) -> Result<(), EngineError> {
    stretch_behind(links, engine, moment, moment)
}
