//! A connection that is accepted (MQTT 5.0, 4.2).
ghost use Rattle.std.specs.Prelude.{◌≡◌};
ghost use Rattle.mqtt_link.specs.Links.{asked};
ghost use Rattle.mqtt_serve.specs.turns.Turns.{server, Accepts};

use crate::journal::Journal;
use crate::turns::connection::Connection;
use crate::turns::connections::Connections;
use mqtt_base::LINE_LIMIT;
use mqtt_broker::Engine;
use mqtt_keep::Keep;
use mqtt_link::{Got, Link};
use std::alloc::Global;

/// At most one connection is accepted, and linked; it is dropped if as many are here as may be, or the broker links no
/// more. Whether one came. Takes no memory: there is room for as many as may be.
pub(crate) fn accept<L: Link, K: Keep, J: Journal>(
    alloc: Global,
    link: &mut L,
    lines: &mut Connections<L>,
    engine: &mut Engine<K>,
    moment: u64,
    journal: &mut J,
) -> bool
    ensures accepts { Accepts K.Keep moment result
        (server engine.old lines.old) (server engine.new lines.new) }
    ensures counted { L.calls link.new ≡ asked result (L.calls link.old) }
{
    let peer = match link.accept() {
        Got::Given(peer) => peer,
        Got::Nothing | Got::End | Got::Failure => return false,
    };
    let address = link.address(&peer);
    if lines.len() >= LINE_LIMIT {
        journal.dropped(moment, address);
        return true;
    }
    match engine.link(moment) {
        Some(number) => {
            lines.push(link, Connection::new(alloc, number, peer));
            journal.accepted(moment, number, address);
        }
        None => journal.dropped(moment, address),
    }
    true
}
