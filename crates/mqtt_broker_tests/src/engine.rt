//! The engine as a broker of scripts, and what its calls tell.
ghost use Rattle.std.specs.Prelude.{◌↔◌, IsTrue};
ghost use Rattle.mqtt_rules.specs.step.Contents.{IsTaken};

use crate::broker::{Answer, Broker, Call};
use crate::telling::Telling;
use bytes::Bytes;
use mqtt_base::{Ending, PACKET_LIMIT};
use mqtt_broker::{Engine, EngineError, Keep, Outcome, Packet};
use mqtt_packet::{lawful, spelled_len};
use mqtt_rules::Report;

/// CONNACK of a new session with an identifier of its client's own (3.2).
const CONNECTED: &[u8] = b"\x20\x0e\x00\x00\x0b\x21\x00\x14\x22\x00\x0a\x27\x00\x01\x00\x00";

/// The same of a session that is resumed.
const RESUMED: &[u8] = b"\x20\x0e\x01\x00\x0b\x21\x00\x14\x22\x00\x0a\x27\x00\x01\x00\x00";

fn piece<K: Keep>(
    engine: &mut Engine<K>,
    line: u64,
    bytes: &[u8],
    moment: u64,
) -> Result<Outcome, EngineError> {
    engine.piece(line, bytes, moment)
}

fn pump<K: Keep>(engine: &mut Engine<K>, line: u64, moment: u64) -> Result<Outcome, EngineError> {
    engine.pump(line, moment)
}

fn lost<K: Keep>(engine: &mut Engine<K>, line: u64, moment: u64) -> Result<Outcome, EngineError> {
    engine.lost(line, moment)
}

fn tick<K: Keep>(engine: &mut Engine<K>, moment: u64) -> Result<Outcome, EngineError> {
    engine.tick(moment)
}

/// What the engine answers. Each call stands in a function that says nothing of it, so that the proof doesn't carry the
/// clauses of all four.
fn answer<K: Keep>(
    engine: &mut Engine<K>,
    call: Call<'_>,
    moment: u64,
) -> Result<Outcome, EngineError> {
    match call {
        Call::Piece { line, bytes } => piece(engine, line, bytes, moment),
        Call::Pump { line } => pump(engine, line, moment),
        Call::Lost { line } => lost(engine, line, moment),
        Call::Tick => tick(engine, moment),
    }
}

/// Whether a broker takes a packet.
fn is_taken(packet: &Packet) -> bool
    ensures { IsTrue result ↔ IsTaken packet.now }
{
    if !lawful(packet) {
        return false;
    }
    let lent = packet.lend();
    spelled_len(&lent) <= PACKET_LIMIT
}

/// A packet is given by itself, if a broker takes it.
fn input<K: Keep>(
    engine: &mut Engine<K>,
    line: u64,
    packet: &Packet,
    moment: u64,
) -> Result<Outcome, EngineError> {
    if !is_taken(packet) {
        return Err(EngineError::Memory);
    }
    engine.input(line, packet, moment)
}

/// PINGREQ (3.12), given by itself.
fn ping<K: Keep>(engine: &mut Engine<K>, line: u64, moment: u64) -> Result<Outcome, EngineError> {
    let packet = Packet::Pingreq;
    let answer = input(engine, line, &packet, moment);
    drop(packet);
    answer
}

/// Whether a call is answered so that the store has failed.
fn is_stopped(answer: Result<Outcome, EngineError>) -> bool {
    match answer {
        Ok(outcome) => {
            drop(outcome);
            false
        }
        Err(error) => error == EngineError::Stopped,
    }
}

/// Whether all that is asked for on a line is answered so.
fn refuses_on<K: Keep>(engine: &mut Engine<K>, line: u64, moment: u64) -> bool {
    is_stopped(piece(engine, line, b"\xc0\x00", moment))
        && is_stopped(ping(engine, line, moment))
        && is_stopped(pump(engine, line, moment))
        && is_stopped(lost(engine, line, moment))
}

/// Whether a broker answers so to each call that gives a result: on lines that are linked, and on line 0, which isn't.
pub(crate) fn refuses_all<K: Keep>(engine: &mut Engine<K>, moment: u64) -> bool {
    for line in 0..4 {
        if !refuses_on(engine, line, moment) {
            return false;
        }
    }
    is_stopped(tick(engine, moment))
}

/// A packet on a line: `1:c000`; `1:connected` and `1:resumed` for the CONNACKs above.
fn tell_output(told: &mut Telling, line: u64, bytes: &[u8]) {
    told.pair(" ", line);
    if bytes == CONNECTED {
        told.word(":connected");
    } else if bytes == RESUMED {
        told.word(":resumed");
    } else {
        told.word(":");
        told.hex(bytes);
    }
}

fn tell_outputs(told: &mut Telling, outputs: &[(u64, Bytes)]) {
    for (line, bytes) in outputs {
        tell_output(told, *line, bytes.as_slice());
    }
}

fn word_of(ending: Ending) -> &'static str {
    match ending {
        Ending::Taken => ":Taken",
        Ending::Refused => ":Refused",
        Ending::Expired => ":Expired",
        Ending::TooLarge => ":TooLarge",
        Ending::SessionEnded => ":SessionEnded",
        Ending::Dropped => ":Dropped",
    }
}

/// A copy of a publication, by its number, for a client.
fn tell_copy(told: &mut Telling, word: &str, publication: u64, client: &str) {
    told.pair(word, publication);
    told.word(">");
    told.word(client);
}

fn tell_report(told: &mut Telling, report: &Report) {
    match report {
        Report::Accepted { publication } => told.pair(" accepted=", *publication),
        Report::Entered { copy, client } => {
            tell_copy(told, " entered=", copy.publication, client.as_str());
        }
        Report::Released { identifier, .. } => told.pair(" released=", u64::from(*identifier)),
        Report::Ended {
            copy,
            client,
            ending,
        } => {
            tell_copy(told, " ended=", copy.publication, client.as_str());
            told.word(word_of(*ending));
        }
        Report::WillRefused { client, .. } => {
            told.word(" willrefused=");
            told.word(client.as_str());
        }
    }
}

fn tell_reports(told: &mut Telling, reports: &[Report]) {
    for report in reports {
        tell_report(told, report);
    }
}

fn tell_closed(told: &mut Telling, lines: &[u64]) {
    for line in lines {
        told.pair(" closed=", *line);
    }
}

impl<K: Keep> Broker for Engine<K> {
    /// Links a line. Line 0, which no script expects, if the look before it says otherwise.
    fn link(&mut self, moment: u64) -> Option<u64> {
        let may = self.may_link();
        let line = self.link(moment);
        if may == line.is_some() { line } else { Some(0) }
    }

    fn call(&mut self, told: &mut Telling, call: Call<'_>, moment: u64) -> Answer {
        match answer(self, call, moment) {
            Ok(outcome) => {
                let (taken, again) = (outcome.taken, outcome.again);
                tell_reports(told, &outcome.reports);
                tell_outputs(told, &outcome.outputs);
                tell_closed(told, &outcome.closed);
                Answer::Done { taken, again }
            }
            Err(error) => Answer::Refused(error),
        }
    }

    fn publication(&self, line: u64, identifier: u16) -> Option<u64> {
        match self.copy_of(line, identifier) {
            Some(copy) => Some(copy.publication),
            None => None,
        }
    }
}
