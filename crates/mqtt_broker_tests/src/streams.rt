//! What a line has to tell of bytes, by what they begin with (MQTT 5.0, 2.1, 4.13).

use crate::telling::Telling;
use mqtt_base::Reason;
use mqtt_packet::{Fault, Framer};
use std::alloc::Global;

/// What bytes begin with.
#[derive(Clone, Copy)]
enum First {
    /// No whole packet yet.
    Nothing,
    /// A packet.
    Whole,
    /// A fault with this code.
    Bad(u8),
}

/// The code of a fault; an unspecified error for want of memory.
fn code_of(fault: Fault) -> u8 {
    fault.reason().unwrap_or(Reason::UNSPECIFIED_ERROR).0
}

/// What a framer begins with.
fn first_in(framer: &Framer) -> First {
    match framer.look() {
        Ok(None) => First::Nothing,
        Ok(Some(_)) => First::Whole,
        Err((fault, _)) => First::Bad(code_of(fault)),
    }
}

/// What a framer that has nothing yet begins with, once it has bytes.
fn first_fed(framer: &mut Framer, bytes: &[u8]) -> First {
    match framer.feed(bytes) {
        Ok(_) => first_in(framer),
        Err((fault, _)) => First::Bad(code_of(fault)),
    }
}

/// What bytes begin with, by the framer alone.
fn first_of(alloc: Global, bytes: &[u8]) -> First {
    let mut framer = Framer::new(alloc);
    let first = first_fed(&mut framer, bytes);
    drop(framer);
    first
}

/// What is told of first bytes of a line, if it doesn't depend on what the broker has.
fn tell_first(script: &mut Telling, line: u64, bytes: &[u8], first: First) {
    let is_connect = bytes.first().is_some_and(|byte| byte / 16 == 1);
    match first {
        First::Nothing => {}
        First::Whole if is_connect => script.word("*"),
        First::Bad(code) if is_connect => {
            script.number(line);
            script.word(":200300");
            script.hex(&[code]);
            script.pair("00 closed=", line);
        }
        First::Whole | First::Bad(_) => script.pair("closed=", line),
    }
}

/// The same of bytes behind a CONNECT: a fault is answered by DISCONNECT, another version as an error of the protocol.
fn tell_later(script: &mut Telling, line: u64, first: First) {
    match first {
        First::Nothing => {}
        First::Whole => script.word("*"),
        First::Bad(code) => {
            script.number(line);
            script.word(":e001");
            script.hex(&[if code == 0x84 { 0x82 } else { code }]);
            script.pair(" closed=", line);
        }
    }
}

/// A line, as the next one that is linked, of which first bytes are these, or those behind a CONNECT.
pub(crate) fn tell_line(
    script: &mut Telling,
    alloc: Global,
    line: u64,
    bytes: &[u8],
    is_connected: bool,
) {
    let first = first_of(alloc, bytes);
    script.word("link -> *\n");
    if is_connected {
        script.pair("connect ", line);
        script.word(" c -> *\n");
    }
    script.pair("on ", line);
    script.word(" ");
    script.hex(bytes);
    script.word(" -> ");
    if is_connected {
        tell_later(script, line, first);
    } else {
        tell_first(script, line, bytes, first);
    }
    script.pair("\nlost ", line);
    script.word(" -> *\n");
}
