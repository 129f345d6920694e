//! What stands in a script: numbers, limits, bytes, and packets that are written in words.

use crate::telling::Telling;
use mqtt_broker::Limits;
use mqtt_flow::Full;

/// The words before and behind the first blank; nothing behind if there is none.
pub(crate) fn halves(words: &str) -> (&str, &str) {
    words.split_once(' ').unwrap_or((words, ""))
}

/// A number; 0 if there is none.
pub(crate) fn number(word: &str) -> u64 {
    word.parse::<u64>().unwrap_or(0)
}

/// A number, and at most 1,000.
fn size(word: &str) -> u32 {
    word.parse::<u32>().unwrap_or(0)
}

/// Limits of tables.
pub(crate) fn limits_of(words: &str) -> Limits {
    let (full, words) = halves(words);
    let (queue, words) = halves(words);
    let (sessions, retained) = halves(words);
    let full = if full == "drop" {
        Full::Drop
    } else {
        Full::Refuse
    };
    Limits {
        full,
        queue: size(queue),
        sessions: size(sessions),
        retained: size(retained),
    }
}

/// The value of a digit; none for any other letter.
fn value_of(letter: u8) -> Option<u8> {
    match letter {
        b'0'..=b'9' => Some(letter - b'0'),
        b'a'..=b'f' => Some(letter - b'a' + 10),
        _ => None,
    }
}

/// The bytes of digits; answers whether memory sufficed. Other letters are passed over.
pub(crate) fn read_bytes(bytes: &mut Vec<u8>, words: &str) -> bool {
    bytes.clear();
    let mut byte: u8 = 0;
    let mut is_second = false;
    for letter in words.as_bytes() {
        if let Some(value) = value_of(*letter) {
            byte = byte.wrapping_mul(16).wrapping_add(value);
            if is_second && bytes.push(byte).is_err() {
                return false;
            }
            is_second = !is_second;
        }
    }
    true
}

/// A CONNECT of this client, with Session Expiry Interval 0xFFFFFFFF (3.1); answers whether memory sufficed.
pub(crate) fn read_connect(bytes: &mut Vec<u8>, client: &str) -> bool {
    let size = u8::try_from(client.len()).unwrap_or(u8::MAX);
    bytes.clear();
    bytes.push(0x10).is_ok()
        && bytes.push(size.wrapping_add(18)).is_ok()
        && bytes
            .extend_from_slice(b"\x00\x04MQTT\x05\x00\x00\x00\x05\x11\xff\xff\xff\xff\x00")
            .is_ok()
        && bytes.push(size).is_ok()
        && bytes.extend_from_slice(client.as_bytes()).is_ok()
}

/// Four digits of a number, as bytes of a text.
fn tell_topic(told: &mut Telling, number: u64) {
    told.pair("3", number / 1000 % 10);
    told.pair("3", number / 100 % 10);
    told.pair("3", number / 10 % 10);
    told.pair("3", number % 10);
}

/// A number as two bytes.
fn tell_identifier(told: &mut Telling, number: u64) {
    let identifier = u16::try_from(number).unwrap_or(0);
    told.hex(&identifier.to_be_bytes());
}

/// Calls with the number of their turn.
pub(crate) fn tell_turned(told: &mut Telling, calls: &str, turn: u64) {
    for letter in calls.chars() {
        match letter {
            '#' => told.number(turn),
            '%' => tell_identifier(told, turn),
            '@' => tell_topic(told, turn),
            _ => told.letter(letter),
        }
    }
}
