//! A text that is written word by word, with no way out between them.

use std::alloc::Global;
use std::fmt::Write;

/// A text, and whether memory was wanting for some of it.
#[derive(Drop)]
pub struct Telling {
    text: String,
    is_short: bool,
}

/// The digit of a number below 16.
fn digit(number: u8) -> char {
    match number {
        0..=9 => char::from(b'0' + number),
        10..=15 => char::from(b'a' + (number - 10)),
        _ => '?',
    }
}

impl Telling {
    /// Nothing was told yet.
    pub fn new(alloc: Global) -> Telling {
        Telling {
            text: String::new(alloc),
            is_short: false,
        }
    }

    /// What was told.
    pub fn as_str(&self) -> &str {
        &self.text
    }

    /// Whether memory was wanting for some of it.
    pub fn is_short(&self) -> bool {
        self.is_short
    }

    /// Begins anew.
    pub fn clear(&mut self) {
        self.text.clear();
    }

    /// Adds a word.
    pub fn word(&mut self, word: &str) {
        if self.text.push_str(word).is_err() {
            self.is_short = true;
        }
    }

    /// Adds a letter.
    pub fn letter(&mut self, letter: char) {
        if self.text.push(letter).is_err() {
            self.is_short = true;
        }
    }

    /// Adds a number.
    pub fn number(&mut self, number: u64) {
        if write!(self.text, "{number}").is_err() {
            self.is_short = true;
        }
    }

    /// Adds bytes in hexadecimal.
    pub fn hex(&mut self, bytes: &[u8]) {
        for byte in bytes {
            self.letter(digit(byte / 16));
            self.letter(digit(byte % 16));
        }
    }

    /// Adds a word and a number.
    pub fn pair(&mut self, word: &str, number: u64) {
        self.word(word);
        self.number(number);
    }

    /// Says that memory was wanting.
    pub fn shorten(&mut self) {
        self.is_short = true;
    }
}
