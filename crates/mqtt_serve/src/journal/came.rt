//! What a connection has sent, as far as it is told: Clean Start of its CONNECT, and the Reason Code of its DISCONNECT (MQTT 5.0,
//! 2.1, 3.1.2.4, 3.14.2.1).

use crate::journal::line_event::CleanStart;

/// The first byte of CONNECT (3.1.1).
const CONNECT: u8 = 0x10;

/// The first byte of DISCONNECT (3.14.1).
const DISCONNECT: u8 = 0xe0;

/// How many bytes stand before Connect Flags in what follows the fixed header of CONNECT (3.1.2.3).
const BEFORE_FLAGS: usize = 7;

/// What the next byte is that is looked at.
#[derive(Clone, Copy, Debug)]
enum Next {
    /// The first of a packet (2.1.1).
    First,
    /// One of its Remaining Length (2.1.4).
    Length,
    /// Connect Flags of CONNECT (3.1.2.3).
    Flags,
    /// The Reason Code of DISCONNECT (3.14.2.1).
    Code,
}

/// What has come. It looks at headers, and passes over what stands behind them.
#[derive(Clone, Copy, Debug)]
pub(crate) struct Came {
    /// Connect Flags of the first CONNECT.
    flags: Option<u8>,
    /// The Reason Code of the first DISCONNECT.
    code: Option<u8>,
    next: Next,
    /// How many bytes are passed over before that one.
    skip: usize,
    /// The first byte of the packet.
    first: u8,
    /// Its Remaining Length, as far as it has come; behind that, how much is left of it.
    length: usize,
    /// What the next byte of Remaining Length counts: 1, 128, ..
    factor: usize,
}

impl Came {
    /// Nothing has come.
    pub fn new() -> Came {
        Came {
            flags: None,
            code: None,
            next: Next::First,
            skip: 0,
            first: 0,
            length: 0,
            factor: 1,
        }
    }

    /// Clean Start of its CONNECT, bit 1 of Connect Flags (3.1.2.4); 0 if none came.
    pub fn clean_start(&self) -> CleanStart {
        match self.flags {
            Some(flags) if flags / 2 % 2 == 1 => CleanStart::Yes,
            _ => CleanStart::No,
        }
    }

    /// The Reason Code of its DISCONNECT; 0 if none came, or one without it (3.14.2.1).
    pub fn code(&self) -> u8 {
        self.code.unwrap_or(0)
    }

    /// So many of these bytes have come.
    pub fn take(&mut self, bytes: &[u8], count: usize) {
        let mut place = self.skip;
        for _ in 0..count {
            if place >= count {
                break;
            }
            let Some(byte) = bytes.get(place) else {
                break;
            };
            self.skip = 0;
            self.byte(*byte);
            place = place.saturating_add(1).saturating_add(self.skip);
        }
        self.skip = place.saturating_sub(count);
    }

    /// The byte that is looked at has come.
    fn byte(&mut self, byte: u8) {
        match self.next {
            Next::First => {
                self.first = byte;
                self.length = 0;
                self.factor = 1;
                self.next = Next::Length;
            }
            Next::Length => self.length_byte(byte),
            Next::Flags => {
                self.flags = Some(self.flags.unwrap_or(byte));
                self.pass_over();
            }
            Next::Code => {
                self.code = Some(self.code.unwrap_or(byte));
                self.pass_over();
            }
        }
    }

    /// A byte of Remaining Length has come.
    fn length_byte(&mut self, byte: u8) {
        let part = (byte % 128) as usize;
        self.length = self.length.saturating_add(part.saturating_mul(self.factor));
        self.factor = self.factor.saturating_mul(128);
        if byte < 128 {
            self.begin_body();
        }
    }

    /// The fixed header has come.
    fn begin_body(&mut self) {
        if self.first == CONNECT && self.length > BEFORE_FLAGS {
            self.skip = BEFORE_FLAGS;
            self.length = self.length.saturating_sub(BEFORE_FLAGS + 1);
            self.next = Next::Flags;
        } else if self.first == DISCONNECT && self.length > 0 {
            self.length = self.length.saturating_sub(1);
            self.next = Next::Code;
        } else {
            if self.first == DISCONNECT {
                self.code = Some(self.code.unwrap_or(0));
            }
            self.pass_over();
        }
    }

    /// What is left of the packet is passed over.
    fn pass_over(&mut self) {
        self.skip = self.length;
        self.next = Next::First;
    }
}
