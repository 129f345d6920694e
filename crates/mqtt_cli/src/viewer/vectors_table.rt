//! Frames of which it is known what they give (2.1, 3).

ghost use Rattle.std.specs.Prelude.{◌≡◌, length};

use mqtt_packet::Fault;

/// What a frame is known to give.
#[derive(Clone, Copy)]
pub enum Gives {
    /// A packet.
    Packet {
        /// Its line in a view, without the place.
        line: &'static [u8],
        /// Its shortest spelling.
        shortest: &'static [u8],
    },
    /// A refusal.
    Refusal(Fault),
}

/// A frame, and what it is known to give.
#[derive(Clone, Copy)]
pub struct Vector {
    /// The bytes of the frame, or its first if they are refused.
    pub frame: &'static [u8],
    /// What they give.
    pub gives: Gives,
}

/// The vectors, the first of which is number 1.
pub fn known_vectors() -> &'static [Vector]
    ensures { length result.now ≡ 22 }
{
    &VECTORS
}

static VECTORS: [Vector; 22] = [
    Vector {
        frame: b"\xc0\x00",
        gives: Gives::Packet {
            line: b" PINGREQ 2",
            shortest: b"\xc0\x00",
        },
    },
    Vector {
        frame: b"\x30\x07\x00\x03\x61\x2f\x62\x00\x21",
        gives: Gives::Packet {
            line: b" PUBLISH 9 qos=0 topic=a/b payload=1",
            shortest: b"\x30\x07\x00\x03\x61\x2f\x62\x00\x21",
        },
    },
    Vector {
        frame: b"\x40\x03\x00\x0a\x00",
        gives: Gives::Packet {
            line: b" PUBACK 5 id=10 code=00",
            shortest: b"\x40\x02\x00\x0a",
        },
    },
    Vector {
        frame: b"\x10\x0d\x00\x04\x4d\x51\x54\x54\x05\x02\x00\x3c\x00\x00\x00",
        gives: Gives::Packet {
            line: b" CONNECT 15 client= clean=1 keep=60 will=0",
            shortest: b"\x10\x0d\x00\x04\x4d\x51\x54\x54\x05\x02\x00\x3c\x00\x00\x00",
        },
    },
    Vector {
        frame: b"\x20\x17\x00\x00\x14\x12\x00\x06\x61\x75\x74\x6f\x2d\x31\x21\x00\x14\x22\x00\x0a\x27\x00\x01\x00\x00",
        gives: Gives::Packet {
            line: b" CONNACK 25 present=0 code=00 props=4",
            shortest: b"\x20\x17\x00\x00\x14\x12\x00\x06\x61\x75\x74\x6f\x2d\x31\x21\x00\x14\x22\x00\x0a\x27\x00\x01\x00\x00",
        },
    },
    Vector {
        frame: b"\x82\x09\x00\x01\x00\x00\x03\x61\x2f\x62\x02",
        gives: Gives::Packet {
            line: b" SUBSCRIBE 11 id=1 filter=a/b:02",
            shortest: b"\x82\x09\x00\x01\x00\x00\x03\x61\x2f\x62\x02",
        },
    },
    Vector {
        frame: b"\x90\x04\x00\x01\x00\x02",
        gives: Gives::Packet {
            line: b" SUBACK 6 id=1 codes=02",
            shortest: b"\x90\x04\x00\x01\x00\x02",
        },
    },
    Vector {
        frame: b"\xe0\x01\x93",
        gives: Gives::Packet {
            line: b" DISCONNECT 3 code=93",
            shortest: b"\xe0\x01\x93",
        },
    },
    Vector {
        frame: b"\x50\x03\x00\x0a\x10",
        gives: Gives::Packet {
            line: b" PUBREC 5 id=10 code=10",
            shortest: b"\x50\x03\x00\x0a\x10",
        },
    },
    Vector {
        frame: b"\x34\x0e\x00\x03\x61\x2f\x62\x00\x01\x04\x0b\x01\x0b\x02\x68\x69",
        gives: Gives::Packet {
            line: b" PUBLISH 16 qos=2 id=1 topic=a/b payload=2 props=2",
            shortest: b"\x34\x0e\x00\x03\x61\x2f\x62\x00\x01\x04\x0b\x01\x0b\x02\x68\x69",
        },
    },
    Vector {
        frame: b"\xf0\x02\x18\x00",
        gives: Gives::Refusal(Fault::Protocol),
    },
    Vector {
        frame: b"\x60\x02\x00\x0a",
        gives: Gives::Refusal(Fault::Malformed),
    },
    Vector {
        frame: b"\x36\x0a\x00\x03\x61\x2f\x62\x00\x0a\x00\x68\x69",
        gives: Gives::Refusal(Fault::Malformed),
    },
    Vector {
        frame: b"\x82\x03\x00\x01\x00",
        gives: Gives::Refusal(Fault::Protocol),
    },
    Vector {
        frame: b"\x30\x08\x00\x03\x61\x2f\x62\x02\x01\x02",
        gives: Gives::Refusal(Fault::Protocol),
    },
    Vector {
        frame: b"\x30\x0b\x00\x03\x61\x2f\x62\x05\x18\x00\x00\x00\x05",
        gives: Gives::Refusal(Fault::Malformed),
    },
    Vector {
        frame: b"\x30\x0a\x00\x03\x61\x2f\x62\x04\x01\x00\x01\x00",
        gives: Gives::Refusal(Fault::Protocol),
    },
    Vector {
        frame: b"\x34\x08\x00\x03\x61\x2f\x62\x00\x00\x00",
        gives: Gives::Refusal(Fault::Protocol),
    },
    Vector {
        frame: b"\x10\x0d\x00\x04\x4d\x51\x54\x54\x04\x02\x00\x3c\x00\x00\x00",
        gives: Gives::Refusal(Fault::Version),
    },
    Vector {
        frame: b"\xd0\x80\x00",
        gives: Gives::Refusal(Fault::Malformed),
    },
    Vector {
        frame: b"\x40\x03\x00\x0a\x01",
        gives: Gives::Refusal(Fault::Malformed),
    },
    Vector {
        frame: b"\x30\xfd\xff\x03",
        gives: Gives::Refusal(Fault::TooLarge),
    },
];
