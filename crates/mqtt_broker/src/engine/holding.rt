//! A line with what it holds: the bytes that came on it and were not answered yet (MQTT 5.0, 2.1, 4.13).
ghost use Rattle.std.specs.Prelude.{◌≡◌, ◌≤◌, ℕ, length, IfOk, IfSome, OnOk, OnErr, option_map};
ghost use Rattle.mqtt_packet.specs.stream.Front.{first_of};
ghost use Rattle.mqtt_rules.specs.step.Piece.{bytes_taken, fed, first_call, is_whole, without_first};
ghost use Rattle.mqtt_broker.specs.engine.Framers.{BeginsWith, IsLawfulAsked, IsSizedAsked, begun, call_asked, given_back, in_framing};

use crate::engine::asked::Asked;
use crate::engine::framing::{drop_first, first, is_whole, take};
use mqtt_packet::Framer;
use mqtt_records::{Editable, Parted, Row};
use std::alloc::{AllocError, Global};
use std::marker::Model;
use std::mem;

/// A line, and what it holds.
#[derive(Drop)]
pub(crate) struct Held {
    line: u64,
    framer: Framer,
}

impl Model for Held {
    ghost use Rattle.mqtt_broker.specs.engine.Framers.{HeldLine, AreBytes};

    ghost Value = { HeldLine };

    ghost view = { λ h. record { line = h.line; framing = h.framer } };

    // The bytes that are held are bytes.
    ghost invariant = { λ h. AreBytes h.framer.held };
}

impl Row for Held {
    ghost use Rattle.mqtt_broker.specs.engine.Framers.{line_of};

    ghost key_of = { line_of };

    fn key(&self) -> u64 {
        self.line
    }
}

/// What a line holds is lent by it, and it holds nothing meanwhile.
impl Parted for Held {
    type Place = Global;

    type Taken = Held;

    ghost use Rattle.std.specs.Prelude.{Some};
    ghost use Rattle.mqtt_broker.specs.engine.Framers.{lent};

    ghost taken = { λ alloc held. Some held };

    ghost left = { λ alloc held. lent held };

    fn take_part(&mut self, alloc: Global) -> Option<Held> {
        let framer = mem::replace(&mut self.framer, Framer::new(alloc));
        Some(Held {
            line: self.line,
            framer,
        })
    }

    ghost use Rattle.std.proofs.Common.{refl};

    ghost left_key = { λ alloc held. refl };
}

/// What was lent is held by the line again.
impl Editable for Held {
    type Part = Held;

    ghost use Rattle.mqtt_broker.specs.engine.Framers.{back_in};

    ghost edited = { back_in };

    fn edit(&mut self, part: Held) {
        let Held { framer, .. } = part;
        self.framer = framer;
    }

    ghost use Rattle.std.proofs.Common.{refl};

    ghost key_kept = { λ part held. refl };
}

impl Held {
    /// A line that begins holds nothing. Takes no memory.
    pub(crate) fn begin(alloc: Global, line: u64) -> Held
        ensures { result ≡ begun line }
    {
        Held {
            line,
            framer: Framer::new(alloc),
        }
    }

    /// Takes as many bytes of a piece as fit, and none behind a fault. Want of memory alone refuses, and takes none.
    pub(crate) fn feed(&mut self, piece: &[u8]) -> Result<usize, AllocError>
        ensures taken { IfOk result (λ count. count ≡ bytes_taken self.old.framing.held piece.now) }
        ensures ok { OnOk result (self.new ≡ in_framing (fed piece.now) self.old) }
        ensures err { OnErr result (self.new ≡ self.old) }
    {
        take(&mut self.framer, piece)
    }

    /// What the first bytes ask, if a packet or a fault is whole. Nothing is taken away; `drop_first` of the packet's size
    /// does that, and reads nothing. Want of memory alone refuses.
    pub(crate) fn first(&mut self) -> Result<Option<Asked>, AllocError>
        ensures asked { (line : ℕ) → IfOk result (λ asked. option_map (call_asked line) asked
            ≡ first_call line self.old.framing.held) }
        ensures lawful { IfOk result (λ asked. IfSome asked IsLawfulAsked) }
        ensures sized { IfOk result (λ asked. IfSome asked (IsSizedAsked self.old.framing.held)) }
        ensures same { self.new ≡ self.old }
    {
        first(&mut self.framer)
    }

    /// The packet that is answered, of this size, is held no longer. Takes no memory.
    pub(crate) fn drop_first(&mut self, size: usize)
        requires { BeginsWith size self.old.framing.held }
        ensures { self.new ≡ in_framing without_first self.old }
    {
        drop_first(&mut self.framer, size);
    }

    /// The last bytes that came are given back. Takes no memory.
    pub(crate) fn give_back(&mut self, count: usize)
        requires { count ≤ length self.old.framing.held }
        ensures { self.new ≡ in_framing (given_back count) self.old }
    {
        self.framer.give_back(count);
    }

    /// Whether a packet, or a fault, is whole: the fixed header tells it, and no packet is read. Takes no memory.
    pub(crate) fn is_whole(&self) -> bool
        ensures { result ≡ is_whole (first_of self.now.framing.held) }
    {
        is_whole(&self.framer)
    }
}
