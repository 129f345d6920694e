//! What each line holds, by the number of the line (MQTT 5.0, 2.1, 4.13).
ghost use Rattle.std.specs.Prelude.{◌≡◌, [], IfOk};
ghost use Rattle.mqtt_base.specs.declared.limits.TheConstants.{LINE_LIMIT};
ghost use Rattle.mqtt_packet.specs.stream.Front.{first_of};
ghost use Rattle.mqtt_packet.specs.stream.Stream.{empty};
ghost use Rattle.mqtt_records.specs.lists.Order.{has_row, row_at, put_row, remove_row};
ghost use Rattle.mqtt_rules.specs.step.Piece.{is_whole};
ghost use Rattle.mqtt_broker.specs.engine.Framers.{begun, changed_at, framing_at, line_of};

use crate::engine::holding::Held;
use mqtt_base::LINE_LIMIT;
use mqtt_records::Rows;
use std::alloc::{AllocError, Global};
use std::marker::Model;

/// What each line holds.
#[derive(Drop)]
pub struct Framers {
    alloc: Global,
    all: Rows<Held, LINE_LIMIT>,
}

impl Model for Framers {
    ghost use Rattle.std.specs.Prelude.{List};
    ghost use Rattle.mqtt_broker.specs.engine.Framers.{HeldLine};

    ghost Value = { List HeldLine };

    ghost view = { λ a. a.all };
}

impl Framers {
    /// Of no line. Nothing else takes memory.
    pub fn new(alloc: Global) -> Result<Framers, AllocError>
        ensures { IfOk result (λ framers. framers ≡ []) }
    {
        Ok(Framers {
            alloc,
            all: Rows::new(alloc)?,
        })
    }

    /// Whether a line is among them. Takes no memory.
    pub fn has(&self, line: u64) -> bool
        ensures { result ≡ has_row line_of line self.now }
    {
        self.all.has(line)
    }

    /// A line that begins holds nothing. Takes no memory.
    pub fn begin(&mut self, line: u64)
        ensures { self.new ≡ put_row line_of LINE_LIMIT (begun line) self.old }
    {
        self.all.put(Held::begin(self.alloc, line));
    }

    /// What a line holds is gone with it. Takes no memory.
    pub fn end(&mut self, line: u64)
        ensures { self.new ≡ remove_row line_of line self.old }
    {
        self.all.remove(line);
    }

    /// Lends what a line holds, if it is among them, and it holds nothing until that is put back. Takes no memory.
    pub(crate) fn lend(&mut self, line: u64) -> Option<Held>
        ensures lent { result ≡ row_at line_of line self.old }
        ensures rest { self.new ≡ changed_at line (λ framing. empty) self.old }
    {
        self.all.take_part(line, self.alloc)
    }

    /// What was lent is held by the line again. Takes no memory.
    pub(crate) fn put_back(&mut self, line: u64, held: Held)
        ensures { self.new ≡ changed_at line (λ framing. held.framing) self.old }
    {
        self.all.edit(line, held);
    }

    /// Whether a packet, or a fault, of a line is whole: the fixed header tells it, and no packet is read. Takes no memory.
    pub fn is_whole(&self, line: u64) -> bool
        ensures { result ≡ is_whole (first_of (framing_at line self.now).held) }
    {
        match self.all.get(line) {
            Some(held) => held.is_whole(),
            None => false,
        }
    }
}
