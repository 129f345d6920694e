//! The events that a world keeps.

ghost use Rattle.std.specs.Prelude.{◌≡◌, ◌++◌, ◌∷◌, [], length, OnErr, OnOk};

use mqtt_script::Event;
use std::alloc::{AllocError, Global};
use std::marker::Model;

/// Events that happened, in order.
#[derive(Drop)]
pub(crate) struct Kept {
    events: Vec<Event>,
}

impl Model for Kept {
    ghost use Rattle.std.specs.Prelude.{List};
    ghost use Rattle.mqtt_script.specs.declared.event.Event.{Event};

    ghost Value = { List Event };

    ghost view = { λ k. k.events.items };
}

impl Kept {
    /// None yet. Takes no memory.
    pub(crate) fn new(alloc: Global) -> Kept
        ensures { result ≡ [] }
    {
        Kept {
            events: Vec::new(alloc),
        }
    }

    /// Makes room for one more.
    pub(crate) fn make_room(&mut self) -> Result<(), AllocError>
        ensures { self.new ≡ self.old }
    {
        self.events.reserve(1)
    }

    /// One more, behind the others. If there was room, there is now.
    pub(crate) fn push(&mut self, event: Event) -> Result<(), AllocError>
        ensures more { OnOk result (self.new ≡ self.old ++ event ∷ []) }
        ensures same { OnErr result (self.new ≡ self.old) }
    {
        self.events.push(event)?;
        Ok(())
    }

    /// How many there are. Takes no memory.
    pub(crate) fn len(&self) -> usize
        ensures { result ≡ length self.now }
    {
        self.events.len()
    }

    /// Lends them.
    pub(crate) fn as_slice(&self) -> &[Event]
        ensures { result.now ≡ self.now }
    {
        self.events.as_slice()
    }
}
