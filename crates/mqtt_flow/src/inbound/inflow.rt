//! The identifiers of QoS 2 PUBLISH packets that a session has open (4.3.3, 4.4, 4.9).

ghost use Rattle.std.specs.Prelude.{◌≡◌, ◌<◌, ◌≤◌, [], IfErr, IfOk, OnErr, OnOk};
ghost use Rattle.mqtt_flow.specs.inbound.Identifiers.{ids_without, is_among};
ghost use Rattle.mqtt_flow.specs.inbound.Inbound.{answer_to, open_after, answer_to_release, IsOpenList};
ghost use Rattle.mqtt_flow.specs.inbound.Inflow.{StandsAt, BelongsAt};

use crate::inbound::fault::FlowFault;
use crate::inbound::open_list::place;
use mqtt_base::OPEN_LIMIT;
use std::alloc::Global;
use std::marker::Model;

/// What a QoS 2 PUBLISH is (4.3.3).
#[derive(Clone, Copy, Debug, PartialEq, Eq)]
pub enum Published {
    /// The first with its identifier, which is open from now on; answered PUBREC.
    New,
    /// A repeat: its identifier is open; answered PUBREC 0x00 again.
    Again,
    /// One above the Receive Maximum, since `OPEN_LIMIT` others are open; answered DISCONNECT 0x93 (4.9).
    Over,
}

/// What the identifier of a PUBREL is (4.3.3).
#[derive(Clone, Copy, Debug, PartialEq, Eq)]
pub enum ReleaseAnswer {
    /// Open, and closed from now on; answered PUBCOMP 0x00.
    Known,
    /// Not open; answered PUBCOMP 0x92.
    Unknown,
}

/// The open identifiers of a session, in ascending order.
#[derive(Drop)]
pub struct Inflow {
    ids: Vec<u16>,
}

impl Model for Inflow {
    ghost use Rattle.std.specs.Prelude.{◌-◌, vec_len};
    ghost use Rattle.std.specs.Vec.{vec_capacity};
    ghost use Rattle.mqtt_flow.specs.inbound.Inbound.{IsOpenList};
    ghost use Rattle.mqtt_flow.specs.inbound.Inflow.{OpenIds};

    ghost Value = { OpenIds };

    ghost view = { λ a. record { ids = a.ids.items; room = vec_capacity a.ids - vec_len a.ids } };

    ghost invariant = { λ a. IsOpenList a.ids.items };
}

impl Inflow {
    /// Makes a flow without an open identifier. Takes no memory.
    pub fn new(alloc: Global) -> Self
        ensures { result.ids ≡ [] }
    {
        Inflow {
            ids: Vec::new(alloc),
        }
    }

    /// Makes the flow of a session that has these identifiers open, as a store keeps them (4.1).
    pub fn from_ids(alloc: Global, ids: &[u16]) -> Result<Self, FlowFault>
        requires { IsOpenList ids.now }
        ensures ok { IfOk result (λ flow. flow.ids ≡ ids.now) }
        ensures fault { IfErr result (λ fault. fault ≡ FlowFault.Memory) }
    {
        match Vec::from_slice(alloc, ids) {
            Ok(ids) => Ok(Inflow { ids }),
            Err(_) => Err(FlowFault::Memory),
        }
    }

    /// What a PUBLISH with this identifier would be. Takes no memory.
    pub fn would_publish(&self, id: u16) -> Published
        ensures { result ≡ answer_to id self.now.ids }
    {
        match self.place(id) {
            Ok(_) => Published::Again,
            Err(_) if self.ids.len() < OPEN_LIMIT => Published::New,
            Err(_) => Published::Over,
        }
    }

    /// Makes room for one identifier, so that the next `publish` takes no memory.
    pub fn make_room(&mut self) -> Result<(), FlowFault>
        ensures same { self.new.ids ≡ self.old.ids }
        ensures ok { OnOk result (0 < self.new.room) }

        // Want of memory is the only refusal, and only if there was no room.
        ensures fault { IfErr result (λ fault. fault ≡ FlowFault.Memory) }
        ensures memory { OnErr result (self.old.room ≡ 0) }
    {
        self.ids.reserve(1).map_err(|_| FlowFault::Memory)
    }

    /// Takes the identifier of a QoS 2 PUBLISH (4.3.3). The DUP flag has no part in it.
    pub fn publish(&mut self, id: u16) -> Result<Published, FlowFault>
        ensures answer { IfOk result (λ answer. answer ≡ answer_to id self.old.ids) }
        ensures ok { OnOk result (self.new.ids ≡ open_after id self.old.ids) }

        // Want of memory is the only refusal, only of a new one without room, and changes nothing.
        ensures fault { IfErr result (λ fault. fault ≡ FlowFault.Memory) }
        ensures only { OnErr result (answer_to id self.old.ids ≡ Published.New) }
        ensures memory { OnErr result (self.old.room ≡ 0) }
        ensures err { OnErr result (self.new.ids ≡ self.old.ids) }
    {
        let place = match self.place(id) {
            Ok(_) => return Ok(Published::Again),
            Err(place) => place,
        };
        if self.ids.len() >= OPEN_LIMIT {
            return Ok(Published::Over);
        }
        match self.ids.insert(place, id) {
            Ok(()) => Ok(Published::New),
            Err(_) => Err(FlowFault::Memory),
        }
    }

    /// Takes the identifier of a PUBREL (4.3.3). Takes no memory.
    pub fn release(&mut self, id: u16) -> ReleaseAnswer
        ensures answer { result ≡ answer_to_release id self.old.ids }
        ensures ok { self.new.ids ≡ ids_without id self.old.ids }
        ensures room { self.old.room ≤ self.new.room }
    {
        match self.place(id) {
            Ok(place) => {
                self.ids.remove(place);
                ReleaseAnswer::Known
            }
            Err(_) => ReleaseAnswer::Unknown,
        }
    }

    /// Whether the identifier is open. Takes no memory.
    pub fn is_open(&self, id: u16) -> bool
        ensures { result ≡ is_among id self.now.ids }
    {
        self.place(id).is_ok()
    }

    /// The open identifiers, in ascending order. Takes no memory.
    pub fn ids(&self) -> &[u16]
        ensures exact { result.now ≡ self.now.ids }
        ensures lawful { IsOpenList self.now.ids }
    {
        &self.ids
    }

    /// Where the identifier stands, or else where it would.
    fn place(&self, id: u16) -> Result<usize, usize>
        ensures found { IfOk result (StandsAt id self.now.ids) }
        ensures missing { IfErr result (BelongsAt id self.now.ids) }
        ensures lawful { IsOpenList self.now.ids }
    {
        place(&self.ids, id)
    }
}
