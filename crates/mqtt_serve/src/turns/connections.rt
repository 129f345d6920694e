//! The connections, in the order in which they came, and on which of them something may be to be done (MQTT 5.0, 4.2).
ghost use Rattle.std.specs.Prelude.{◌≡◌, ◌≤◌, ◌<◌, ◌+◌, false, ◌++◌, ◌∷◌, [], Some, length, take, slice_get, IfOk, IsTrue};
ghost use Rattle.mqtt_base.specs.declared.limits.TheConstants.{LINE_LIMIT};
ghost use Rattle.mqtt_serve.specs.turns.Related.{RelatedAt};
ghost use Rattle.mqtt_serve.specs.turns.Resting.{IsNextAwake};
ghost use Rattle.mqtt_serve.specs.turns.Turns.{ReadsAt, WritesAt, without_closed};
ghost use Rattle.mqtt_serve.specs.turns.Wires.{LetsGo, Reaches, Wire, WritesLast, lost_if};

use crate::turns::connection::Connection;
use crate::turns::telling::is_silent_for;
use bytes::Bytes;
use memchr::memchr;
use mqtt_base::LINE_LIMIT;
use mqtt_link::{HeldBack, Link};
use std::alloc::{AllocError, Global};
use std::marker::Model;

/// The byte of a connection that rests: nothing is to be done on it before something comes on it, or it is told something (ours).
pub const RESTS: u8 = 0;

/// The byte of one that is awake: something may be to be done on it (ours).
pub const AWAKE: u8 = 1;

/// The connections, in the order in which they came. What a turn looks at for each of them lies together: so those that rest cost
/// it next to nothing.
#[derive(Drop)]
pub struct Connections<L: Link> {
    pub(crate) all: Vec<Connection<L>>,
    /// The number of each one's line, by place.
    pub(crate) numbers: Vec<u64>,
    /// Whether each is awake, by place.
    pub(crate) awake: Vec<u8>,
    /// The number by which the link tells of each, by place.
    keys: Vec<usize>,
}

impl<L: Link> Model for Connections<L> {
    ghost use Rattle.std.specs.Prelude.{List, ◌≤◌};
    ghost use Rattle.std.specs.Vec.{vec_capacity};
    ghost use Rattle.mqtt_base.specs.declared.limits.TheConstants.{LINE_LIMIT};
    ghost use Rattle.mqtt_serve.specs.turns.Resting.{AreNoted};
    ghost use Rattle.mqtt_serve.specs.turns.Wires.{Wire};

    ghost Value = { List Wire };

    ghost view = { λ c. c.all.items };

    // There is room for as many as may be.
    ghost invariant = { λ c. AreNoted c.numbers.items c.awake.items c.all.items
        × (LINE_LIMIT ≤ vec_capacity c.all) × (LINE_LIMIT ≤ vec_capacity c.numbers) × (LINE_LIMIT ≤ vec_capacity c.awake) };
}

impl<L: Link> Connections<L> {
    /// None, with room for 1,000 (ours). The one fault is want of memory.
    pub fn new(alloc: Global) -> Result<Connections<L>, AllocError>
        ensures { IfOk result (λ lines. lines ≡ []) }
    {
        let all = Vec::with_capacity(alloc, LINE_LIMIT)?;
        let numbers = Vec::with_capacity(alloc, LINE_LIMIT)?;
        let awake = Vec::with_capacity(alloc, LINE_LIMIT)?;
        let keys = Vec::with_capacity(alloc, LINE_LIMIT)?;
        Ok(Connections {
            all,
            numbers,
            awake,
            keys,
        })
    }

    /// How many there are.
    pub fn len(&self) -> usize
        ensures { result ≡ length self.now }
    {
        self.all.len()
    }

    /// The one at a place.
    pub fn at(&self, place: usize) -> &Connection<L>
        requires place { place < length self.now }
        ensures { slice_get self.now place ≡ Some result.now }
    {
        &self.all[place]
    }

    /// One comes behind the others, awake. Takes no memory: there is room.
    pub fn push(&mut self, link: &L, connection: Connection<L>)
        requires room { length self.old < LINE_LIMIT }
        ensures { self.new ≡ self.old ++ connection ∷ [] }
    {
        let (number, key) = (connection.number(), link.key(&connection.peer));
        let _ = self.all.push(connection);
        let _ = self.numbers.push(number);
        let _ = self.awake.push(AWAKE);
        let _ = self.keys.push(key);
    }

    /// The next that is awake, from a place on; those before it rest.
    pub fn next_awake(&self, from: usize) -> Option<usize>
        requires within { from ≤ length self.now }
        ensures { IsNextAwake from self.now result }
    {
        match memchr(AWAKE, &self.awake[from..]) {
            Some(behind) => Some(from + behind),
            None => None,
        }
    }

    /// The place behind one.
    pub fn behind(&self, place: usize) -> usize
        requires place { place < length self.now }
        ensures { result ≡ place + 1 }
    {
        if place < self.len() { place + 1 } else { place }
    }

    /// Whether the link tells of the one at a place.
    fn is_told_at(&self, link: &L, place: usize) -> bool {
        match self.keys.get(place) {
            Some(key) => link.is_told(*key),
            None => true,
        }
    }

    /// The one at a place is awake.
    pub fn wake_at(&mut self, place: usize)
        requires place { place < length self.old }
        ensures { self.new ≡ self.old }
    {
        self.awake[place] = AWAKE;
    }

    /// Those are awake of which the link tells.
    pub fn wake_told(&mut self, link: &L)
        ensures { self.new ≡ self.old }
    {
        for place in 0..self.len() {
            if self.is_told_at(link, place) {
                self.wake_at(place);
            }
        }
    }

    /// Those that the broker closed are dropped.
    pub fn drop_closed(&mut self, link: &L)
        ensures { self.new ≡ without_closed self.old }
    {
        if self.has_closed() {
            self.remove_closed();
            self.note_keys(link);
        }
    }

    /// Whether the broker has closed one.
    fn has_closed(&self) -> bool
        ensures { result ≡ false → without_closed self.now ≡ self.now }
    {
        let mut from = 0;
        while let Some(place) = self.next_awake(from) {
            if self.at(place).is_closed() {
                return true;
            }
            from = self.behind(place);
        }
        false
    }

    /// Those that the broker closed are taken out; the others are awake.
    fn remove_closed(&mut self)
        ensures { self.new ≡ without_closed self.old }
    {
        self.all.retain(|line| !line.is_closed());
        let count = self.all.len();
        self.numbers.truncate(count);
        self.awake.truncate(count);
        self.keys.truncate(count);
        for place in 0..count {
            self.numbers[place] = self.all[place].number();
            self.awake[place] = AWAKE;
        }
    }

    /// The number by which the link tells of the one at a place is noted.
    fn note_key_at(&mut self, link: &L, place: usize)
        requires place { place < length self.old }
        ensures { self.new ≡ self.old }
    {
        let key = link.key(&self.all[place].peer);
        if let Some(noted) = self.keys.get_mut(place) {
            *noted = key;
        }
    }

    /// The numbers by which the link tells of them are noted.
    fn note_keys(&mut self, link: &L)
        ensures { self.new ≡ self.old }
    {
        for place in 0..self.len() {
            self.note_key_at(link, place);
        }
    }

    /// The one at a place is read once: how many bytes came.
    pub fn read_at(&mut self, link: &mut L, place: usize, buffer: &mut [u8]) -> usize
        requires place { place < length self.old }
        ensures bound { result ≤ length buffer.new }
        ensures reads { ReadsAt place (length buffer.new) (take result buffer.new) self.old self.new }
        ensures len { length self.new ≡ length self.old }
        ensures same { L.calls link.new ≡ L.calls link.old }
    {
        self.awake[place] = AWAKE;
        self.all[place].read(link, buffer)
    }

    /// What waits on the one at a place is written once: whether bytes went out.
    pub fn write_at(&mut self, link: &mut L, place: usize) -> bool
        requires place { place < length self.old }
        ensures writes { WritesAt place result self.old self.new }
        ensures len { length self.new ≡ length self.old }
        ensures same { L.calls link.new ≡ L.calls link.old }
    {
        self.awake[place] = AWAKE;
        self.all[place].write(link)
    }

    /// What waits on the one at a place is written once more, if the broker closed its line.
    pub fn write_last_at(&mut self, link: &mut L, place: usize)
        requires place { place < length self.old }
        ensures writes { RelatedAt (λ x y. WritesLast x.fate x y) place self.old self.new }
        ensures len { length self.new ≡ length self.old }
        ensures same { L.calls link.new ≡ L.calls link.old }
    {
        self.awake[place] = AWAKE;
        self.all[place].write_last(link);
    }

    /// Whether an answer is silent for the one at a place: it has no output to it, and didn't close its line.
    pub fn is_passed_at(&self, place: usize, outputs: &[(u64, Bytes)], closed: &[u64]) -> bool
        requires place { place < length self.now }
        ensures { IsTrue result → (w : Wire) → slice_get self.now place ≡ Some w → Reaches outputs.now closed.now w w }
    {
        is_silent_for(self.numbers[place], outputs, closed)
    }

    /// An answer reaches the one at a place.
    pub fn reach_at(&mut self, place: usize, outputs: &[(u64, Bytes)], closed: &[u64])
        requires place { place < length self.old }
        ensures reaches { RelatedAt (Reaches outputs.now closed.now) place self.old self.new }
        ensures len { length self.new ≡ length self.old }
    {
        self.awake[place] = AWAKE;
        self.all[place].reach(outputs, closed);
    }

    /// The one at a place is lost for want of memory, if it is on this line.
    pub fn lose_at(&mut self, place: usize, number: u64)
        requires place { place < length self.old }
        ensures loses { RelatedAt (λ x y. y ≡ lost_if number x) place self.old self.new }
        ensures len { length self.new ≡ length self.old }
    {
        if self.numbers[place] == number {
            self.awake[place] = AWAKE;
            self.all[place].lose_if(number);
        }
    }
}

impl<L: Link + Drop> Connections<HeldBack<L>> {
    /// What is held back on the one at a place goes out, and it rests if nothing is to be done on it then. Whether bytes went out.
    pub fn let_go_at(&mut self, link: &mut HeldBack<L>, place: usize) -> bool
        requires place { place < length self.old }
        ensures lets { RelatedAt (LetsGo result) place self.old self.new }
        ensures len { length self.new ≡ length self.old }
        ensures same { L.calls link.new.link ≡ L.calls link.old.link }
    {
        let went = self.all[place].let_go(link);
        self.awake[place] = if self.all[place].is_at_rest(link) {
            RESTS
        } else {
            AWAKE
        };
        went
    }
}
