//! The places of the copies whose PUBLISH went out on a line, in the order in which they went (MQTT 5.0, 4.3, 4.6).
ghost use Rattle.std.specs.Prelude.{◌≡◌, ◌≤◌, ◌+◌, ◌-◌, [], ◌∷◌, ◌++◌, true, length, vec_capacity, IfOk, IfSome};
ghost use Rattle.std.specs.List.{remove};
ghost use Rattle.mqtt_flow.specs.inbound.Identifiers.{ids_without, is_among};
ghost use Rattle.mqtt_broker_step.specs.Places.{AreAscending, IsIndexOf, has_room, has_room_behind, room_for, with_inserted, with_pushed, without_last};

use mqtt_base::QUEUE_LIMIT;
use std::alloc::{AllocError, Global};
use std::marker::Model;

/// A list of no more places has room for so many, and a longer one for those of a whole queue (ours).
pub(crate) const FEW: usize = 16;

/// How many places a list of so many has room for, at least.
fn room_for(count: usize) -> usize
    ensures { result ≡ room_for count }
{
    if count == 0 {
        0
    } else if count <= FEW {
        FEW
    } else {
        QUEUE_LIMIT
    }
}

/// Whether each place is above the one before it. It looks at each of them.
fn ascend(places: &[u64]) -> bool
    ensures { result ≡ true → AreAscending places.now }
{
    for at in 1..places.len() {
        if places[at] <= places[at - 1] {
            return false;
        }
    }
    true
}

/// Whether a place is above the last one, so that it may go behind it.
fn is_behind(places: &[u64], place: u64) -> bool
    ensures { result ≡ true → AreAscending places.now → AreAscending (places.now ++ place ∷ []) }
{
    match places.last() {
        Some(last) => *last < place,
        None => true,
    }
}

/// Where a place stands among ascending ones.
fn index_of(places: &[u64], place: u64) -> Option<usize>
    requires { AreAscending places.now }
    ensures { IfSome result (IsIndexOf place places.now) }
{
    places.binary_search(&place).ok()
}

/// Whether a place is among ascending ones. One behind the last is told by one comparison.
fn is_in_order(places: &[u64], place: u64) -> bool
    requires { AreAscending places.now }
    ensures { result ≡ is_among place places.now }
{
    let Some(last) = places.last() else {
        return false;
    };
    if *last < place {
        return false;
    }
    places.binary_search(&place).is_ok()
}

/// Whether a place is among others. It looks at each of them.
fn is_anywhere(places: &[u64], place: u64) -> bool
    ensures { result ≡ is_among place places.now }
{
    places.contains(&place)
}

/// The same places, with room for one more.
fn copied(alloc: Global, places: &[u64]) -> Result<Vec<u64>, AllocError>
    ensures items { IfOk result (λ copy. copy.items ≡ places.now) }
    ensures more { IfOk result (λ copy. length places.now + 1 ≤ vec_capacity copy) }
    ensures roomy { IfOk result (λ copy. room_for (length places.now + 1) ≤ vec_capacity copy) }
{
    let count = places.len() + 1;
    let mut copy = Vec::with_capacity(alloc, room_for(count).max(count))?;
    copy.extend_from_slice(places)?;
    Ok(copy)
}

/// A place leaves others, wherever it stands among them. It looks at each of them.
fn drop_place(places: &mut Vec<u64>, place: u64)
    ensures items { places.new.items ≡ ids_without place places.old.items }
    ensures room { vec_capacity places.new ≡ vec_capacity places.old }
{
    places.retain(|other| *other != place);
}

/// Places, in the order in which they went. Those of a queue ascend, and it remembers whether they do.
#[derive(Drop)]
pub struct Places {
    places: Vec<u64>,
    ascends: bool,
}

impl Model for Places {
    ghost use Rattle.std.specs.Prelude.{List, ℕ, vec_capacity};
    ghost use Rattle.mqtt_broker_step.specs.Places.{IsKept};

    ghost Value = { List ℕ };

    ghost view = { λ a. a.places.items };

    ghost invariant = { λ a. IsKept a.ascends a.places.items (vec_capacity a.places) };
}

impl Places {
    /// No places. Takes no memory.
    pub(crate) fn new(alloc: Global) -> Places
        ensures { result ≡ [] }
    {
        Places {
            places: Vec::new(alloc),
            ascends: true,
        }
    }

    /// The places, in the order in which they went. Takes no memory.
    pub fn as_slice(&self) -> &[u64]
        ensures { result.now ≡ self.now }
    {
        &self.places
    }

    /// Whether a place is among them: by one comparison if it is behind the last, else by halves, if they ascend.
    /// Takes no memory.
    pub fn contains(&self, place: u64) -> bool
        ensures { result ≡ is_among place self.now }
    {
        if self.ascends {
            is_in_order(&self.places, place)
        } else {
            is_anywhere(&self.places, place)
        }
    }

    /// Where a place stands, if they ascend. Takes no memory.
    pub(crate) fn index_of(&self, place: u64) -> Option<usize>
        ensures { IfSome result (IsIndexOf place self.now) }
    {
        if self.ascends {
            index_of(&self.places, place)
        } else {
            None
        }
    }

    /// Whether one more place needs no memory. Takes no memory.
    pub(crate) fn has_room(&self) -> bool
        ensures { result ≡ has_room self.now }
    {
        self.places.len() < room_for(self.places.len())
    }

    /// Whether one could leave and be put back without memory. Takes no memory.
    pub(crate) fn may_put_back(&self) -> bool
        ensures { result ≡ has_room_behind (length self.now - 1) }
    {
        let left = self.places.len().saturating_sub(1);
        left < room_for(left)
    }

    /// One more goes out, if there is room (`has_room`). Takes no memory.
    pub(crate) fn push(&mut self, place: u64)
        ensures { self.new ≡ with_pushed place self.old }
    {
        if self.has_room() {
            self.ascends = self.ascends && is_behind(&self.places, place);
            self.places.push(place).unwrap();
        }
    }

    /// The last one leaves. Takes no memory.
    pub(crate) fn pop(&mut self)
        ensures { self.new ≡ without_last self.old }
    {
        self.places.pop();
    }

    /// The one at an index leaves, if one stands there. Takes no memory.
    pub(crate) fn remove(&mut self, index: usize)
        ensures { self.new ≡ remove self.old index }
    {
        if index < self.places.len() {
            self.places.remove(index);
        }
    }

    /// One is put back at an index, if there is room (`has_room`). Takes no memory.
    pub(crate) fn put_back(&mut self, index: usize, place: u64)
        ensures { self.new ≡ with_inserted index place self.old }
    {
        if index <= self.places.len() && self.has_room() {
            self.places.insert(index, place).unwrap();
            self.ascends = ascend(&self.places);
        }
    }

    /// The same places, in memory of their own.
    pub(crate) fn copied(&self, alloc: Global) -> Result<Places, AllocError>
        ensures { IfOk result (λ copy. copy ≡ self.now) }
    {
        Ok(Places {
            places: copied(alloc, &self.places)?,
            ascends: self.ascends,
        })
    }

    /// These places and one more, in memory of their own.
    pub(crate) fn with(&self, alloc: Global, place: u64) -> Result<Places, AllocError>
        ensures { IfOk result (λ more. more ≡ self.now ++ place ∷ []) }
    {
        let mut places = copied(alloc, &self.places)?;
        places.push(place).unwrap();
        Ok(Places {
            places,
            ascends: self.ascends && is_behind(&self.places, place),
        })
    }

    /// These places without one, in memory of their own.
    pub(crate) fn without(&self, alloc: Global, place: u64) -> Result<Places, AllocError>
        ensures { IfOk result (λ others. others ≡ ids_without place self.now) }
    {
        let mut places = copied(alloc, &self.places)?;
        drop_place(&mut places, place);
        Ok(Places {
            places,
            ascends: self.ascends,
        })
    }
}
