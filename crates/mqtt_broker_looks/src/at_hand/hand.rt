//! What is at hand of all queues (MQTT 5.0, 4.1, 4.6).
ghost use Rattle.std.specs.Prelude.{◌≡◌, ◌≢◌, ◌≤◌, ℕ, false, IsTrue, Some, option_copied, length};
ghost use Rattle.mqtt_flow.specs.declared.ring.at_hand.TheConstants.{AT_HAND_LIMIT};
ghost use Rattle.mqtt_flow.specs.ring.AtHand.{content_at, left, nothing_waits};
ghost use Rattle.mqtt_records.specs.messages.Content.{CopyContent};
ghost use Rattle.mqtt_records.specs.declared.state.records.Records.{Records};
ghost use Rattle.mqtt_records.specs.state.Telling.{contents_from};
ghost use Rattle.mqtt_broker_looks.specs.at_hand.Following.{copy_put};
ghost use Rattle.mqtt_broker_looks.specs.at_hand.Hand.{IsQueueInOrder, SayWhatIsStored, at_hand_of, by_place, stored_content};

use crate::at_hand::contents::{are_in_order, with_places};
use mqtt_flow::{AT_HAND_LIMIT, AtHand};
use mqtt_records::{CopyContent, CopyRow, content_of};
use std::alloc::Global;
use std::collections::BTreeMap;
use std::marker::Model;

/// What at most 64 copies of each session's queue say, by the session's birth and the place in its
/// queue. It is a cache of what a store has: where memory is wanting, less is at hand. It takes its
/// memory when something is put in.
#[derive(Drop)]
pub struct AllAtHand {
    sessions: BTreeMap<u64, AtHand<CopyContent>>,
}

impl Model for AllAtHand {
    ghost use Rattle.mqtt_broker_looks.specs.at_hand.Hand.{Hand};

    ghost Value = { Hand };

    ghost view = { λ a. a.sessions.entries };
}

impl AllAtHand {
    /// Nothing is at hand yet. Takes no memory.
    pub fn new(alloc: Global) -> AllAtHand
        ensures { (birth : ℕ) → at_hand_of birth result ≡ nothing_waits }
    {
        AllAtHand {
            sessions: BTreeMap::new(alloc),
        }
    }

    /// What the copy at a place of a session's queue says, if that is at hand. Takes no memory.
    pub fn find(&self, birth: u64, place: u64) -> Option<&CopyContent>
        ensures found { option_copied result ≡ content_at place (at_hand_of birth self.now) }
        ensures stored { (r : Records) (content : CopyContent) → SayWhatIsStored self.now r
            → option_copied result ≡ Some content → stored_content birth place r ≡ Some content }
    {
        match self.sessions.get(&birth) {
            Some(at_hand) => at_hand.find(place),
            None => None,
        }
    }

    /// Takes out what is at hand of a session.
    fn take(&mut self, birth: u64) -> AtHand<CopyContent>
        ensures taken { result ≡ at_hand_of birth self.old }
        ensures rest { at_hand_of birth self.new ≡ nothing_waits }
        ensures others { (other : ℕ) → other ≢ birth → at_hand_of other self.new ≡ at_hand_of other self.old }
    {
        match self.sessions.remove(&birth) {
            Some(at_hand) => at_hand,
            None => AtHand::new(),
        }
    }

    /// Puts in what is at hand of a session; where memory is wanting, nothing is.
    fn put(&mut self, birth: u64, at_hand: AtHand<CopyContent>) -> bool
        requires { at_hand_of birth self.old ≡ nothing_waits }
        ensures all { IsTrue result → at_hand_of birth self.new ≡ at_hand }
        ensures lost { result ≡ false → at_hand_of birth self.new ≡ nothing_waits }
        ensures others { (other : ℕ) → other ≢ birth → at_hand_of other self.new ≡ at_hand_of other self.old }
    {
        self.sessions.insert(birth, at_hand).is_ok()
    }

    /// A copy has come into a session's queue, in place of one that stood there. Where memory is wanting,
    /// or the row is slim, nothing is at hand of the session any more, and the answer is false.
    pub(crate) fn enter(&mut self, alloc: Global, birth: u64, row: &CopyRow) -> bool
        ensures all { IsTrue result → at_hand_of birth self.new ≡ copy_put row.now (at_hand_of birth self.old) }
        ensures lost { result ≡ false → at_hand_of birth self.new ≡ nothing_waits }
        ensures others { (other : ℕ) → other ≢ birth → at_hand_of other self.new ≡ at_hand_of other self.old }
    {
        let mut at_hand = self.take(birth);
        at_hand.leave(row.place());
        let Ok(content) = content_of(alloc, row) else {
            return false;
        };
        if at_hand.enter(alloc, row.place(), content).is_err() {
            return false;
        }
        self.put(birth, at_hand)
    }

    /// The copy at a place has left a session's queue: it isn't at hand any more, and the others are.
    /// Takes no memory.
    pub(crate) fn leave(&mut self, birth: u64, place: u64)
        ensures here { at_hand_of birth self.new ≡ left place (at_hand_of birth self.old) }
        ensures others { (other : ℕ) → other ≢ birth → at_hand_of other self.new ≡ at_hand_of other self.old }
    {
        if let Some(at_hand) = self.sessions.get_mut(&birth) {
            at_hand.leave(place);
        }
    }

    /// What consecutive copies of a session say, as they were read, is put in place of all that is at hand
    /// of it. `reaches_end` says whether no copy waits behind them. Where memory is wanting, or their places
    /// don't ascend, or they are more than 64, nothing is at hand of the session, and the answer is false.
    pub fn fill(
        &mut self,
        alloc: Global,
        birth: u64,
        contents: Vec<CopyContent>,
        reaches_end: bool,
    ) -> bool
        ensures all { IsTrue result
            → at_hand_of birth self.new ≡ record { entries = by_place contents.items; reaches_end = reaches_end } }
        ensures lost { result ≡ false → at_hand_of birth self.new ≡ nothing_waits }
        ensures others { (other : ℕ) → other ≢ birth → at_hand_of other self.new ≡ at_hand_of other self.old }

        // What a store told stays true.
        ensures stored { (r : Records) (place limit : ℕ) → SayWhatIsStored self.old r
            → IsQueueInOrder birth r → contents.items ≡ contents_from birth place limit r
            → SayWhatIsStored self.new r }
    {
        let mut at_hand = self.take(birth);
        if contents.len() > AT_HAND_LIMIT || !are_in_order(&contents) {
            drop(contents);
            return false;
        }
        let Ok(entries) = with_places(alloc, contents) else {
            return false;
        };
        at_hand.fill(alloc, entries, reaches_end).is_ok() && self.put(birth, at_hand)
    }

    /// Nothing is at hand of a session any more. Its memory is given back.
    pub fn clear(&mut self, birth: u64)
        ensures here { at_hand_of birth self.new ≡ nothing_waits }
        ensures others { (other : ℕ) → other ≢ birth → at_hand_of other self.new ≡ at_hand_of other self.old }
    {
        let _at_hand = self.take(birth);
    }
}
