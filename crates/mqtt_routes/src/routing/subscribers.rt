//! The subscriptions of all sessions, by birth (MQTT 5.0, 3.8, 3.10).
ghost use Rattle.std.specs.Prelude.{◌≡◌, ◌≤◌, ◌∷◌, [], ℕ, List, false, true, is_some, length, option_copied, slice_get, IfErr, IfNone, IfOk, IfSome, OnErr, OnOk};
ghost use Rattle.mqtt_routes.specs.routing.Spots.{matched_at, number_of};
ghost use Rattle.mqtt_base.specs.declared.limits.TheConstants.{SUBSCRIPTION_LIMIT};
ghost use Rattle.mqtt_routes.specs.routing.Subscriptions.{has_filter, takes_filter, spot_of, subs_of, subscribed, unsubscribed, without_session, standing, filters_of, have_room, AreInOrder, RefusesPut};

use crate::routing::fault::RoutesFault;
use crate::routing::row::Row;
use crate::routing::spot::Spot;
use crate::routing::subscriber::Subscriptions;
use crate::routing::subscription::Subscription;
use crate::routing::table::SubscriptionTable;
use indexmap::IndexMap;
use std::alloc::Global;
use std::hash::RandomState;
use std::marker::Model;

/// All sessions that have subscribed, in the order of births. A session is found by the hash of its
/// birth; only a new one is put at its place, by a binary search, and moves those that were born
/// after it: mostly none, since sessions mostly subscribe as they are born.
#[derive(Drop)]
pub(crate) struct Subscribers {
    alloc: Global,
    /// For the filters, which strangers choose; births are ours.
    hasher: RandomState,
    sessions: IndexMap<u64, Subscriptions>,
}

impl Model for Subscribers {
    ghost use Rattle.mqtt_routes.specs.routing.Subscriptions.{HeldSessions, subscribers, rooms, AreInOrder};

    ghost Value = { HeldSessions };

    ghost view = { λ s. record { sessions = subscribers s.sessions.entries; room = rooms s.sessions.entries } };

    ghost invariant = { λ s. AreInOrder (subscribers s.sessions.entries) };
}

impl SubscriptionTable for Subscribers {
    ghost sessions = { λ s. s.sessions };

    ghost room = { λ s. s.room };

    fn make_room(&mut self, birth: u64, new: &[Subscription]) -> Result<(), RoutesFault> {
        if new.is_empty() {
            return Ok(());
        }
        if let Some(subscriptions) = self.sessions.get_mut(&birth) {
            return subscriptions.make_room(new.len());
        }
        let mut subscriptions = Subscriptions::new(self.alloc, self.hasher);
        subscriptions.make_room(new.len())?;
        let i = self.spot(birth);
        self.sessions.shift_insert(i, birth, subscriptions)?;
        Ok(())
    }

    fn subscribe(&mut self, birth: u64, subscription: Subscription) -> Result<(), RoutesFault> {
        if let Some(subscriptions) = self.sessions.get_mut(&birth) {
            return subscriptions.put(subscription);
        }
        let mut subscriptions = Subscriptions::new(self.alloc, self.hasher);
        subscriptions.put(subscription)?;
        let i = self.spot(birth);
        self.sessions.shift_insert(i, birth, subscriptions)?;
        Ok(())
    }

    fn unsubscribe(&mut self, birth: u64, filter: &str) -> bool {
        let Some(subscriptions) = self.sessions.get_mut(&birth) else {
            return false;
        };
        subscriptions.remove(filter)
    }

    fn drop_session(&mut self, birth: u64) {
        let _subscriptions = self.sessions.shift_remove(&birth);
    }

    fn show_order(&self) {
        let _sessions = &self.sessions;
    }
}

impl Subscribers {
    /// No session.
    pub(crate) fn new(alloc: Global, hasher: RandomState) -> Subscribers
        ensures { result.sessions ≡ [] }
    {
        Subscribers {
            alloc,
            hasher,
            sessions: IndexMap::new(alloc),
        }
    }

    /// Where a session stands, or would stand.
    fn spot(&self, birth: u64) -> usize
        ensures { result ≡ spot_of birth self.now.sessions }
    {
        self.sessions
            .keys()
            .as_slice()
            .partition_point(|other| *other < birth)
    }

    /// How many subscriptions a session has. Takes no memory.
    pub(crate) fn count(&self, birth: u64) -> usize
        ensures count { result ≡ length (subs_of birth self.now.sessions) }
        ensures most { result ≤ SUBSCRIPTION_LIMIT }
    {
        match self.sessions.get(&birth) {
            Some(subscriptions) => subscriptions.count(),
            None => 0,
        }
    }

    /// The number of the subscription of a session to a filter, if there is one. Takes no memory.
    pub(crate) fn number(&self, birth: u64, filter: &str) -> Option<usize>
        ensures number { result ≡ number_of filter.now (subs_of birth self.now.sessions) }
        ensures found { is_some result ≡ has_filter filter.now (subs_of birth self.now.sessions) }
    {
        match self.sessions.get(&birth) {
            Some(subscriptions) => subscriptions.number(filter),
            None => None,
        }
    }

    /// The filter by which a session's subscription of a number is matched; none if it has none.
    /// Takes no memory.
    pub(crate) fn matched(&self, birth: u64, at: usize) -> &str
        ensures { result.now ≡ matched_at (subs_of birth self.now.sessions) at }
    {
        match self.sessions.get(&birth) {
            Some(subscriptions) => subscriptions.matched(at),
            None => "",
        }
    }

    /// The subscriptions of a session, if it is the one that stands at a seat. Takes no memory.
    fn at_seat(&self, birth: u64, seat: usize) -> Option<&Subscriptions>
        ensures { IfSome result (λ own. own.now.subs ≡ subs_of birth self.now.sessions) }
    {
        match self.sessions.get_index(seat) {
            Some((other, own)) => { if *other == birth { Some(own) } else { None } }
            None => None,
        }
    }

    /// The subscriptions of a session, if it stands in the table. It is looked for at a seat and at
    /// the next one, and only then by its hash. The seat becomes that of the session, or stays near.
    /// Takes no memory.
    fn near(&self, birth: u64, seat: &mut usize) -> Option<&Subscriptions>
        ensures some { IfSome result (λ own. own.now.subs ≡ subs_of birth self.now.sessions) }
        ensures none { IfNone result (subs_of birth self.now.sessions ≡ []) }
    {
        if let Some(own) = self.at_seat(birth, *seat) {
            return Some(own);
        }
        *seat = seat.saturating_add(1);
        if let Some(own) = self.at_seat(birth, *seat) {
            return Some(own);
        }
        match self.sessions.get_full(&birth) {
            Some((found, _, own)) => {
                *seat = found;
                Some(own)
            }
            None => None,
        }
    }

    /// The subscription that stands at a spot, if there is one. Spots mostly come by births: `seat`
    /// is where the session of the one before stands, and becomes that of this one's. It is a guess
    /// alone: any number will do. Takes no memory.
    pub(crate) fn row(&self, spot: Spot, seat: &mut usize) -> Option<&Row>
        ensures { option_copied result ≡ slice_get (subs_of spot.birth self.now.sessions) spot.at }
    {
        match self.near(spot.birth, seat) {
            Some(subscriptions) => subscriptions.row(spot.at),
            None => None,
        }
    }

    /// Notes which member a group, named by its filter and the births of its members, chose last.
    /// Takes no memory.
    pub(crate) fn note_turn(&self, filter: &str, members: &[u64], turn: u64) {
        for birth in members {
            if let Some(subscriptions) = self.sessions.get(birth) {
                subscriptions.note_turn(filter, turn);
            }
        }
    }

    /// Notes which members the groups of another table chose last. Takes no memory.
    pub(crate) fn keep_turns(&self, other: &Subscribers) {
        for birth in other.sessions.keys().as_slice() {
            if let (Some(own), Some(others)) = (
                self.sessions.get(birth),
                other.sessions.get(birth),
            ) {
                own.keep_turns(others);
            }
        }
    }
}
