//! The subscriptions of all sessions, found by the levels of their filters (MQTT 5.0, 3.8, 3.10, 4.7).
ghost use Rattle.std.specs.Prelude.{◌≡◌, ◌<◌, ◌∷◌, [], ℕ, List, false, true, length, get_or, IfErr, IfOk, OnErr, OnOk};
ghost use Rattle.mqtt_routes.specs.routing.Found.{found_in, spots_in};
ghost use Rattle.mqtt_routes.specs.routing.Spots.{texts_of};
ghost use Rattle.mqtt_routes.specs.routing.Subscriptions.{has_filter, takes_filter, subs_of, subscribed, unsubscribed, without_session, standing, filters_of, have_room, AreInOrder, RefusesPut};

use crate::routing::fault::RoutesFault;
use crate::routing::found::Found;
use crate::routing::publication::Publication;
use crate::routing::spot::{Spot, move_down};
use crate::routing::subscribers::Subscribers;
use crate::routing::subscription::Subscription;
use crate::routing::table::SubscriptionTable;
use crate::tree::{Filters, matching, place};
use mqtt_base::SUBSCRIPTION_LIMIT;
use mqtt_topic::TopicName;
use std::alloc::Global;
use std::hash::RandomState;
use std::marker::Model;

/// The subscriptions of all sessions, and where each stands in the order of the levels of its
/// filter, which is the tree of the filters laid flat.
#[derive(Drop)]
pub(crate) struct SubscriptionTree {
    alloc: Global,
    subscribers: Subscribers,
    /// Each subscription once.
    spots: Vec<Spot>,
}

impl Model for SubscriptionTree {
    ghost use Rattle.std.specs.Prelude.{◌-◌};
    ghost use Rattle.std.specs.Vec.{vec_capacity, vec_len};
    ghost use Rattle.mqtt_routes.specs.routing.Spots.{IsIndex, SpottedSessions, rooms_within};

    ghost Value = { SpottedSessions };

    ghost view = { λ t. record {
      sessions = t.subscribers.sessions;
      room = rooms_within (vec_capacity t.spots - vec_len t.spots) t.subscribers.room;
      spots = t.spots.items;
    } };

    ghost invariant = { λ t. IsIndex t.subscribers.sessions t.spots.items };
}

impl Filters for SubscriptionTree {
    ghost texts = { λ t. texts_of t.sessions t.spots };

    fn count(&self) -> usize {
        self.spots.len()
    }

    fn text(&self, number: usize) -> &str {
        let spot = self.spots[number];
        self.subscribers.matched(spot.birth, spot.at)
    }
}

impl SubscriptionTable for SubscriptionTree {
    ghost sessions = { λ t. t.sessions };

    ghost room = { λ t. t.room };

    fn make_room(&mut self, birth: u64, new: &[Subscription]) -> Result<(), RoutesFault> {
        self.subscribers.show_order();
        self.spots.reserve(new.len())?;
        self.subscribers.make_room(birth, new)
    }

    fn subscribe(&mut self, birth: u64, subscription: Subscription) -> Result<(), RoutesFault> {
        self.subscribers.show_order();
        if self
            .subscribers
            .number(birth, subscription.filter.as_str())
            .is_some()
        {
            return self.subscribers.subscribe(birth, subscription);
        }
        let at = self.subscribers.count(birth);
        if at >= SUBSCRIPTION_LIMIT {
            return Err(RoutesFault::Full);
        }
        self.spots.reserve(1)?;
        let number = place(self, &subscription.filter);
        self.subscribers.subscribe(birth, subscription)?;
        self.spots.insert(number, Spot { birth, at })?;
        Ok(())
    }

    fn unsubscribe(&mut self, birth: u64, filter: &str) -> bool {
        self.subscribers.show_order();
        let Some(at) = self.subscribers.number(birth, filter) else {
            return false;
        };
        self.subscribers.unsubscribe(birth, filter);
        self.spots
            .retain(|spot| !(birth == spot.birth && at == spot.at));
        move_down(&mut self.spots, birth, at);
        true
    }

    fn drop_session(&mut self, birth: u64) {
        self.subscribers.show_order();
        self.spots.retain(|spot| spot.birth != birth);
        self.subscribers.drop_session(birth);
    }

    fn show_order(&self) {
        self.subscribers.show_order();
    }
}

impl SubscriptionTree {
    /// No session. Filters, which strangers choose, are hashed by `hasher`.
    pub(crate) fn new(alloc: Global, hasher: RandomState) -> SubscriptionTree
        ensures { result.sessions ≡ [] }
    {
        SubscriptionTree {
            alloc,
            subscribers: Subscribers::new(alloc, hasher),
            spots: Vec::new(alloc),
        }
    }

    /// Where the subscriptions to a topic stand, by session birth, and those of a session in the
    /// order subscribed.
    fn spots_to(&self, publication: &Publication<'_>) -> Result<Vec<Spot>, RoutesFault>
        ensures spots { IfOk result (λ spots. spots.items
            ≡ spots_in publication.now self.now.sessions) }
        ensures fault { IfErr result (λ fault. fault ≡ RoutesFault.Memory) }
    {
        self.subscribers.show_order();
        let mut found = matching(self.alloc, self, publication.topic)?;

        // Of equal filters the one that was put last comes first. So this way round the spots of one
        // filter mostly rise, and then the sort only looks.
        found.reverse();
        let mut spots = Vec::with_capacity(self.alloc, found.len())?;
        for number in found.as_slice() {
            spots.push(self.spots[*number])?;
        }
        spots.sort_unstable();
        Ok(spots)
    }

    /// The subscriptions to a topic, by session birth, and those of a session in the order
    /// subscribed.
    pub(crate) fn found<'a>(
        &'a self,
        publication: &Publication<'_>,
    ) -> Result<Vec<Found<'a>>, RoutesFault>
        ensures found { IfOk result (λ found. found.items
            ≡ found_in publication.now self.now.sessions) }
        ensures fault { IfErr result (λ fault. fault ≡ RoutesFault.Memory) }
    {
        self.subscribers.show_order();
        let spots = self.spots_to(publication)?;
        let mut found = Vec::with_capacity(self.alloc, spots.len())?;
        let mut seat = 0;
        for spot in spots.as_slice() {
            let birth = spot.birth;
            if let Some(row) = self.subscribers.row(*spot, &mut seat) {
                found.push(Found { birth, row })?;
            }
        }
        Ok(found)
    }

    /// Notes which member a group, named by its filter and the births of its members, chose last.
    /// Takes no memory.
    pub(crate) fn note_turn(&self, filter: &str, members: &[u64], turn: u64) {
        self.subscribers.note_turn(filter, members, turn);
    }

    /// Notes which members the groups of another table chose last. Takes no memory.
    pub(crate) fn keep_turns(&self, other: &SubscriptionTree) {
        self.subscribers.keep_turns(&other.subscribers);
    }
}
