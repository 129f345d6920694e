//! The subscriptions of one session (MQTT 5.0, 3.8, 3.10).
ghost use Rattle.std.specs.Prelude.{◌≡◌, ◌+◌, ◌<◌, ◌≤◌, [], false, true, is_some, length, option_copied, slice_get, IfErr, OnErr, OnOk};
ghost use Rattle.mqtt_routes.specs.routing.Spots.{matched_at, number_of};
ghost use Rattle.mqtt_base.specs.declared.limits.TheConstants.{SUBSCRIPTION_LIMIT};
ghost use Rattle.mqtt_routes.specs.routing.Subscriptions.{has_filter, takes_filter, put, without, RefusesPut};

use crate::routing::fault::RoutesFault;
use crate::routing::row::Row;
use crate::routing::subscription::Subscription;
use indexmap::IndexSet;
use mqtt_base::SUBSCRIPTION_LIMIT;
use std::alloc::Global;
use std::hash::RandomState;
use std::marker::Model;

/// The subscriptions of a session, in the order subscribed.
#[derive(Drop)]
pub(crate) struct Subscriptions {
    rows: IndexSet<Row, RandomState>,
}

impl Model for Subscriptions {
    ghost use Rattle.std.specs.Prelude.{◌≤◌, length};
    ghost use Rattle.mqtt_base.specs.declared.limits.TheConstants.{SUBSCRIPTION_LIMIT};
    ghost use Rattle.indexmap.specs.IndexSet.{spare};
    ghost use Rattle.mqtt_routes.specs.routing.Subscriptions.{Held};

    ghost Value = { Held };

    ghost view = { λ s. record { subs = s.rows.keys; room = spare s.rows } };

    ghost invariant = { λ s. length s.rows.keys ≤ SUBSCRIPTION_LIMIT };
}

impl Subscriptions {
    /// No subscription.
    pub(crate) fn new(alloc: Global, hasher: RandomState) -> Subscriptions
        ensures { result.subs ≡ [] }
    {
        Subscriptions {
            rows: IndexSet::with_hasher(alloc, hasher),
        }
    }

    /// Makes room for so many subscriptions.
    pub(crate) fn make_room(&mut self, count: usize) -> Result<(), RoutesFault>
        ensures same { self.new.subs ≡ self.old.subs }
        ensures ok { OnOk result (count ≤ self.new.room) }
        ensures kept { self.old.room ≤ self.new.room }
        ensures fault { IfErr result (λ fault. fault ≡ RoutesFault.Memory) }
        ensures memory { OnErr result (self.old.room < count) }
    {
        Ok(self.rows.reserve(count)?)
    }

    /// Puts a subscription to a filter that has none, as the last.
    fn push(&mut self, subscription: Subscription) -> Result<(), RoutesFault>
        requires { has_filter subscription.filter self.old.subs ≡ false }
        ensures ok { OnOk result (self.new.subs ≡ put subscription self.old.subs) }
        ensures only { OnOk result (takes_filter subscription.filter self.old.subs ≡ true) }
        ensures err { OnErr result (self.new.subs ≡ self.old.subs) }
        ensures refused { IfErr result (RefusesPut subscription self.old.subs) }
        ensures memory { 0 < self.old.room → IfErr result (λ fault. fault ≡ RoutesFault.Full) }
        ensures room { self.old.room ≤ self.new.room + 1 }
    {
        if self.rows.len() >= SUBSCRIPTION_LIMIT {
            return Err(RoutesFault::Full);
        }
        self.rows.insert(Row::new(subscription, 0))?;
        Ok(())
    }

    /// Puts a subscription in place of the one to the same filter, or as the last.
    pub(crate) fn put(&mut self, subscription: Subscription) -> Result<(), RoutesFault>
        ensures ok { OnOk result (self.new.subs ≡ put subscription self.old.subs) }
        ensures only { OnOk result (takes_filter subscription.filter self.old.subs ≡ true) }
        ensures err { OnErr result (self.new.subs ≡ self.old.subs) }
        ensures refused { IfErr result (RefusesPut subscription self.old.subs) }
        ensures memory { 0 < self.old.room → IfErr result (λ fault. fault ≡ RoutesFault.Full) }
        ensures room { self.old.room ≤ self.new.room + 1 }
    {
        let Some(row) = self.rows.get(subscription.filter.as_str()) else {
            return self.push(subscription);
        };
        let place = row.subscription.place;
        let turn = row.turn.get();
        let subscription = Subscription {
            place,
            ..subscription
        };
        self.rows.replace(Row::new(subscription, turn))?;
        Ok(())
    }

    /// Removes the subscription to a filter, if there is one. Takes no memory.
    pub(crate) fn remove(&mut self, filter: &str) -> bool
        ensures found { result ≡ has_filter filter.now self.old.subs }
        ensures after { self.new.subs ≡ without filter.now self.old.subs }
        ensures room { self.old.room ≤ self.new.room }
    {
        self.rows.shift_remove(filter)
    }

    /// How many subscriptions there are. Takes no memory.
    pub(crate) fn count(&self) -> usize
        ensures count { result ≡ length self.now.subs }
        ensures most { result ≤ SUBSCRIPTION_LIMIT }
    {
        self.rows.len()
    }

    /// The number of the subscription to a filter, if there is one. Takes no memory.
    pub(crate) fn number(&self, filter: &str) -> Option<usize>
        ensures number { result ≡ number_of filter.now self.now.subs }
        ensures found { is_some result ≡ has_filter filter.now self.now.subs }
    {
        self.rows.get_index_of(filter)
    }

    /// The filter by which the subscription of a number is matched; none if there is none. Takes
    /// no memory.
    pub(crate) fn matched(&self, at: usize) -> &str
        ensures { result.now ≡ matched_at self.now.subs at }
    {
        match self.rows.get_index(at) {
            Some(row) => row.matched(),
            None => "",
        }
    }

    /// The subscription of a number, if there is one. Takes no memory.
    pub(crate) fn row(&self, at: usize) -> Option<&Row>
        ensures { option_copied result ≡ slice_get self.now.subs at }
    {
        self.rows.get_index(at)
    }

    /// Notes which member a group, named by its filter, chose last. Takes no memory.
    pub(crate) fn note_turn(&self, filter: &str, turn: u64) {
        if let Some(row) = self.rows.get(filter) {
            row.turn.set(turn);
        }
    }

    /// Notes which members the groups of another table chose last. Takes no memory.
    pub(crate) fn keep_turns(&self, other: &Subscriptions) {
        for row in other.rows.as_slice() {
            if row.is_shared() {
                self.note_turn(row.subscription.filter.as_str(), row.turn.get());
            }
        }
    }
}
