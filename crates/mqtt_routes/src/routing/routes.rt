//! The table of subscriptions, and where a publication goes (MQTT 5.0, 3.3.4, 3.8, 3.10, 4.8).
ghost use Rattle.std.specs.Prelude.{◌≡◌, ◌∷◌, ℕ, List, [], true, false, map, IfErr, IfOk, OnErr, OnOk};
ghost use Rattle.mqtt_routes.specs.routing.Intended.{published};
ghost use Rattle.mqtt_routes.specs.routing.Subscriptions.{has_filter, takes_filter, subs_of, subscribed, unsubscribed, without_session, standing, filters_of, AreInOrder, RefusesPut};
ghost use Rattle.mqtt_topic.specs.names.Filters.{matching_part_of};
ghost use Rattle.mqtt_routes.specs.routing.Retained.{retain, kept_for, takes_topic, has_room_for, has_room_of, names_of, RefusesRetain};
ghost use Rattle.mqtt_routes.specs.routing.Acceptance.{IsRouting, RefusesRoute};

use crate::routing::answers::Sessions;
use crate::routing::fault::RoutesFault;
use crate::routing::found::{directs, members};
use crate::routing::publication::Publication;
use crate::routing::retained::{Kept, KeptTable};
use crate::routing::routed::Routed;
use crate::routing::serve::{has_room, serve};
use crate::routing::service::service_of;
use crate::routing::subscription::Subscription;
use crate::routing::subscription_tree::SubscriptionTree;
use crate::routing::table::SubscriptionTable;
use mqtt_topic::{SubFilter, TopicName};
use std::alloc::Global;
use std::hash::RandomState;
use std::marker::Model;

/// The subscriptions of all sessions, and the retained messages, each of which is an `M`.
#[derive(Drop)]
pub struct Routes<M> {
    alloc: Global,
    subscribers: SubscriptionTree,
    retained: KeptTable<M>,
}

impl<M> Model for Routes<M> {
    ghost use Rattle.mqtt_routes.specs.routing.Retained.{Index};

    ghost Value = { Index M };

    ghost view = { λ r. record {
      table = record {
        sessions = r.subscribers.sessions;
        retained = r.retained.messages;
        topic_limit = r.retained.limit;
      };
      session_room = r.subscribers.room;
      topic_room = r.retained.room;
    } };
}

impl<M: Drop> Routes<M> {
    /// A table without subscriptions and messages, where `topics` topics can have a retained message
    /// (ours). Filters and topics, which strangers choose, are hashed by `hasher`.
    pub fn new(alloc: Global, hasher: RandomState, topics: usize) -> Routes<M>
        ensures sessions { result.table.sessions ≡ [] }
        ensures retained { result.table.retained ≡ [] }
        ensures limit { result.table.topic_limit ≡ topics }
    {
        Routes {
            alloc,
            subscribers: SubscriptionTree::new(alloc, hasher),
            retained: KeptTable::new(alloc, hasher, topics),
        }
    }

    /// Makes room for subscriptions of a session, so that `subscribe` of each takes no memory. The
    /// session stands in the table from then on, if need be without subscriptions. Its only fault is
    /// 2 (Memory), and only if there was no room.
    pub fn make_room(&mut self, birth: u64, new: &[Subscription]) -> Result<(), RoutesFault>
        ensures ok { OnOk result (self.new.table
            ≡ record self.old.table {
              sessions = standing birth (filters_of new.now) self.old.table.sessions;
            }) }
        ensures err { OnErr result (self.new.table ≡ self.old.table) }
        ensures room { OnOk result (has_room_for birth (filters_of new.now) self.new ≡ true) }
        ensures fault { IfErr result (λ fault. fault ≡ RoutesFault.Memory) }
        ensures memory { OnErr result (has_room_for birth (filters_of new.now) self.old ≡ false) }
    {
        self.subscribers.make_room(birth, new)
    }

    /// Puts a subscription of a session: one to the same filter is replaced and keeps its place
    /// (3.8.4). 1 (Full) if `SUBSCRIPTION_LIMIT` stand and this one is new, and only there.
    pub fn subscribe(&mut self, birth: u64, subscription: Subscription) -> Result<(), RoutesFault>
        ensures ok { OnOk result (self.new.table ≡ record self.old.table {
          sessions = subscribed birth subscription self.old.table.sessions;
        }) }
        ensures only { OnOk result (takes_filter subscription.filter
            (subs_of birth self.old.table.sessions) ≡ true) }
        ensures err { OnErr result (self.new.table ≡ self.old.table) }
        ensures refused { IfErr result
            (RefusesPut subscription (subs_of birth self.old.table.sessions)) }

        // With room it takes no memory, and uses up its own room alone.
        ensures memory { (rest : List (List ℕ))
            → has_room_for birth (subscription.filter ∷ rest) self.old ≡ true
            → IfErr result (λ fault. fault ≡ RoutesFault.Full) }
        ensures room { (rest : List (List ℕ))
            → has_room_for birth (subscription.filter ∷ rest) self.old ≡ true
            → has_room_for birth rest self.new ≡ true }
    {
        self.subscribers.subscribe(birth, subscription)
    }

    /// Removes the subscription of a session to a filter, and says whether there was one (3.10.4).
    /// Takes no memory.
    pub fn unsubscribe(&mut self, birth: u64, filter: &str) -> bool
        ensures found { result ≡ has_filter filter.now (subs_of birth self.old.table.sessions) }
        ensures after { self.new.table ≡ record self.old.table {
          sessions = unsubscribed birth filter.now self.old.table.sessions;
        } }
    {
        self.subscribers.unsubscribe(birth, filter)
    }

    /// Removes the subscriptions of a session that ended. Takes no memory.
    pub fn drop_session(&mut self, birth: u64)
        ensures after { self.new.table ≡ record self.old.table {
          sessions = without_session birth self.old.table.sessions;
        } }
        ensures order { AreInOrder self.old.table.sessions }
        ensures room { (topics : List (List ℕ)) → has_room_of topics self.old ≡ true
            → has_room_of topics self.new ≡ true }
    {
        self.subscribers.show_order();
        self.subscribers.drop_session(birth);
    }

    /// Where a publication of a client goes (3.3.4, 4.8.2). 1 (Full) if a queue that it needs
    /// has no room.
    pub fn route<S: Sessions>(
        &self,
        sender: &str,
        topic: &TopicName,
        qos: u8,
        retain: bool,
        at: &S,
    ) -> Result<Routed, RoutesFault>
        ensures routed { IfOk result (IsRouting (S.answers at.now)
            (published sender.now topic.now qos retain) self.now.table.sessions) }
        ensures refused { IfErr result (RefusesRoute (S.answers at.now)
            (published sender.now topic.now qos retain) self.now.table.sessions) }

        // The sessions stand in the order of their births.
        ensures order { AreInOrder self.now.table.sessions }
    {
        let publication = Publication {
            sender,
            topic,
            qos: service_of(qos),
            retain,
        };
        self.subscribers.show_order();
        let found = self.subscribers.found(&publication)?;
        let direct = directs(self.alloc, &publication, at, found.as_slice())?;
        if !has_room(at, direct.as_slice()) {
            return Err(RoutesFault::Full);
        }
        let members = members(self.alloc, found.as_slice())?;
        let served = serve(
            self.alloc,
            at,
            &publication,
            direct.as_slice(),
            members.as_slice(),
        )?;
        Ok(Routed { direct, served })
    }

    /// Notes the members that a publication chose, so that each group's next one comes after it in
    /// the order joined (ours). Call it once the publication is accepted. Takes no memory.
    pub fn chose(&mut self, routed: &Routed)
        ensures { self.new ≡ self.old }
    {
        for served in &routed.served {
            let turn = &served.turn;
            let filter = served.filter.as_str();
            self.subscribers
                .note_turn(filter, turn.members.as_slice(), turn.chosen);
        }
    }

    /// Takes back what `chose` noted of a publication, the last one of which it was noted: it isn't
    /// accepted after all. Takes no memory.
    pub fn forgo(&mut self, routed: &Routed)
        ensures { self.new ≡ self.old }
    {
        for served in &routed.served {
            let turn = &served.turn;
            let filter = served.filter.as_str();
            self.subscribers
                .note_turn(filter, turn.members.as_slice(), turn.before);
        }
    }

    /// Notes of its groups which members those of another table chose last: it is made anew in that
    /// one's place. Takes no memory.
    pub fn keep_turns(&mut self, other: &Routes<M>)
        ensures { self.new ≡ self.old }
    {
        self.subscribers.keep_turns(&other.subscribers);
    }

    /// Makes room for retained messages of topics, so that `retain` of each takes no memory. Its only
    /// fault is 2 (Memory), and only if there was no room.
    pub fn make_topic_room(&mut self, topics: &[&TopicName]) -> Result<(), RoutesFault>
        ensures same { self.new.table ≡ self.old.table }
        ensures room { OnOk result (has_room_of (names_of topics.now) self.new ≡ true) }
        ensures fault { IfErr result (λ fault. fault ≡ RoutesFault.Memory) }
        ensures memory { OnErr result (has_room_of (names_of topics.now) self.old ≡ false) }
    {
        self.retained.make_room(topics.len())
    }

    /// Retains a message for a topic in place of the one before, or with none removes that one
    /// (3.3.1.3). 1 (Full) if as many topics as the table takes have one and this topic hasn't, and
    /// only there.
    pub fn retain(&mut self, topic: TopicName, message: Option<M>) -> Result<(), RoutesFault>
        ensures ok { OnOk result (self.new.table
            ≡ record self.old.table { retained = retain topic message self.old.table.retained }) }
        ensures only { OnOk result (takes_topic topic message self.old.table ≡ true) }
        ensures err { OnErr result (self.new.table ≡ self.old.table) }
        ensures refused { IfErr result (RefusesRetain topic message self.old.table) }

        // With room it takes no memory, and uses up its own room alone.
        ensures memory { (rest : List (List ℕ)) → has_room_of (topic ∷ rest) self.old ≡ true
            → IfErr result (λ fault. fault ≡ RoutesFault.Full) }
        ensures room { (rest : List (List ℕ)) → has_room_of (topic ∷ rest) self.old ≡ true
            → has_room_of rest self.new ≡ true }
    {
        match message {
            Some(message) => self.retained.keep(topic, message),
            None => {
                self.retained.forget(topic.as_str());
                Ok(())
            }
        }
    }

    /// The retained messages that a subscription's filter matches, in the order in which their
    /// topics were first retained (3.3.1.3). Its only fault is 2 (Memory).
    pub fn retained_for(&self, filter: &SubFilter) -> Result<Vec<&Kept<M>>, RoutesFault>
        ensures kept { IfOk result (λ found. map (λ k. k.now) found.items
            ≡ kept_for (matching_part_of filter.now) self.now.table.retained) }
        ensures fault { IfErr result (λ fault. fault ≡ RoutesFault.Memory) }
    {
        self.retained.kept_for(filter)
    }
}
