//! All ends of a world by their names (MQTT 5.0, 4.2 to 4.4).

ghost use Rattle.std.specs.Prelude.{◌≡◌, [], ◌∷◌, ◌++◌, map, OnOk};
ghost use Rattle.mqtt_world_model.specs.model.Ends.{new_publisher, new_receiver};
ghost use Rattle.mqtt_world_model.specs.model.Lines.{left};
ghost use Rattle.mqtt_world_model.specs.model.World.{Setting, before, give_up, happens, publish, publisher_restarted};
ghost use Rattle.mqtt_world_model.specs.model.World.{receiver_restarted, subscribe, to_end, with_line};
ghost use Rattle.mqtt_world_ends.specs.peers.Publishers.{draft_of};
ghost use Rattle.mqtt_world_ends.specs.peers.Receivers.{wish_of};
ghost use Rattle.mqtt_rules.specs.step.Step.{Outcome as Told};
ghost use Rattle.mqtt_broker.specs.stored.Calling.{Tells};
ghost use Rattle.mqtt_world.specs.clients.Ends.{Become, BecomeAt, joins, reading};
ghost use Rattle.mqtt_world.specs.clients.Lines.{changed};
ghost use Rattle.mqtt_world_laws.specs.knowing.Knowing.{AllIsUnderstood};
ghost use Rattle.mqtt_world.specs.clients.Telling.{AreSpelled, ends_told};

use crate::clients::lines::Change;
use crate::clients::{publishers, receivers};
use mqtt_base::Text;
use mqtt_broker::stored::{Engine, Outcome};
use mqtt_keep::Keep;
use mqtt_script::{Draft, Wish};
use mqtt_world_ends::peers::{PublisherEnd, ReceiverEnd};
use std::alloc::{AllocError, Global};
use std::marker::Model;

/// The ends of a world. After a call that finds no memory they are good for nothing more.
#[derive(Drop)]
pub struct Clients {
    pub(crate) alloc: Global,
    pub(crate) publishers: Vec<PublisherEnd>,
    pub(crate) receivers: Vec<ReceiverEnd>,
}

impl Model for Clients {
    ghost use Rattle.mqtt_world.specs.clients.Ends.{Ends};

    ghost Value = { Ends };

    ghost view = { λ c. record { publishers = c.publishers.items; receivers = c.receivers.items } };
}

impl Clients {
    /// There are none. Takes no memory.
    pub fn new(alloc: Global) -> Clients
        ensures { result ≡ record { publishers = []; receivers = [] } }
    {
        Clients {
            alloc,
            publishers: Vec::new(alloc),
            receivers: Vec::new(alloc),
        }
    }

    /// A publisher that has sent nothing.
    pub fn add_publisher(&mut self, client: Text) -> Result<(), AllocError>
        ensures { OnOk result (self.new
            ≡ record self.old { publishers = self.old.publishers ++ new_publisher client ∷ [] }) }
    {
        self.publishers.push(PublisherEnd::new(self.alloc, client))?;
        Ok(())
    }

    /// A receiver that has read nothing. `window` is its Receive Maximum (3.1.2.11.3), `aliases` its Topic Alias Maximum
    /// (3.1.2.11.5), `since` the last birth of a session before it is made.
    pub fn add_receiver(
        &mut self,
        client: Text,
        window: u16,
        aliases: u16,
        since: u64,
    ) -> Result<(), AllocError>
        ensures { OnOk result (self.new
            ≡ record self.old { receivers = self.old.receivers ++ new_receiver client window aliases since ∷ [] }) }
    {
        self.receivers.push(ReceiverEnd::new(self.alloc, client, window, aliases, since))?;
        Ok(())
    }

    fn change(&mut self, client: &str, change: Change)
        ensures { Become (with_line client.now (changed change) (changed change)) self.old self.new }
    {
        publishers::change_named(&mut self.publishers, client, change);
        receivers::change_named(&mut self.receivers, client, change);
    }

    /// An end leaves its line, and the broker may still read what is under way there. Takes no memory.
    pub fn give_up(&mut self, client: &str)
        ensures { (set : Setting) → Become (happens set (give_up client.now)) self.old self.new }
    {
        self.change(client, Change::GiveUp);
    }

    /// The line of an end is lost on its side. Takes no memory.
    pub fn leave(&mut self, client: &str)
        ensures { Become (with_line client.now left left) self.old self.new }
    {
        self.change(client, Change::Leave);
    }

    /// The first packet under way from an end is taken off its line, or off the line that it gave up last. Takes no
    /// memory.
    pub fn take(&mut self, client: &str, old: bool)
        ensures { (set : Setting) → Become (before set (reading old client.now)) self.old self.new }
    {
        if old {
            self.change(client, Change::TakeOld);
        } else {
            self.change(client, Change::TakeUp);
        }
    }

    /// The broker was restarted: no line is left. Takes no memory.
    pub fn restart(&mut self)
        ensures publishers { self.new.publishers ≡ map publisher_restarted self.old.publishers }
        ensures receivers { self.new.receivers ≡ map receiver_restarted self.old.receivers }
    {
        publishers::restart(&mut self.publishers);
        receivers::restart(&mut self.receivers);
    }

    /// An end sends CONNECT on a new line (3.1).
    pub fn join(&mut self, client: &str, number: u64, clean: bool) -> Result<(), AllocError>
        ensures { OnOk result (Become (joins number client.now clean) self.old self.new) }
    {
        publishers::join_named(&mut self.publishers, client, number, clean)?;
        receivers::join_named(&mut self.receivers, client, number, clean)
    }

    /// A publisher has a new message (3.3). What may go out goes out, and is lost if the broker no longer has its
    /// line.
    pub fn publish<K: Keep>(
        &mut self,
        client: &str,
        draft: &Draft,
        engine: &Engine<K>,
    ) -> Result<(), AllocError>
        ensures { OnOk result ((set : Setting) → BecomeAt engine.now.broker
            (happens set (publish client.now (draft_of draft.now))) self.old self.new) }
    {
        publishers::publish_named(&mut self.publishers, client, draft, engine)
    }

    /// A receiver sends SUBSCRIBE (3.8), which is lost if the broker no longer has its line.
    pub fn subscribe<K: Keep>(
        &mut self,
        client: &str,
        wish: &Wish,
        engine: &Engine<K>,
    ) -> Result<(), AllocError>
        ensures { OnOk result ((set : Setting) → BecomeAt engine.now.broker
            (happens set (subscribe client.now (wish_of wish.now))) self.old self.new) }
    {
        receivers::ask_named(&mut self.receivers, client, wish, engine)
    }

    /// An end reads the first packet under way to it. What goes out for it is lost if the broker no longer has its
    /// line.
    pub fn read<K: Keep>(&mut self, client: &str, engine: &Engine<K>) -> Result<(), AllocError>
        ensures { OnOk result ((set : Setting) → BecomeAt engine.now.broker
            (happens set (to_end client.now)) self.old self.new) }
    {
        publishers::read_named(&mut self.publishers, client, engine)?;
        receivers::read_named(&mut self.receivers, client, engine)
    }

    /// What the broker answered reaches all ends. The engine is as the call left it.
    pub fn tell<K: Keep>(&mut self, engine: &Engine<K>, outcome: &Outcome) -> Result<(), AllocError>
        ensures told { (told : Told) → Tells told outcome.now → AreSpelled told
            → AllIsUnderstood told self.old.publishers self.old.receivers
            → OnOk result (self.new ≡ ends_told engine.now.broker told self.old) }
    {
        publishers::tell(self.alloc, &mut self.publishers, engine, outcome)?;
        receivers::tell(self.alloc, &mut self.receivers, engine, outcome)
    }
}
