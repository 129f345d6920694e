//! An event of a script happens in which ends and the broker alone take part (MQTT 5.0, 4.1 to 4.4).

ghost use Rattle.std.specs.Prelude.{IfOk};
ghost use Rattle.mqtt_world.specs.script_laws.Scripted.{event_of};
ghost use Rattle.mqtt_world.specs.scene.Playing.{DoesIf, IsOfEnds};
ghost use Rattle.mqtt_world.specs.scene.Scenes.{IsPlayable};

use crate::scene::halt::Halt;
use crate::scene::scene::Scene;
use mqtt_keep::Keep;
use mqtt_script::Event;
use mqtt_world_ends::peers::Told;
use std::alloc::Global;

impl<K: Keep> Scene<K> {
    /// An event in which ends and the broker alone take part, and the broker stays open.
    pub fn play(&mut self, alloc: Global, event: &Event, now: u64) -> Result<Option<Told>, Halt<K>>
        requires { IsPlayable K.Keep self.old }
        ensures { IsOfEnds event.now
            → IfOk result (λ t. DoesIf K.Keep now (event_of event.now) self.old t self.new) }
    {
        match event {
            Event::Publisher { client } => self.make_publisher(alloc, client),
            Event::Receiver {
                client,
                window,
                aliases,
            } => self.make_receiver(alloc, client, *window, *aliases),
            Event::Connect {
                client,
                clean_start,
            } => self.connect(alloc, client.as_str(), *clean_start, now),
            Event::GiveUp { client } => Ok(self.give_up(alloc, client.as_str())),
            Event::Publish { client, draft } => self.publish(alloc, client.as_str(), draft),
            Event::Subscribe { client, wish } => self.subscribe(alloc, client.as_str(), wish),
            Event::ToBroker { client, old } => self.ask_packet(alloc, client.as_str(), *old, now),
            Event::ToEnd { client } => self.to_end(alloc, client.as_str()),
            Event::Break { client } => self.ask_break(alloc, client.as_str(), now),
            Event::Pump { client } => self.ask_pump(alloc, client.as_str(), now),
            Event::Tick => self.ask_tick(now),
            _ => Ok(None),
        }
    }
}
