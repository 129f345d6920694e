//! An end joins: it sends CONNECT on a new line (MQTT 5.0, 3.1, 4.2).
ghost use Rattle.std.specs.Prelude.{◌≡◌, IfOk, option_map};
ghost use Rattle.mqtt_world_model.specs.model.World.{connect_end, is_away};
ghost use Rattle.mqtt_world_ends.specs.peers.Lines.{link_of};
ghost use Rattle.mqtt_world.specs.scene.Events.{Does};
ghost use Rattle.mqtt_world.specs.scene.Scenes.{IsPlayable};

use crate::scene::halt::Halt;
use crate::scene::scene::Scene;
use mqtt_keep::Keep;
use mqtt_world_ends::peers::{Link, Told};
use std::alloc::Global;

/// Whether an end that has come so far with its line has none. Takes no memory.
fn is_away(link: Option<Link>) -> bool
    ensures { result ≡ is_away (option_map link_of link) }
{
    match link {
        Some(Link::Away) => true,
        Some(Link::Asked | Link::Live) | None => false,
    }
}

impl<K: Keep> Scene<K> {
    /// An end that has no line sends CONNECT on a new one (3.1). If as many lines stand as may, it stays without.
    pub(crate) fn connect(
        &mut self,
        alloc: Global,
        client: &str,
        clean: bool,
        now: u64,
    ) -> Result<Option<Told>, Halt<K>>
        requires { IsPlayable K.Keep self.old }
        ensures { IfOk result (λ t. Does K.Keep now (connect_end client.now clean) self.old t self.new) }
    {
        if !is_away(self.clients.link_of(client)) {
            return Ok(None);
        }
        if !self.engine.may_link() {
            return Ok(Some(Told::silent(alloc)));
        }
        let Some(line) = self.link(now) else {
            // (one may be linked)
            unreachable!()
        };
        self.clients.join(client, line, clean)?;
        Ok(Some(Told::silent(alloc)))
    }
}
