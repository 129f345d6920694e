//! A receiver of a world that stands is drained (MQTT 5.0, 4.3, 4.4, 4.6).

ghost use Rattle.std.specs.Prelude.{IfOk};
ghost use Rattle.mqtt_world.specs.world.Stages.{IsStanding, PlaysDrain, TellsDrain};

use crate::scene::Halt;
use crate::world::stage::Stage;
use mqtt_keep::Keep;
use mqtt_world_ends::peers::Told;

impl<K: Keep> Stage<K> {
    /// A receiver whose line stands is drained: what is told, and how many rounds it takes.
    pub(crate) fn drain(&mut self, client: &str) -> Result<Option<(Told, u32)>, Halt<K>>
        requires { IsStanding K.Keep self.old }
        ensures { IfOk result (λ x. PlaysDrain K.Keep client.now self.old x self.new) }
    {
        self.scene.drain(self.alloc, client, self.now)
    }

    /// A receiver whose line stands is drained, and this is told.
    pub(crate) fn drain_told(&mut self, client: &str) -> Result<Option<Told>, Halt<K>>
        requires { IsStanding K.Keep self.old }
        ensures { IfOk result (λ t. TellsDrain K.Keep client.now self.old t self.new) }
    {
        match self.drain(client)? {
            Some((told, _)) => Ok(Some(told)),
            None => Ok(None),
        }
    }
}
