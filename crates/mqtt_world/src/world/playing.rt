//! An event of a script happens on the stage (MQTT 5.0, 4.1 to 4.4).

ghost use Rattle.std.specs.Prelude.{◌≡◌, Ok, IfOk};
ghost use Rattle.mqtt_world.specs.script_laws.Scripted.{asking_of, event_of};
ghost use Rattle.mqtt_world.specs.scene.Playing.{IsOfEnds};
ghost use Rattle.mqtt_world.specs.scene.Stopping.{stop_at};
ghost use Rattle.mqtt_world.specs.world.Stages.{IsStanding, Plays};
ghost use Rattle.mqtt_world.specs.world.Worlds.{Performs, PlaysIf};

use crate::scene::Halt;
use crate::world::stage::Stage;
use mqtt_keep::Keep;
use mqtt_script::{Asking, Event};
use mqtt_world_ends::peers::Told;

impl<K: Keep> Stage<K> {
    /// The stage, with what was told on it.
    fn with_told(
        self,
        told: Result<Option<Told>, Halt<K>>,
    ) -> Result<(Stage<K>, Option<Told>), Halt<K>>
        ensures { IfOk result (λ x. (x.0 ≡ self) × (told ≡ Ok x.1)) }
    {
        match told {
            Ok(told) => Ok((self, told)),
            Err(fault) => {
                drop(self);
                Err(fault)
            }
        }
    }

    /// An event in which ends and the broker alone take part, and the broker stays open.
    fn play(&mut self, event: &Event) -> Result<Option<Told>, Halt<K>>
        requires { IsStanding K.Keep self.old }
        ensures { IsOfEnds event.now
            → IfOk result (λ t. PlaysIf K.Keep (event_of event.now) self.old t self.new) }
    {
        self.scene.play(self.alloc, event, self.now)
    }

    /// The broker stops before the commit of the first step that is asked for, or after it, and is opened again.
    fn stop(self, asking: &Asking, after: bool) -> Result<(Stage<K>, Option<Told>), Halt<K>>
        requires { IsStanding K.Keep self }
        ensures { IfOk result (λ x. Plays K.Keep (stop_at after (asking_of asking.now)) self x.1 x.0) }
    {
        match asking {
            Asking::Stranger { name, bytes } => self.stop_visit(name, bytes.as_slice(), after),
            _ => self.stop_plain(asking, after),
        }
    }

    /// An event of a script happens, or can't.
    pub(crate) fn happen(mut self, event: &Event) -> Result<(Stage<K>, Option<Told>), Halt<K>>
        requires { IsStanding K.Keep self }
        ensures { IfOk result (λ x. Performs K.Keep event.now self x.1 x.0) }
    {
        match event {
            Event::Restart => self.restart(),
            Event::StopBefore(asking) => self.stop(asking, false),
            Event::StopAfter(asking) => self.stop(asking, true),
            Event::Clock { wait } => {
                let told = self.clock(*wait);
                Ok((self, Some(told)))
            }
            Event::Stranger { name, bytes } => {
                let told = self.visit(name, bytes.as_slice());
                self.with_told(told)
            }
            Event::Drain { client } => {
                let told = self.drain_told(client.as_str());
                self.with_told(told)
            }
            _ => {
                let told = self.play(event);
                self.with_told(told)
            }
        }
    }
}
