//! The broker stops before or after the commit of what ends ask of it, nothing goes out, and it is opened again (MQTT 5.0,
//! 4.1).

ghost use Rattle.std.specs.Prelude.{◌≡◌, IfOk};
ghost use Rattle.mqtt_world_model.specs.model.World.{ask, stop_after, stop_before};
ghost use Rattle.mqtt_world.specs.script_laws.Scripted.{asking_of};
ghost use Rattle.mqtt_world.specs.script_laws.Turns.{IsPlain};
ghost use Rattle.mqtt_world.specs.scene.Stopping.{TakesOff, stop_at};
ghost use Rattle.mqtt_world.specs.world.Stages.{IsStanding, Plays};

use crate::scene::Halt;
use crate::world::stage::Stage;
use mqtt_keep::Keep;
use mqtt_script::Asking;
use mqtt_world_ends::peers::Told;

impl<K: Keep> Stage<K> {
    /// What is asked of the broker, by no stranger, happens.
    fn ask(&mut self, asking: &Asking) -> Result<Option<Told>, Halt<K>>
        requires standing { IsStanding K.Keep self.old }
        requires plain { IsPlain (asking_of asking.now) }
        ensures { IfOk result (λ t. Plays K.Keep (ask (asking_of asking.now)) self.old t self.new) }
    {
        self.scene.ask(self.alloc, asking, self.now)
    }

    /// What is asked of the broker, by no stranger, is lost before its commit. False if it can't be asked.
    fn take_off(&mut self, asking: &Asking) -> Result<bool, Halt<K>>
        requires { IsPlain (asking_of asking.now) }
        ensures same { self.new ≡ record self.old { played = self.new.played } }
        ensures taken { IfOk result (λ is. TakesOff (asking_of asking.now) is self.old.played self.new.played) }
    {
        self.scene.take_off(asking)
    }

    /// The broker stops before the commit of what is asked.
    fn stop_before(mut self, asking: &Asking) -> Result<(Stage<K>, Option<Told>), Halt<K>>
        requires standing { IsStanding K.Keep self }
        requires plain { IsPlain (asking_of asking.now) }
        ensures { IfOk result (λ x. Plays K.Keep (stop_before (asking_of asking.now)) self x.1 x.0) }
    {
        match self.take_off(asking) {
            Ok(true) => self.restart(),
            Ok(false) => Ok((self, None)),
            Err(fault) => {
                drop(self);
                Err(fault)
            }
        }
    }

    /// The broker stops after the commit of what is asked.
    fn stop_after(mut self, asking: &Asking) -> Result<(Stage<K>, Option<Told>), Halt<K>>
        requires standing { IsStanding K.Keep self }
        requires plain { IsPlain (asking_of asking.now) }
        ensures { IfOk result (λ x. Plays K.Keep (stop_after (asking_of asking.now)) self x.1 x.0) }
    {
        match self.ask(asking) {
            Ok(Some(told)) => {
                drop(told);
                self.restart()
            }
            Ok(None) => Ok((self, None)),
            Err(fault) => {
                drop(self);
                Err(fault)
            }
        }
    }

    /// The broker stops before or after the commit of what is asked by no stranger, nothing goes out, and it is opened
    /// again.
    pub(crate) fn stop_plain(
        self,
        asking: &Asking,
        after: bool,
    ) -> Result<(Stage<K>, Option<Told>), Halt<K>>
        requires standing { IsStanding K.Keep self }
        requires plain { IsPlain (asking_of asking.now) }
        ensures { IfOk result (λ x. Plays K.Keep (stop_at after (asking_of asking.now)) self x.1 x.0) }
    {
        if after {
            self.stop_after(asking)
        } else {
            self.stop_before(asking)
        }
    }
}
