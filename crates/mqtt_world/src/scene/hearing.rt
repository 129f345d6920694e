//! The broker is given what came on a line, and what it tells is told behind what was told before (MQTT 5.0, 2.1, 4.13).

ghost use Rattle.std.specs.Prelude.{◌≡◌, ◌≤◌, [], length, OnOk};
ghost use Rattle.mqtt_base.specs.declared.limits.TheConstants.{PACKET_LIMIT};
ghost use Rattle.mqtt_world_model.specs.model.World.{call_on, held_after};
ghost use Rattle.mqtt_world.specs.script_laws.Turns.{both_tell};
ghost use Rattle.mqtt_world.specs.scene.Hearing.{Hears};
ghost use Rattle.mqtt_world.specs.scene.Scenes.{IsPlayable};

use crate::scene::halt::Halt;
use crate::scene::scene::Scene;
use mqtt_keep::Keep;
use mqtt_world_ends::peers::Told;

/// What one tells, behind what was told before.
pub(crate) fn join<K: Keep>(told: &mut Told, more: Told) -> Result<(), Halt<K>>
    ensures { OnOk result (told.new ≡ both_tell told.old more) }
{
    let Told { mut reports, out } = more;
    match told.out.checked_add(out) {
        Some(sum) => {
            told.reports.append(&mut reports)?;
            told.out = sum;
            Ok(())
        }
        None => Err(Halt::by_memory()),
    }
}

impl<K: Keep> Scene<K> {
    /// The broker is given what came on a line, of which nothing is left: nothing, if nothing came, or no line is
    /// linked.
    pub fn hear(
        &mut self,
        line: Option<u64>,
        bytes: &[u8],
        now: u64,
        told: &mut Told,
    ) -> Result<(), Halt<K>>
        requires playable { IsPlayable K.Keep self.old }
        requires left { held_after bytes.now ≡ [] }
        requires within { length bytes.now ≤ PACKET_LIMIT }
        ensures { OnOk result (Hears K.Keep now (call_on line bytes.now) self.old told.old told.new self.new) }
    {
        if bytes.is_empty() {
            return Ok(());
        }
        match line {
            Some(line) => {
                let more = self.give(line, bytes, now)?;
                join(told, more)
            }
            None => Ok(()),
        }
    }
}
