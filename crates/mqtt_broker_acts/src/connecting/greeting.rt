//! A session is connected on a line, with what the client says of it (MQTT 5.0, 3.1.2.10, 3.1.2.11).
ghost use Rattle.std.specs.Prelude.{◌≡◌, ◌∷◌, [], OnOk, IfErr};
ghost use Rattle.mqtt_rules.specs.step.State.{Line};
ghost use Rattle.mqtt_rules.specs.step.Deeds.{always};
ghost use Rattle.mqtt_rules.specs.step.Connect.{greet};
ghost use Rattle.mqtt_broker_step.specs.Stepping.{Did, IsLeft};

use mqtt_broker_looks::decided::{aliases_of, largest_of, window_of};
use mqtt_broker_step::{Step, StepFault};
use mqtt_packet::Connect;

/// A session is connected on a line, with the Keep Alive, the Receive Maximum and the Maximum Packet Size of
/// a CONNECT. As many topics as its Topic Alias Maximum says, ten at most, may be told there by aliases; none was
/// told yet (3.1.2.10, 3.1.2.11.3 to 3.1.2.11.5).
pub(crate) fn greet(
    step: &mut Step,
    line: u64,
    birth: u64,
    connect: &Connect,
) -> Result<(), StepFault>
    ensures ok { (l : Line) → l.number ≡ line
        → OnOk result (Did (always (greet l connect.now birth ∷ [])) step.old step.new) }
    ensures left { (l : Line) → l.number ≡ line → IfErr result (λ fault.
        IsLeft (always (greet l connect.now birth ∷ [])) fault step.old step.new) }
{
    let window = window_of(connect);
    let largest = largest_of(connect);
    let most = aliases_of(connect);
    step.greet(line, birth, connect.keep_alive, window, largest, most)
}
