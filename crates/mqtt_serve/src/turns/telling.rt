//! What the broker answers reaches the connections (MQTT 5.0, 4.2).
ghost use Rattle.std.specs.Prelude.{◌≡◌, [], true, false, nat_eq, IsTrue};
ghost use Rattle.std.specs.List.{list_any};
ghost use Rattle.mqtt_serve.specs.turns.Related.{Related};
ghost use Rattle.mqtt_serve.specs.turns.Wires.{Reaches, AreLost, bytes_to};

use crate::turns::connections::Connections;
use bytes::Bytes;
use mqtt_broker::Outcome;
use mqtt_link::Link;

/// Whether an answer has no output to a line, and didn't close it.
pub(crate) fn is_silent_for(number: u64, outputs: &[(u64, Bytes)], closed: &[u64]) -> bool
    ensures outputs { IsTrue result → bytes_to number outputs.now ≡ [] }
    ensures closed { IsTrue result → list_any (nat_eq number) closed.now ≡ false }
{
    for (line, _) in outputs {
        if *line == number {
            return false;
        }
    }
    !closed.contains(&number)
}

/// Each connection hears the outputs of an answer that are to its line, and is closed if that closed.
fn deliver_to_each<L: Link>(lines: &mut Connections<L>, outputs: &[(u64, Bytes)], closed: &[u64])
    ensures { Related (Reaches outputs.now closed.now) lines.old lines.new }
{
    for place in 0..lines.len() {
        if !lines.is_passed_at(place, outputs, closed) {
            lines.reach_at(place, outputs, closed);
        }
    }
}

/// Whether an answer has no outputs, and closed no line.
fn is_silent(outputs: &[(u64, Bytes)], closed: &[u64]) -> bool
    ensures { result ≡ true → (outputs.now ≡ []) × (closed.now ≡ []) }
{
    outputs.is_empty() && closed.is_empty()
}

/// The outputs of an answer wait on the connections that they name, and the connections that it closed are closed. An answer
/// without either, as most turns of sending give, costs nothing.
pub(crate) fn deliver<L: Link>(lines: &mut Connections<L>, out: &Outcome)
    ensures { Related (Reaches out.now.outputs.items out.now.closed.items) lines.old lines.new }
{
    if is_silent(&out.outputs, &out.closed) {
        return;
    }
    deliver_to_each(lines, &out.outputs, &out.closed);
}

/// The connection on a line is lost.
pub(crate) fn lose<L: Link>(lines: &mut Connections<L>, number: u64)
    ensures { AreLost number lines.old lines.new }
{
    for place in 0..lines.len() {
        lines.lose_at(place, number);
    }
}
