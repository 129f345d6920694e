//! What becomes of a line as its end sees it (MQTT 5.0, 4.2).

ghost use Rattle.std.specs.Prelude.{◌≡◌, if◌then◌else◌, option_map};
ghost use Rattle.mqtt_world.specs.clients.Ends.{input_of, paired};
ghost use Rattle.mqtt_world.specs.clients.Lines.{changed};

use mqtt_packet::Packet;
use mqtt_world_ends::peers::Line;

/// What becomes of a line and takes no memory.
#[derive(Clone, Copy, Debug)]
pub(crate) enum Change {
    /// Its end gives it up.
    GiveUp,
    /// Its end leaves it.
    Leave,
    /// The first packet under way to the broker is read.
    TakeUp,
    /// And on the line that was given up last.
    TakeOld,
}

/// Makes the change. Takes no memory.
pub(crate) fn change_line<U: Drop>(line: &mut Line<U>, change: Change)
    ensures { line.exit.now ≡ changed change line.entry.now }
{
    match change {
        Change::GiveUp => line.give_up(),
        Change::Leave => line.leave(),
        Change::TakeUp => drop(line.take_up()),
        Change::TakeOld => drop(line.take_old()),
    }
}

/// The broker's number of it, or of the line that was given up last. Takes no memory.
pub(crate) fn number_on<U: Drop>(line: &Line<U>, old: bool) -> Option<u64>
    ensures { result ≡ if old then line.now.old_number else line.now.number }
{
    if old {
        line.old_number()
    } else {
        line.number()
    }
}

/// A packet on its line, if there are both. Takes no memory.
pub(crate) fn paired(number: Option<u64>, packet: Option<Packet>) -> Option<(u64, Packet)>
    ensures { option_map input_of result ≡ paired number packet }
{
    match number {
        None => {
            drop(packet);
            None
        }
        Some(number) => match packet {
            None => None,
            Some(packet) => Some((number, packet)),
        },
    }
}
