//! How many copies may wait for a connected client before publishers are held (ours).
ghost use Rattle.std.specs.Prelude.{◌≡◌, ◌≤◌};
ghost use Rattle.mqtt_holding.specs.Holding.{mark_of};

/// The most copies that wait in the queue of a connected session while nobody is held (ours).
pub const MARK: usize = 64;

/// The mark of queues that have room for so many copies: `MARK`, or a quarter of the room if that is less, and at least 1. Takes no
/// memory.
pub fn mark_of(queue: u32) -> usize
    ensures answer { result ≡ mark_of queue }
    ensures some { 1 ≤ result }
    ensures few { result ≤ MARK }
{
    MARK.min(queue as usize / 4).max(1)
}
