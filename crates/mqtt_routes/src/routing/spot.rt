//! Where a subscription stands.
ghost use Rattle.std.specs.Prelude.{◌≡◌, map};
ghost use Rattle.mqtt_routes.specs.routing.Spots.{moved_down};

/// The birth of a subscription's session, and its number there, from 0 in the order subscribed. Spots
/// are compared by births, and those of a session by numbers.
#[derive(Clone, Copy, PartialEq, Eq, PartialOrd, Ord, Drop)]
pub(crate) struct Spot {
    pub(crate) birth: u64,
    pub(crate) at: usize,
}

/// Where a subscription stands once that of a session and a number is gone. Takes no memory.
fn moved_down(spot: Spot, birth: u64, at: usize) -> Spot
    ensures { result ≡ moved_down birth at spot }
{
    if birth == spot.birth && at < spot.at {
        Spot {
            at: spot.at - 1,
            ..spot
        }
    } else {
        spot
    }
}

/// Moves the subscriptions of a session behind a number down by one. Takes no memory.
pub(crate) fn move_down(spots: &mut Vec<Spot>, birth: u64, at: usize)
    ensures items { spots.new.items ≡ map (moved_down birth at) spots.old.items }
{
    for i in 0..spots.len() {
        spots[i] = moved_down(spots[i], birth, at);
    }
}
