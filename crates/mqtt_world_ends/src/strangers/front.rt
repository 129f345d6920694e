//! What bytes begin with: a packet, a fault, or nothing whole (MQTT 5.0, 2.1.4, 4.13).

ghost use Rattle.std.specs.Prelude.{◌≡◌, ◌<◌, ◌↔◌, [], is_err, length, IfOk, IsTrue, None, OnOk, Ok, option_to_list, true};
ghost use Rattle.mqtt_base.specs.declared.limits.TheConstants.{PACKET_LIMIT};
ghost use Rattle.mqtt_packet.specs.stream.Front.{first_of};
ghost use Rattle.mqtt_world_model.specs.model.World.{World, names_end};
ghost use Rattle.mqtt_world_ends.specs.strangers.Fronts.{Decides, IsFront, NamesFirst, is_end_among};

use mqtt_base::Text;
use mqtt_packet::{Framer, Packet};
use std::alloc::{AllocError, Global};

/// So many bytes are fed at first, and from then on as many as are held.
const FIRST_FEED: usize = 64;

/// What bytes begin with.
#[derive(Clone, Copy, Debug)]
pub(crate) enum Front {
    /// Nothing whole.
    Partial,
    /// A packet of so many bytes.
    Whole(usize),
    /// A fault, which so many bytes decide.
    Faulty(usize),
}

/// Whether nothing whole is held. Takes no memory.
fn is_waiting(framer: &Framer) -> bool
    ensures waits { IsTrue result ↔ first_of framer.now.held ≡ Ok None }
    ensures room { result ≡ true → length framer.now.held < PACKET_LIMIT }
{
    match framer.look_sized() {
        Ok(None) => true,
        Ok(Some(_)) | Err(_) => false,
    }
}

/// Whether a fault stands. Takes no memory.
fn is_faulty(framer: &Framer) -> bool
    ensures { result ≡ is_err (first_of framer.now.held) }
{
    match framer.look_sized() {
        Ok(_) => false,
        Err(_) => true,
    }
}

/// Feeds one that holds nothing with the first of these bytes, so many that they decide what all begin with.
#[tactic(auto, using(crate::proofs::strangers_lemmas::Fronts::fed_first, crate::proofs::strangers_lemmas::Fronts::all_decide, crate::proofs::strangers_lemmas::Fronts::some_decide))]
fn fill(framer: &mut Framer, bytes: &[u8]) -> Result<(), AllocError>
    requires { framer.old.held ≡ [] }
    ensures { OnOk result (Decides framer.new.held bytes.now) }
{
    while framer.held() < bytes.len() && is_waiting(framer) {
        let rest = &bytes[framer.held()..];
        let len = rest.len().min(FIRST_FEED.max(framer.held()));
        if framer.feed(&rest[..len]).is_err() {
            return Err(AllocError);
        }
    }
    Ok(())
}

/// What the bytes begin with, by a framer that holds nothing.
#[tactic(auto, using(crate::proofs::strangers_lemmas::Fronts::whole_front, crate::proofs::strangers_lemmas::Fronts::faulty_front))]
fn find_front(framer: &mut Framer, bytes: &[u8]) -> Result<Front, AllocError>
    requires { framer.old.held ≡ [] }
    ensures { IfOk result (IsFront bytes.now) }
{
    fill(framer, bytes)?;
    match framer.look_sized() {
        Ok(None) => Ok(Front::Partial),
        Ok(Some((_, _, size))) => Ok(Front::Whole(size)),
        Err(_) => Ok(Front::Faulty(framer.held())),
    }
}

/// What the bytes begin with.
pub(crate) fn front_of(alloc: Global, bytes: &[u8]) -> Result<Front, AllocError>
    ensures { IfOk result (IsFront bytes.now) }
{
    let mut framer = Framer::new(alloc);
    let front = find_front(&mut framer, bytes);
    drop(framer);
    front
}

/// The client that a CONNECT names (3.1.3.1).
#[tactic(auto, using(crate::proofs::strangers_lemmas::Names::one_name))]
fn name_in(packet: Packet) -> Option<Text>
    ensures { (w : World) → names_end packet w ≡ is_end_among (option_to_list result) w }
{
    match packet {
        Packet::Connect(connect) => Some(connect.client_identifier),
        other => {
            drop(other);
            None
        }
    }
}

/// The size of the packet at the front, if one is whole, and the client that it names, by a framer that holds nothing.
fn find_name(framer: &mut Framer, bytes: &[u8]) -> Result<Option<(usize, Option<Text>)>, AllocError>
    requires { framer.old.held ≡ [] }
    ensures { IfOk result (NamesFirst bytes.now) }
{
    fill(framer, bytes)?;
    if is_faulty(framer) {
        return Ok(None);
    }
    match framer.first() {
        Ok(None) => Ok(None),
        Ok(Some((packet, _, size))) => Ok(Some((size, name_in(packet)))),
        Err(_) => Err(AllocError),
    }
}

/// The size of the packet at the front, if one is whole, and the client that it names.
pub(crate) fn name_at(
    alloc: Global,
    bytes: &[u8],
) -> Result<Option<(usize, Option<Text>)>, AllocError>
    ensures { IfOk result (NamesFirst bytes.now) }
{
    let mut framer = Framer::new(alloc);
    let found = find_name(&mut framer, bytes);
    drop(framer);
    found
}
