//! What the bytes that have come begin with (2.1.4).

ghost use Rattle.std.specs.Prelude.{◌≡◌, ◌<◌, ◌≤◌, IfOk, IfSome, IfNone, Ok, None, false, length};
ghost use Rattle.mqtt_packet.specs.stream.Front.{size_at, first_of, GivesFirst, EndsWithPayload};
ghost use Rattle.mqtt_packet.specs.codec.Packets.{Fits};
ghost use Rattle.mqtt_packet.specs.codec.Frames.{packet_of};

use crate::codec::{PacketRef, head_read, look_at};
use crate::parts::Fault;
use mqtt_base::{PACKET_LIMIT, ReadFault, varint_read};

/// The size of the whole packet at the front, if it has come.
#[inline(always)]
#[tactic(auto, using(crate::proofs::stream_lemmas::Fronts::varint_wants), unfolding(crate::specs::stream::Front::size_at))]
fn size_read(bytes: &[u8]) -> Result<Option<usize>, Fault>
    ensures exact { result ≡ size_at bytes.now }
    ensures within { IfOk result (λ found. IfSome found (λ size. (0 < size) × (size ≤ length bytes.now))) }
    ensures partial { IfOk result (λ found. IfNone found (length bytes.now < PACKET_LIMIT)) }
{
    let Some((first, rest)) = bytes.split_first() else {
        return Ok(None);
    };
    let Some(_) = head_read(*first) else {
        return Err(Fault::Malformed);
    };
    match varint_read(rest) {
        Err(ReadFault::Short) => Ok(None),
        Err(ReadFault::Overlong | ReadFault::BadText) => Err(Fault::Malformed),
        Ok((len, taken)) => {
            let size = 1 + taken + len as usize;
            if size > PACKET_LIMIT {
                Err(Fault::TooLarge)
            } else if bytes.len() < size {
                Ok(None)
            } else {
                Ok(Some(size))
            }
        }
    }
}

/// Whether a packet, or a fault, stands at the front. The fixed header alone is looked at: if a
/// packet has come whole, it or a fault stands there.
#[tactic(auto, using(crate::proofs::stream_lemmas::Waits::waits_sized, crate::proofs::stream_lemmas::Waits::sized_waits))]
pub(crate) fn is_whole(bytes: &[u8]) -> bool
    ensures waits { result ≡ false → first_of bytes.now ≡ Ok None }
    ensures whole { first_of bytes.now ≡ Ok None → result ≡ false }
{
    match size_read(bytes) {
        Ok(None) => false,
        Ok(Some(_)) | Err(_) => true,
    }
}

#[inline(always)]
#[tactic(auto, unfolding(crate::specs::stream::Front::first_of))]
fn front_read(bytes: &[u8]) -> Result<Option<(PacketRef<'_>, usize)>, Fault>
    ensures exact { GivesFirst packet_of result (first_of bytes.now) }
    ensures fits { IfOk result (λ found. IfSome found (λ x. Fits (packet_of x.0))) }
    ensures within { IfOk result (λ found. IfSome found (λ x. (0 < x.1) × (x.1 ≤ length bytes.now))) }
    ensures partial { IfOk result (λ found. IfNone found (length bytes.now < PACKET_LIMIT)) }
{
    let Some(size) = size_read(bytes)? else {
        return Ok(None);
    };
    let packet = look_at(&bytes[..size])?;
    Ok(Some((packet, size)))
}

/// The first whole packet and its size, if it has come, or the fault that the bytes decide.
#[inline(always)]
pub(crate) fn first_read(bytes: &[u8]) -> Result<Option<(PacketRef<'_>, usize)>, Fault>
    ensures exact { GivesFirst packet_of result (first_of bytes.now) }
    ensures fits { IfOk result (λ found. IfSome found (λ x. Fits (packet_of x.0))) }
    ensures within { IfOk result (λ found. IfSome found (λ x. (0 < x.1) × (x.1 ≤ length bytes.now))) }
    ensures partial { IfOk result (λ found. IfNone found (length bytes.now < PACKET_LIMIT)) }
    ensures payload { IfOk result (λ found. IfSome found (λ x. EndsWithPayload (packet_of x.0) x.1 bytes.now)) }
{
    front_read(bytes)
}
