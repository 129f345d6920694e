//! A reason code and properties at the end of a packet, of which the last parts may be left out
//! (3.4.2, 3.14.2, 3.15.2).

ghost use Rattle.std.specs.Prelude.{◌≡◌, ◌∷◌, ◌<◌, ◌^◌, ◌++◌, OnOk, OnErr, length};
ghost use Rattle.mqtt_packet.specs.parts.Reading.{Gives};
ghost use Rattle.mqtt_packet.specs.parts.Writing.{KeepsFront};
ghost use Rattle.mqtt_packet.specs.codec.Tails.{tail_at, tail};

use crate::parts::Fault;
use mqtt_props::{Place, PropsRef, layout_read};
use std::alloc::AllocError;

#[inline(always)]
#[tactic(auto, unfolding(crate::specs::codec::Tails::tail_at))]
pub(crate) fn tail_read(place: Place, bytes: &[u8]) -> Result<(u8, PropsRef<'_>), Fault>
    ensures { Gives (λ x. x) result (tail_at place bytes.now) }
{
    match bytes {
        [] => Ok((0, PropsRef::empty())),
        [code] => Ok((*code, PropsRef::empty())),
        [code, rest @ ..] => {
            let Ok((properties, taken)) = layout_read(rest, place) else {
                return Err(Fault::Malformed);
            };
            if taken != rest.len() {
                return Err(Fault::Malformed);
            }
            Ok((*code, properties))
        }
    }
}

/// Writes the shortest tail at the end.
#[inline(always)]
#[tactic(auto, using(std::proofs::lemmas::List::append_assoc, crate::proofs::parts_lemmas::Fronts::begins_same, crate::proofs::parts_lemmas::Fronts::begins_less))]
pub(crate) fn tail_push(
    out: &mut Vec<u8>,
    code: u8,
    properties: &PropsRef<'_>,
) -> Result<(), AllocError>
    ensures ok { OnOk result (out.new.items ≡ out.old.items ++ tail code properties.now) }
    ensures front { OnErr result (KeepsFront out.old.items out.new.items) }
{
    if !properties.is_empty() {
        out.push(code)?;
        properties.push_block(out)
    } else if code != 0 {
        out.push(code)?;
        Ok(())
    } else {
        Ok(())
    }
}

/// How many bytes the shortest tail takes.
#[inline(always)]
pub(crate) fn tail_len(code: u8, properties: &PropsRef<'_>) -> usize
    ensures value { result ≡ length (tail code properties.now) }
    ensures bound { result < 2 ^ 30 }
{
    if !properties.is_empty() {
        1 + properties.block_len()
    } else if code != 0 {
        1
    } else {
        0
    }
}
