//! Frames, written from the first byte on (2.1).
ghost use Rattle.std.specs.Prelude.{◌≡◌, ◌∷◌, ◌++◌, ◌<◌, ◌^◌, IfOk, IsOk, OnOk};
ghost use Rattle.mqtt_base.specs.Values.{varint};

use bytes::Bytes;
use mqtt_base::varint_push;
use std::alloc::{AllocError, Global};

/// Writes the first byte and the Remaining Length at the end.
fn front_push(out: &mut Vec<u8>, first: u8, remaining: u32) -> Result<(), AllocError>
    requires { remaining < 2 ^ 28 }
    ensures { OnOk result (out.new.items ≡ out.old.items ++ first ∷ varint remaining) }
{
    out.push(first)?;
    varint_push(out, remaining)
}

/// The first byte and the Remaining Length of a frame, with room for as many bytes behind them.
pub(crate) fn frame_begin(alloc: Global, first: u8, remaining: usize) -> Result<Vec<u8>, AllocError>
    requires { remaining < 2 ^ 28 }
    ensures { IfOk result (λ out. out.items ≡ first ∷ varint remaining) }
{
    let mut out = Vec::with_capacity(alloc, 5 + remaining)?;
    match front_push(&mut out, first, remaining as u32) {
        Ok(()) => Ok(out),
        Err(fault) => {
            drop(out);
            Err(fault)
        }
    }
}

/// The bytes of a frame, if all of them were written. None is copied.
pub(crate) fn frame_end(out: Vec<u8>, written: Result<(), AllocError>) -> Result<Bytes, AllocError>
    ensures bytes { IfOk result (λ bytes. bytes ≡ out.items) }
    ensures whole { OnOk result (IsOk written) }
{
    match written {
        Ok(()) => Ok(Bytes::from_vec(out)?),
        Err(fault) => {
            drop(out);
            Err(fault)
        }
    }
}
