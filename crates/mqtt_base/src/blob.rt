//! Binary data (1.5.6).

ghost use Rattle.std.specs.Prelude.{◌≡◌, ◌<◌, ◌^◌, ◌++◌, ◌↔◌, List, ℕ, Ok, length, take};
ghost use Rattle.std.specs.Prelude.{IfOk, OnOk, OnErr, IsErrOf};
ghost use Rattle.mqtt_base.specs.declared.fault.ReadFault.{ReadFault};
ghost use Rattle.mqtt_base.specs.Values.{IsBinary, blob};
ghost use Rattle.mqtt_base.specs.Reading.{Reads, blob_at};
ghost use Rattle.mqtt_base.specs.Refusals.{BinaryRefused};

use crate::fault::ReadFault;
use crate::number::u16_read;
use bytes::Bytes;
use std::alloc::{AllocError, Global};
use std::marker::Model;

/// Reads the binary data at the front, without the two bytes of its length, and how many bytes it
/// takes with them (1.5.6). `Short` (1) is its only refusal. Takes no memory.
#[inline(always)]
pub fn blob_read(bytes: &[u8]) -> Result<(&[u8], usize), ReadFault>
    ensures exact { Reads (λ b. b.now) result bytes.now (blob_at bytes.now) }

    // What is read is spelled so.
    ensures found { IfOk result (λ x. IsBinary x.0.now (take x.1 bytes.now)) }

    // What is spelled so is read, whatever follows it.
    ensures only { (d v rest : List ℕ) → IsBinary d v → bytes.now ≡ v ++ rest
        → Reads (λ b. b.now) result bytes.now (Ok (d, rest)) }

    // Each refusal comes where it is due, and only there.
    ensures refused { (fault : ReadFault) → IsErrOf result fault ↔ BinaryRefused fault bytes.now }
{
    blob_by_length(bytes)
}

#[inline(always)]
#[tactic(auto, unfolding(crate::specs::Reading::blob_at))]
fn blob_by_length(bytes: &[u8]) -> Result<(&[u8], usize), ReadFault>
    ensures { Reads (λ b. b.now) result bytes.now (blob_at bytes.now) }
{
    let (len, taken) = u16_read(bytes)?;
    let len = usize::from(len);
    let rest = &bytes[taken..];
    if rest.len() < len {
        return Err(ReadFault::Short);
    }
    Ok((&rest[..len], taken + len))
}

/// Writes two bytes of length and the bytes at the end.
pub fn blob_push(out: &mut Vec<u8>, bytes: &[u8]) -> Result<(), AllocError>
    requires { length bytes.now < 2 ^ 16 }
    ensures ok { OnOk result (out.new.items ≡ out.old.items ++ blob bytes.now) }
    ensures err { OnErr result (out.new.items ≡ out.old.items) }
{
    out.reserve(2 + bytes.len())?;
    out.extend_from_slice(&(bytes.len() as u16).to_be_bytes())?;
    out.extend_from_slice(bytes)
}

/// Owned binary data that has a spelling (1.5.6): at most 65,535 bytes. Clones share the bytes.
#[derive(Debug, PartialEq, Eq, Hash, Drop)]
pub struct Blob {
    bytes: Bytes,
}

impl Model for Blob {
    ghost use Rattle.std.specs.Prelude.{◌<◌, ◌^◌, List, ℕ, length};

    ghost Value = { List ℕ };

    ghost view = { λ a. a.bytes };

    ghost invariant = { λ a. length a.bytes < 2 ^ 16 };

    ghost inverse = { λ b. record { bytes = b } };
}

impl Blob {
    /// Copies the bytes.
    pub fn new(alloc: Global, bytes: &[u8]) -> Result<Blob, AllocError>
        requires { length bytes.now < 2 ^ 16 }
        ensures { IfOk result (λ b. b ≡ bytes.now) }
    {
        Ok(Blob {
            bytes: Bytes::copy_from_slice(alloc, bytes)?,
        })
    }

    /// Lends the bytes.
    pub fn as_slice(&self) -> &[u8]
        ensures value { result.now ≡ self.now }
        ensures good { length self.now < 2 ^ 16 }
    {
        self.bytes.as_slice()
    }

    /// Another owner of the same bytes.
    pub fn share(&self) -> Result<Bytes, AllocError>
        ensures { IfOk result (λ b. b ≡ self.now) }
    {
        self.bytes.clone()
    }
}

impl Clone for Blob {
    ghost is_clone = { λ blob copy. copy ≡ blob };

    /// Another owner of the same bytes.
    fn clone(&self) -> Result<Blob, AllocError> {
        Ok(Blob {
            bytes: self.bytes.clone()?,
        })
    }
}
