//! Text: UTF-8 encoded strings (1.5.4).

ghost use Rattle.std.specs.Prelude.{◌≡◌, ◌++◌, ◌↔◌, List, ℕ, Ok, take, IfOk, IsErrOf, IsTrue};
ghost use Rattle.mqtt_base.specs.declared.fault.ReadFault.{ReadFault};
ghost use Rattle.mqtt_base.specs.Values.{FitsText, IsText};
ghost use Rattle.mqtt_base.specs.Reading.{Reads, text_at};
ghost use Rattle.mqtt_base.specs.Refusals.{TextRefused};

use crate::blob::blob_read;
use crate::fault::ReadFault;
use bytes::ByteStr;
use std::alloc::{AllocError, Global};
use std::marker::Model;

/// Reads the text at the front, without the two bytes of its length, and how many bytes it takes
/// with them (1.5.4). Control characters and noncharacters are accepted (ours), and U+FEFF is kept.
/// Takes no memory.
///
/// It answers `Short` (1) if the input ends inside the text and `BadText` (3) if all bytes
/// are there and are no well-formed UTF-8 or hold U+0000; never `Overlong`.
#[inline(always)]
pub fn text_read(bytes: &[u8]) -> Result<(&str, usize), ReadFault>
    ensures exact { Reads (λ t. t.now) result bytes.now (text_at bytes.now) }

    // What is read is spelled so.
    ensures found { IfOk result (λ x. IsText x.0.now (take x.1 bytes.now)) }

    // What is spelled so is read, whatever follows it.
    ensures only { (t v rest : List ℕ) → IsText t v → bytes.now ≡ v ++ rest
        → Reads (λ t. t.now) result bytes.now (Ok (t, rest)) }

    // Each refusal comes where it is due, and only there.
    ensures refused { (fault : ReadFault) → IsErrOf result fault ↔ TextRefused fault bytes.now }
{
    text_by_blob(bytes)
}

#[inline(always)]
#[tactic(auto, unfolding(crate::specs::Reading::text_at))]
fn text_by_blob(bytes: &[u8]) -> Result<(&str, usize), ReadFault>
    ensures { Reads (λ t. t.now) result bytes.now (text_at bytes.now) }
{
    let (body, taken) = blob_read(bytes)?;
    if body.contains(&0) {
        return Err(ReadFault::BadText);
    }
    match simdutf8::basic::from_utf8(body) {
        Ok(text) => Ok((text, taken)),
        Err(_) => Err(ReadFault::BadText),
    }
}

/// An owned text that has a spelling (1.5.4): at most 65,535 bytes of UTF-8 without U+0000. Clones
/// share the bytes.
#[derive(Debug, PartialEq, Eq, Hash, Drop)]
pub struct Text {
    text: ByteStr,
}

impl Model for Text {
    ghost use Rattle.std.specs.Prelude.{List, ℕ};
    ghost use Rattle.mqtt_base.specs.Values.{FitsText};

    ghost Value = { List ℕ };

    ghost view = { λ a. a.text };

    ghost invariant = { λ a. FitsText a.text };

    ghost inverse = { λ t. record { text = t } };
}

impl Text {
    /// Whether `new` takes the text: at most 65,535 bytes and no U+0000. Takes no memory.
    pub fn may_hold(text: &str) -> bool
        ensures { IsTrue result ↔ FitsText text.now }
    {
        text.len() <= 65_535 && !text.as_bytes().contains(&0)
    }

    /// Copies the text.
    pub fn new(alloc: Global, text: &str) -> Result<Text, AllocError>
        requires { FitsText text.now }
        ensures { IfOk result (λ t. t ≡ text.now) }
    {
        Ok(Text {
            text: ByteStr::copy_from_str(alloc, text)?,
        })
    }

    /// Lends the text.
    pub fn as_str(&self) -> &str
        ensures value { result.now ≡ self.now }
        ensures good { FitsText self.now }
    {
        self.text.as_str()
    }
}

impl Clone for Text {
    ghost is_clone = { λ text copy. copy ≡ text };

    /// Another owner of the same bytes.
    fn clone(&self) -> Result<Text, AllocError> {
        Ok(Text {
            text: self.text.clone()?,
        })
    }
}
