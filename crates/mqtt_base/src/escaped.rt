//! A text in one word (ours).

ghost use Rattle.std.specs.Prelude.{◌≡◌, Some};
ghost use Rattle.mqtt_base.specs.Escaped.{escaped, escaped_byte, hex_byte, is_plain};

use std::fmt;

/// Whether a byte of a text stands for itself: it is printable ASCII, and neither a space nor `%`.
fn is_plain(byte: u8) -> bool
    ensures { result ≡ is_plain byte }
{
    b'!' <= byte && byte <= b'~' && byte != b'%'
}

/// A byte in two hexadecimal digits.
#[derive(Clone, Copy)]
struct HexByte(u8);

impl fmt::Display for HexByte {
    ghost output = { λ t. Some (hex_byte t.0) };

    fn fmt<W: fmt::Write>(&self, f: &mut fmt::Formatter<W>) -> fmt::Result {
        let byte = self.0;
        write!(f, "{byte:02x}")
    }
}

/// A byte of a text: itself, or `%` and two hexadecimal digits.
#[derive(Clone, Copy)]
struct EscapedByte(u8);

impl fmt::Display for EscapedByte {
    ghost output = { λ t. Some (escaped_byte t.0) };

    fn fmt<W: fmt::Write>(&self, f: &mut fmt::Formatter<W>) -> fmt::Result {
        let byte = self.0;
        if is_plain(byte) {
            write!(f, "{}", char::from(byte))
        } else {
            write!(f, "%{}", HexByte(byte))
        }
    }
}

/// A text in one word, whatever its bytes: printable ASCII stands for itself, but for the space and
/// `%`; each other byte is `%` and two lower-case hexadecimal digits.
#[derive(Clone, Copy)]
pub struct Escaped<'a>(pub &'a str);

impl fmt::Display for Escaped<'_> {
    ghost output = { λ t. Some (escaped t.0.now) };

    fn fmt<W: fmt::Write>(&self, f: &mut fmt::Formatter<W>) -> fmt::Result {
        for byte in self.0.as_bytes() {
            write!(f, "{}", EscapedByte(*byte))?;
        }
        Ok(())
    }
}
