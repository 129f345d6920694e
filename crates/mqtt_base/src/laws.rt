//! Laws of the spellings (1.5.4, 1.5.5).

ghost use Rattle.std.specs.Prelude.{◌≡◌, ◌≤◌, ◌<◌, ◌^◌, ◌↔◌, List, ℕ, length, true};
ghost use Rattle.mqtt_base.specs.Values.{IsVarInt, Encodes, Fewest, varint, IsUtf8WithoutNull, is_text};

/// The numbers below 2^28 have a variable byte integer and no other number has; none has two, and no
/// bytes are that of two numbers (1.5.5).
pub fn one_spelling()
    ensures some { (n : ℕ) → n < 2 ^ 28 → IsVarInt n (varint n) }
    ensures below { (n : ℕ) (v : List ℕ) → IsVarInt n v → n < 2 ^ 28 }
    ensures bytes { (n : ℕ) (v w : List ℕ) → IsVarInt n v → IsVarInt n w → v ≡ w }
    ensures number { (m n : ℕ) (v : List ℕ) → IsVarInt m v → IsVarInt n v → m ≡ n }
{}

/// The variable byte integer of a number is its encoding with the fewest bytes (1.5.5).
pub fn fewest_bytes()
    ensures { (n : ℕ) (v : List ℕ) → IsVarInt n v ↔ (Encodes n v × Fewest n v) }
{}

/// The test of a text's bytes says that they are the UTF-8 of characters, none of which is U+0000
/// (1.5.4).
pub fn text_is_characters()
    ensures { (bytes : List ℕ) → (is_text bytes ≡ true) ↔ IsUtf8WithoutNull bytes }
{}
