//! What holds of every text in one word (ours).

ghost use Rattle.std.specs.Prelude.{◌≡◌, List, ℕ};
ghost use Rattle.mqtt_base.specs.Escaped.{AreBytes, IsWord, escaped};

/// A text stands in a line as one word of printable ASCII, and two texts never as the same.
pub fn one_word()
    ensures word { (text : List ℕ) → AreBytes text → IsWord (escaped text) }
    ensures only { (text other : List ℕ) → AreBytes text → AreBytes other
        → escaped text ≡ escaped other → text ≡ other }
{}
