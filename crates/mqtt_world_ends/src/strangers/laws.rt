//! What a piece of a stranger's bytes is in a world (MQTT 5.0, 2.1, 4.13).

ghost use Rattle.std.specs.Prelude.{◌≡◌, ℕ, false, List, [], ◌++◌, None, Some};
ghost use Rattle.mqtt_world_model.specs.model.Run.{deeds_at, read_if, the_deeds};
ghost use Rattle.mqtt_world_model.specs.model.World.{Setting, World, ask, bytes_held, calls_if, is_bad, next_line, step, stranger, stranger_named};
ghost use Rattle.mqtt_world_model.specs.single_steps.Unrolled.{AreAlike, IsWhole, bytes_come};
ghost use Rattle.mqtt_world_ends.specs.strangers.Strangers.{IsStep, asks_piece, newcomer, takes_piece, welcomes};

/// A piece of which one packet at most is whole is one step of the broker at most: what it asks for, while what is not
/// answered is held.
pub fn a_piece_is_a_step()
    ensures does { (set : Setting) (name piece : List ℕ) (w : World) → IsStep name piece w
        → step set (ask (stranger name piece)) w
        ≡ calls_if set (asks_piece name piece w) (takes_piece name piece w) }
    ensures deeds { (set : Setting) (name piece : List ℕ) (w : World) → IsStep name piece w
        → deeds_at set (ask (stranger name piece)) w ≡ read_if the_deeds set (asks_piece name piece w) w }
{}

/// The first piece of a stranger comes as it would to one that was linked before, and had sent nothing.
pub fn a_stranger_is_welcomed_first()
    ensures found { (set : Setting) (name : List ℕ) (w : World) → stranger_named name w ≡ None
        → stranger_named name (welcomes set name w) ≡ Some (newcomer name (next_line set.limits w.broker)) }
    ensures good { (set : Setting) (name piece : List ℕ) (w : World) → stranger_named name w ≡ None
        → is_bad (ask (stranger name piece)) w ≡ false
        → is_bad (ask (stranger name piece)) (welcomes set name w) ≡ false }
    ensures does { (set : Setting) (name piece : List ℕ) (w : World) → stranger_named name w ≡ None
        → is_bad (ask (stranger name piece)) w ≡ false
        → step set (ask (stranger name piece)) w ≡ step set (ask (stranger name piece)) (welcomes set name w) }
    ensures deeds { (set : Setting) (name piece : List ℕ) (w : World) → stranger_named name w ≡ None
        → is_bad (ask (stranger name piece)) w ≡ false
        → deeds_at set (ask (stranger name piece)) w
        ≡ deeds_at set (ask (stranger name piece)) (welcomes set name w) }
{}

/// If what a stranger sends is bytes and names no end, so it is with what comes up to the end of the first packet, and
/// with what is behind that when it has come; and nothing is held then.
pub fn pieces_are_good()
    ensures first { (name piece more : List ℕ) (w : World) → IsWhole (bytes_come name piece w)
        → is_bad (ask (stranger name (piece ++ more))) w ≡ false → is_bad (ask (stranger name piece)) w ≡ false }
    ensures rest { (set : Setting) (name piece more : List ℕ) (w : World)
        → AreAlike name w → IsWhole (bytes_come name piece w)
        → is_bad (ask (stranger name (piece ++ more))) w ≡ false
        → is_bad (ask (stranger name more)) (step set (ask (stranger name piece)) w) ≡ false }
    ensures nothing { (set : Setting) (name piece more : List ℕ) (w : World)
        → AreAlike name w → IsWhole (bytes_come name piece w)
        → is_bad (ask (stranger name (piece ++ more))) w ≡ false
        → bytes_held (stranger_named name (step set (ask (stranger name piece)) w)) ≡ [] }
{}
