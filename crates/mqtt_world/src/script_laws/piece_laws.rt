//! Laws of the bytes of a stranger, as they come piece by piece (2.1, 4.13).
ghost use Rattle.std.specs.Prelude.{◌≡◌, ◌⊎◌, ℕ, false, List, [], ◌++◌, Ok, None, Some};
ghost use Rattle.mqtt_world_model.specs.model.Run.{read_if, the_deeds};
ghost use Rattle.mqtt_world_model.specs.model.Tellings.{Telling, silent, telling};
ghost use Rattle.mqtt_world_model.specs.model.World.{Stranger, World, ask, call_on, calls_if, held_after, is_bad, next_held, stop_after, stranger, stranger_named, with_stranger};
ghost use Rattle.mqtt_packet.specs.stream.Front.{first_of};
ghost use Rattle.mqtt_rules.specs.step.State.{MemberChoice};
ghost use Rattle.mqtt_rules.specs.declared.step.Capacity.{Capacity};
ghost use Rattle.mqtt_world.specs.script_laws.Scripted.{Happens};
ghost use Rattle.mqtt_world.specs.script_laws.Turns.{IsReopened, IsTurn, both_tell, by_choice, welcomed};
ghost use Rattle.mqtt_world_model.specs.single_steps.Unrolled.{AreAlike, IsDecided, IsWhole, bytes_come};
ghost use Rattle.mqtt_world_laws.specs.acceptance.Spending.{spending};

/// The bytes of a stranger happen piece by piece: each but the last ends with a packet, and tells before what comes behind it
/// does; and of bytes at which the broker stops those up to the first packet come (2.1, 4.1).
pub fn bytes_happen_piece_by_piece()
    ensures last { (limits : Capacity) (name piece : List ℕ) (t : Telling) (w after : World)
        → first_of (held_after (bytes_come name piece w)) ≡ Ok None
        → IsTurn limits (ask (stranger name piece)) t w after → Happens limits (ask (stranger name piece)) t w after }
    ensures more { (limits : Capacity) (name piece more : List ℕ) (t u : Telling) (w mid after : World) → AreAlike name w
        → is_bad (ask (stranger name (piece ++ more))) w ≡ false → IsWhole (bytes_come name piece w)
        → IsTurn limits (ask (stranger name piece)) t w mid → Happens limits (ask (stranger name more)) u mid after
        → Happens limits (ask (stranger name (piece ++ more))) (both_tell t u) w after }
    ensures stops { (limits : Capacity) (name bytes part more : List ℕ) (t : Telling) (w mid after : World)
        → is_bad (ask (stranger name bytes)) w ≡ false → part ++ more ≡ bytes
        → (more ≡ []) ⊎ IsDecided (bytes_come name part w) → first_of (held_after (bytes_come name part w)) ≡ Ok None
        → IsTurn limits (ask (stranger name part)) t w mid → IsReopened limits mid after
        → Happens limits (stop_after (stranger name bytes)) silent w after }
{}

/// A piece is what it asks for of the broker, on its stranger's line; and the first piece of a stranger comes as it would to one
/// that was linked before (2.1, 4.13).
pub fn a_piece_is_one_turn()
    ensures there { (limits : Capacity) (choice : MemberChoice) (name piece : List ℕ) (s : Stranger) (t : Telling)
        (w after : World) → stranger_named name w ≡ Some s → AreAlike name w
        → first_of (held_after (bytes_come name piece w)) ≡ Ok None → is_bad (ask (stranger name piece)) w ≡ false
        → read_if spending (by_choice limits choice) (call_on s.number (s.held ++ piece)) w ≡ false
        → after ≡ calls_if (by_choice limits choice) (call_on s.number (s.held ++ piece))
        (next_held name (with_stranger name (λ x. record x { held = x.held ++ piece }) w))
        → t ≡ telling (read_if the_deeds (by_choice limits choice) (call_on s.number (s.held ++ piece)) w)
        → IsTurn limits (ask (stranger name piece)) t w after }
    ensures first { (limits : Capacity) (choice : MemberChoice) (name piece : List ℕ) (t : Telling) (w after : World)
        → stranger_named name w ≡ None → is_bad (ask (stranger name piece)) w ≡ false
        → IsTurn limits (ask (stranger name piece)) t (welcomed (by_choice limits choice) name w) after
        → IsTurn limits (ask (stranger name piece)) t w after }
{}
