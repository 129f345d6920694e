//! Nobody is held for ever, and nobody without need (ours).
ghost use Rattle.std.specs.Prelude.{◌≡◌, ◌<◌, ◌+◌, ℕ, Bool, true, List, Some, slice_get};
ghost use Rattle.mqtt_holding.specs.Holding.{BringsNothing, Event, Seen, is_held, is_pressed, run};
ghost use Rattle.mqtt_holding.specs.declared.seen.TheConstants.{HOLD_TIME, STALL_TIME};

/// If anybody is held, the queue of some connection is over the mark, and made progress in the last second.
pub fn nobody_is_held_without_need()
    ensures { (all : List Seen) (s : Seen) (now : ℕ) → is_held (is_pressed now all) now s ≡ true
        → (place : ℕ) × ((reader : Seen) × ((slice_get all place ≡ Some reader)
        × ((reader.is_over ≡ true) × (now < reader.moved + STALL_TIME)))) }
{}

/// Whatever is seen of a connection after it brought a PUBLISH, it is held for HOLD_TIME at most: then it is read until it brings another.
pub fn nobody_is_held_for_ever()
    ensures { (events : List Event) (s : Seen) (at now : ℕ) (pressed : Bool) → s.brought ≡ Some at → BringsNothing events
        → is_held pressed now (run events s) ≡ true → now < at + HOLD_TIME }
{}
