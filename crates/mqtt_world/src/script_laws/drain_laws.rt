//! Laws of drains in scripts, turn by turn: of their rounds, and of the choices of members in them (4.3, 4.4, 4.6).
ghost use Rattle.std.specs.Prelude.{◌≡◌, ◌≤◌, ◌+◌, ℕ, List, false, length, suc, true};
ghost use Rattle.mqtt_world_laws.specs.delivery.Untouched.{IsUntouched};
ghost use Rattle.mqtt_world_laws.specs.receiver.Drains.{copies_left, drain_turns, drained, enough_rounds, is_bad_drain, is_over, round_turns};
ghost use Rattle.mqtt_world_model.specs.model.Tellings.{Telling};
ghost use Rattle.mqtt_world_model.specs.model.World as world;
ghost use Rattle.mqtt_world_model.specs.model.World.{World, ask, pump, to_broker, to_end};
ghost use Rattle.mqtt_rules.specs.step.State.{MemberChoice};
ghost use Rattle.mqtt_rules.specs.declared.step.Capacity.{Capacity};
ghost use Rattle.mqtt_script.specs.declared.event.Event.{Event};
ghost use Rattle.mqtt_world.specs.script_laws.Cleanly.{ComesFairly};
ghost use Rattle.mqtt_world.specs.script_laws.Drains.{DrainHappens, DrainsBy, IsRound, MakesRounds, Repeats};
ghost use Rattle.mqtt_world.specs.script_laws.Scripted.{Happens};
ghost use Rattle.mqtt_world.specs.script_laws.Turns.{IsTurn, both_tell};
ghost use Rattle.mqtt_world_laws.specs.acceptance.Copies.{entered_from};
ghost use Rattle.mqtt_world_laws.specs.acceptance.Spending.{run_spends};

/// What a receiver sends publishes nothing, and its session has no Will: so in a drain no choice of members is asked for. From
/// wherever fair turns of a script have come to, its rounds are those by any one choice, and with them what is told; so is the whole drain, of
/// so many rounds or more at most (3.1.2.5, 4.3, 4.4, 4.8.2).
pub fn a_drain_is_by_one_choice()
    ensures so_far { (limits : Capacity) (es : List Event) (choice : MemberChoice) (client : List ℕ)
        (rounds : ℕ) (t : Telling) (w v after : World) → IsUntouched limits w
        → ComesFairly limits es w v → MakesRounds limits client rounds t v after
        → DrainsBy limits choice client rounds rounds t v after }
    ensures whole { (limits : Capacity) (es : List Event) (choice : MemberChoice) (client : List ℕ)
        (most : ℕ) (t : Telling) (w v after : World) → IsUntouched limits w
        → ComesFairly limits es w v → (h : DrainHappens limits client t v after)
        → h.rounds ≤ most → DrainsBy limits choice client most h.rounds t v after }
{}

/// From wherever fair turns of a script have come to, a drain makes no more rounds than twice the copies that stand in the queue at its start or
/// enter in its first round, and one; and after so many it is over: the queue is empty, or the broker has closed the line (4.3,
/// 4.4, 4.6, 4.9).
pub fn drains_of_a_script_end()
    ensures is_within { (limits : Capacity) (es : List Event) (choice : MemberChoice) (client : List ℕ)
        (rounds : ℕ) (t : Telling) (w v after : World) → IsUntouched limits w
        → ComesFairly limits es w v → MakesRounds limits client rounds t v after
        → rounds ≤ enough_rounds (copies_left client v
        + length (entered_from limits (round_turns limits choice client v) v)) }
    ensures is_over { (limits : Capacity) (es : List Event) (choice : MemberChoice) (client : List ℕ)
        (rounds : ℕ) (t : Telling) (w v after : World) → IsUntouched limits w
        → ComesFairly limits es w v → MakesRounds limits client rounds t v after
        → enough_rounds (copies_left client v + length (entered_from limits (round_turns limits choice client v) v)) ≤ rounds
        → is_over client after ≡ true }
{}

/// From wherever fair turns of a script have come to, a receiver whose line stands can be drained: enough rounds of a drain by some choice, if
/// they spend no number, are rounds turn by turn, and after them the drain is over (4.3, 4.4, 4.6, 4.9).
pub fn a_drain_can_happen()
    ensures { (limits : Capacity) (es : List Event) (choice : MemberChoice) (client : List ℕ) (most : ℕ)
        (w v : World) → IsUntouched limits w → ComesFairly limits es w v
        → is_bad_drain client v ≡ false → run_spends limits (drain_turns limits choice client most v) v ≡ false
        → enough_rounds (copies_left client v + length (entered_from limits (round_turns limits choice client v) v)) ≤ most
        → (t : Telling) × DrainHappens limits client t v (drained limits choice client most v) }
{}

/// Rounds follow one another, and so do the turns of one event: one more after so many is one more than so many, and tells
/// behind what they do (4.6).
pub fn rounds_follow_one_another()
    ensures once_more { (limits : Capacity) (n : ℕ) (e : world.Event) (t u : Telling) (w mid after : World)
        → Repeats limits n e t w mid → IsTurn limits e u mid after → Repeats limits (suc n) e (both_tell t u) w after }
    ensures a_round_more { (limits : Capacity) (client : List ℕ) (rounds : ℕ) (t u : Telling) (w mid after : World)
        → MakesRounds limits client rounds t w mid → is_over client mid ≡ false → IsRound limits client u mid after
        → MakesRounds limits client (suc rounds) (both_tell t u) w after }
{}

/// What the broker sends for a client, a packet that an end reads, and one that the broker reads from it happen as one turn
/// each: so a drain is made of what happens (4.4, 4.6).
pub fn what_a_drain_is_made_of_is_turns()
    ensures sends { (limits : Capacity) (client : List ℕ) (t : Telling) (w after : World)
        → Happens limits (ask (pump client)) t w after → IsTurn limits (ask (pump client)) t w after }
    ensures reads { (limits : Capacity) (client : List ℕ) (t : Telling) (w after : World)
        → Happens limits (to_end client) t w after → IsTurn limits (to_end client) t w after }
    ensures answers { (limits : Capacity) (client : List ℕ) (t : Telling) (w after : World)
        → Happens limits (ask (to_broker client)) t w after → IsTurn limits (ask (to_broker client)) t w after }
{}
