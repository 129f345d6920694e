//! Laws of the events of the world, for a receiver: what it sees stays a run of its hop (4.3, 4.4).
ghost use Rattle.std.specs.Prelude.{◌≡◌, ◌∷◌, [], ℕ, Bool, List, Some, false, true};
ghost use Rattle.mqtt_base.specs.declared.session.CopyId.{CopyId};
ghost use Rattle.mqtt_world_laws.specs.delivery.Standing.{IsForOthers, Stands, StandsWith};
ghost use Rattle.mqtt_flow.specs.outbound.Receiver.{Answer, HasNoConnect};
ghost use Rattle.mqtt_world_model.specs.model.Ends.{Back, Draft, Receiver, Wish, answers};
ghost use Rattle.mqtt_world_model.specs.model.Run.{begins_clean, read_asked, read_first, read_opening};
ghost use Rattle.mqtt_world_model.specs.model.World.{Asking, Setting, World, asks, before, break, clock, connect_end, first_step, give_up, happens, is_bad, is_bad_asking, old_to_broker, publish, publisher, pump, receiver, receiver_named, restart, stop_after, stop_before, stranger, subscribe, tick, to_broker, to_end};
ghost use Rattle.mqtt_rules.specs.step.Flight.{HasDistinctIdentifiers};
ghost use Rattle.mqtt_rules.specs.step.State.{Line, line_at};
ghost use Rattle.mqtt_world_laws.specs.acceptance.Spending.{spending};
ghost use Rattle.mqtt_world_laws.specs.receiver.WorldRounds.{QueueFits};

/// Whatever an end does leaves a receiver standing, be it the receiver itself or another, with the same copies and
/// lines: ends come, give a line up, publish, ask for subscriptions and read, and time passes (3.1.2.4, 4.3, 4.4).
pub fn what_ends_do_leaves_a_receiver_standing()
    ensures comes { (client name : List ℕ) (largest : ℕ) (set : Setting) (ids : List CopyId) (ns : List ℕ) (w : World)
        → StandsWith client largest set.limits ids ns w → is_bad (publisher name) w ≡ false
        → StandsWith client largest set.limits ids ns (happens set (publisher name) w) }
    ensures receives { (client name : List ℕ) (largest window aliases : ℕ) (set : Setting) (ids : List CopyId) (ns : List ℕ)
        → (w : World) → StandsWith client largest set.limits ids ns w → is_bad (receiver name window aliases) w ≡ false
        → begins_clean (receiver name window aliases) w ≡ true
        → StandsWith client largest set.limits ids ns (happens set (receiver name window aliases) w) }
    ensures gives_up { (client name : List ℕ) (largest : ℕ) (set : Setting) (ids : List CopyId) (ns : List ℕ) (w : World)
        → StandsWith client largest set.limits ids ns w → begins_clean (give_up name) w ≡ true
        → StandsWith client largest set.limits ids ns (happens set (give_up name) w) }
    ensures publishes { (client name : List ℕ) (d : Draft) (largest : ℕ) (set : Setting) (ids : List CopyId) (ns : List ℕ)
        → (w : World) → StandsWith client largest set.limits ids ns w
        → StandsWith client largest set.limits ids ns (happens set (publish name d) w) }
    ensures asks { (client name : List ℕ) (wish : Wish) (largest : ℕ) (set : Setting) (ids : List CopyId) (ns : List ℕ)
        → (w : World) → StandsWith client largest set.limits ids ns w → is_bad (subscribe name wish) w ≡ false
        → StandsWith client largest set.limits ids ns (happens set (subscribe name wish) w) }
    ensures reads { (client name : List ℕ) (largest : ℕ) (set : Setting) (ids : List CopyId) (ns : List ℕ) (w : World)
        → StandsWith client largest set.limits ids ns w
        → StandsWith client largest set.limits ids ns (happens set (to_end name) w) }
    ensures waits { (client : List ℕ) (wait largest : ℕ) (set : Setting) (ids : List CopyId) (ns : List ℕ) (w : World)
        → StandsWith client largest set.limits ids ns w
        → StandsWith client largest set.limits ids ns (happens set (clock wait) w) }
{}

/// What the broker is asked for another end leaves a receiver standing: a packet of it is read, on its line or on the one
/// that it gave up, or what waits for it is sent (3.1.4, 3.3.4, 4.4).
pub fn what_is_asked_for_others_leaves_a_receiver_standing()
    ensures reads { (first : List CopyId) (client name : List ℕ) (largest : ℕ) (set : Setting) (w : World)
        → Stands first client largest set.limits w → (name ≡ client → ⊥) → read_first spending set (to_broker name) w ≡ false
        → Stands first client largest set.limits (asks set (to_broker name) w) }
    ensures reads_old { (first : List CopyId) (client name : List ℕ) (largest : ℕ) (set : Setting) (w : World)
        → Stands first client largest set.limits w → (name ≡ client → ⊥)
        → read_first spending set (old_to_broker name) w ≡ false
        → Stands first client largest set.limits (asks set (old_to_broker name) w) }
    ensures sends { (first : List CopyId) (client name : List ℕ) (largest : ℕ) (set : Setting) (w : World)
        → Stands first client largest set.limits w → (name ≡ client → ⊥) → read_first spending set (pump name) w ≡ false
        → Stands first client largest set.limits (asks set (pump name) w) }

    // Bytes of a stranger, of which each whole packet is answered.
    ensures comes { (first : List CopyId) (client name bytes : List ℕ) (largest : ℕ) (set : Setting) (w : World)
        → Stands first client largest set.limits w → is_bad_asking (stranger name bytes) w ≡ false
        → read_asked spending set (stranger name bytes) w ≡ false
        → Stands first client largest set.limits (asks set (stranger name bytes) w) }
{}

/// The line of an end is lost, be it a receiver's own or another's, and the end leaves it: the receiver stands as before, with
/// its session connected nowhere if it was connected there (4.4).
pub fn a_lost_line_leaves_a_receiver_standing()
    ensures loses { (first : List CopyId) (client name : List ℕ) (largest : ℕ) (set : Setting) (w : World)
        → Stands first client largest set.limits w → read_first spending set (break name) w ≡ false
        → Stands first client largest set.limits (asks set (break name) w) }
{}

/// An end joins by a new line and CONNECT, be it a receiver itself or another: the receiver stands as before, and the line
/// is its own, or another's (3.1, 4.2).
pub fn a_new_line_leaves_a_receiver_standing()
    ensures joins { (first : List CopyId) (client name : List ℕ) (clean : Bool) (largest : ℕ) (set : Setting) (w : World)
        → Stands first client largest set.limits w → is_bad (connect_end name clean) w ≡ false
        → begins_clean (connect_end name clean) w ≡ true
        → Stands first client largest set.limits (happens set (connect_end name clean) w) }
{}

/// The broker restarts, or stops before the commit of whatever it is asked for and restarts: a receiver stands as before,
/// on no line, with the copies that entered its queue as the broker opened behind those that entered before (4.1, 4.4).
pub fn a_restart_leaves_a_receiver_standing()
    ensures restarts { (first : List CopyId) (client : List ℕ) (largest : ℕ) (set : Setting) (w : World)
        → Stands first client largest set.limits w → read_opening spending set w ≡ false
        → Stands first client largest set.limits (happens set restart w) }
    ensures stops { (first : List CopyId) (client : List ℕ) (a : Asking) (largest : ℕ) (set : Setting) (w : World)
        → Stands first client largest set.limits w → read_opening spending set (before set a w) ≡ false
        → Stands first client largest set.limits (happens set (stop_before a) w) }
{}

/// The broker stops after the commit of what it was asked for, if that was made for others or was the loss of a line, and
/// restarts before anything goes out: a receiver stands as before, on no line (4.1, 4.4).
pub fn a_stop_after_the_commit_leaves_a_receiver_standing()
    ensures stops { (first : List CopyId) (client : List ℕ) (a : Asking) (largest : ℕ) (set : Setting) (w : World)
        → Stands first client largest set.limits w → IsForOthers client a → is_bad_asking a w ≡ false
        → read_first spending set a w ≡ false → read_opening spending set (first_step set a w) ≡ false
        → Stands first client largest set.limits (happens set (stop_after a) w) }
{}

/// The broker sends what waits for a receiver on its own line, or nothing if nobody is connected there: the receiver
/// stands as before. Asked: that line has the Maximum Packet Size of its hop, and no copy that waits is larger, with its whole
/// topic; and no two copies in flight have one identifier, as after each step (3.1.2.11.4, 4.4, 4.6, 4.9).
pub fn sending_leaves_a_receiver_standing()
    ensures sends { (first : List CopyId) (client : List ℕ) (largest : ℕ) (set : Setting) (r : Receiver) (w : World)
        → Stands first client largest set.limits w → receiver_named client w ≡ Some r → HasDistinctIdentifiers w.broker.records
        → ((n : ℕ) (l : Line) (birth : ℕ) → r.line.number ≡ Some n → line_at n w.broker ≡ Some l
        → l.session ≡ Some birth → (l.largest ≡ largest) × QueueFits largest birth w.broker)
        → read_first spending set (pump client) w ≡ false → Stands first client largest set.limits (asks set (pump client) w) }
{}

/// A tick leaves a receiver standing, whatever it does: it is made for others, or closes a line on which the receiver's own
/// CONNECT didn't come in time (3.1, 4.1).
pub fn a_tick_leaves_a_receiver_standing()
    ensures ticks { (first : List CopyId) (client : List ℕ) (largest : ℕ) (set : Setting) (w : World)
        → Stands first client largest set.limits w → read_first spending set tick w ≡ false
        → Stands first client largest set.limits (asks set tick w) }
{}

/// The broker reads a receiver's answer, PUBACK, PUBREC or PUBCOMP, on its line or on the one that it gave up: the receiver
/// stands as before, with its session connected there still, or nowhere if the answer breaks the protocol (4.3.2, 4.3.3,
/// 4.4, 4.13).
pub fn an_answer_leaves_a_receiver_standing()
    ensures reads { (first : List CopyId) (client : List ℕ) (a : Answer) (rest : List Back) (largest : ℕ) (set : Setting) (r : Receiver)
        → (w : World) → Stands first client largest set.limits w → receiver_named client w ≡ Some r
        → HasNoConnect (a ∷ []) → r.line.up ≡ answers a ∷ rest → read_first spending set (to_broker client) w ≡ false
        → Stands first client largest set.limits (asks set (to_broker client) w) }
    ensures reads_old { (first : List CopyId) (client : List ℕ) (a : Answer) (rest : List Back) (largest : ℕ) (set : Setting) (r : Receiver)
        → (w : World) → Stands first client largest set.limits w → receiver_named client w ≡ Some r
        → HasNoConnect (a ∷ []) → r.line.old ≡ answers a ∷ rest
        → read_first spending set (old_to_broker client) w ≡ false
        → Stands first client largest set.limits (asks set (old_to_broker client) w) }
{}
