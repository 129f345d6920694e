//! Laws of a receiver's hop: what the receiver does and reads leaves it in step, or awaiting its session (4.3, 4.4).
ghost use Rattle.std.specs.Prelude.{◌≡◌, ◌∷◌, ℕ, Bool, List, [], None, suc};
ghost use Rattle.mqtt_base.specs.declared.session.CopyId.{CopyId};
ghost use Rattle.mqtt_world_laws.specs.receiver.Handing.{MayComeBack, receiver_joined};
ghost use Rattle.mqtt_world_laws.specs.receiver.Own.{IsAwaiting, IsInStep};
ghost use Rattle.mqtt_world_model.specs.model.Ends.{Receiver, Wish, new_receiver, receiver_reads};
ghost use Rattle.mqtt_world_model.specs.model.Hops.{MayGiveUp};
ghost use Rattle.mqtt_world_model.specs.model.Lines.{gives_up};
ghost use Rattle.mqtt_world_model.specs.model.Seen.{is_linked};
ghost use Rattle.mqtt_world_model.specs.model.World.{asks_wish};
ghost use Rattle.mqtt_rules.specs.step.State.{Broker, MemberChoice, session_named};
ghost use Rattle.mqtt_rules.specs.step.Step.{NewLine, stepped};
ghost use Rattle.mqtt_rules.specs.declared.step.Capacity.{Capacity};

/// A receiver that is in step with the broker stays so whatever it does or reads: it reads the first packet under way
/// to it, gives its line up, asks for a subscription, or joins by a new line, whose number is one more of its own
/// (4.3.2, 4.3.3, 4.4).
pub fn own_doings_leave_a_receiver_in_step()
    ensures reads { (largest : ℕ) (ids : List CopyId) (birth : ℕ) (ns : List ℕ) (t : Bool) (r : Receiver) (b : Broker)
        → IsInStep largest ids birth ns r b → is_linked r.line.number b ≡ t
        → IsInStep largest ids birth ns (receiver_reads t r.line.down r) b }
    ensures gives_up { (largest : ℕ) (ids : List CopyId) (birth : ℕ) (ns : List ℕ) (r : Receiver) (b : Broker)
        → IsInStep largest ids birth ns r b → MayGiveUp r.line.link r.line.clean
        → IsInStep largest ids birth ns (record r { line = gives_up r.line.link r.line }) b }
    ensures asks { (largest : ℕ) (ids : List CopyId) (birth : ℕ) (ns : List ℕ) (t : Bool) (w : Wish) (r : Receiver)
        → (b : Broker) → IsInStep largest ids birth ns r b → IsInStep largest ids birth ns (asks_wish t w r) b }
    ensures joins { (largest : ℕ) (ids : List CopyId) (birth : ℕ) (ns : List ℕ) (limits : Capacity)
        → (choice : MemberChoice) (now : ℕ) (clean : Bool) (r : Receiver) (b : Broker)
        → IsInStep largest ids birth ns r b → MayComeBack limits clean r b
        → IsInStep largest ids birth (suc b.given ∷ ns) (receiver_joined limits choice now clean r b)
        (stepped limits choice now NewLine b) }
{}

/// A receiver awaits its session when it comes, if no session of its name stands, with no copies and no lines, and
/// goes on so whatever it does or reads (4.3.2, 4.3.3, 4.4).
pub fn own_doings_leave_a_receiver_awaiting()
    ensures comes { (largest : ℕ) (client : List ℕ) (window aliases since : ℕ) (b : Broker)
        → session_named client b.records ≡ None → IsAwaiting largest [] [] (new_receiver client window aliases since) b }
    ensures reads { (largest : ℕ) (ids : List CopyId) (ns : List ℕ) (t : Bool) (r : Receiver) (b : Broker)
        → IsAwaiting largest ids ns r b → is_linked r.line.number b ≡ t
        → IsAwaiting largest ids ns (receiver_reads t r.line.down r) b }
    ensures gives_up { (largest : ℕ) (ids : List CopyId) (ns : List ℕ) (r : Receiver) (b : Broker)
        → IsAwaiting largest ids ns r b → MayGiveUp r.line.link r.line.clean
        → IsAwaiting largest ids ns (record r { line = gives_up r.line.link r.line }) b }
    ensures asks { (largest : ℕ) (ids : List CopyId) (ns : List ℕ) (t : Bool) (w : Wish) (r : Receiver) (b : Broker)
        → IsAwaiting largest ids ns r b → IsAwaiting largest ids ns (asks_wish t w r) b }
    ensures joins { (largest : ℕ) (ids : List CopyId) (ns : List ℕ) (limits : Capacity) (choice : MemberChoice)
        → (now : ℕ) (clean : Bool) (r : Receiver) (b : Broker)
        → IsAwaiting largest ids ns r b → MayComeBack limits clean r b
        → IsAwaiting largest ids (suc b.given ∷ ns) (receiver_joined limits choice now clean r b)
        (stepped limits choice now NewLine b) }
{}
