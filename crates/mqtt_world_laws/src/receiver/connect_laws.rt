//! Laws of a receiver's hop: its CONNECT on the line that it gave up (3.1.4, 4.4).
ghost use Rattle.std.specs.Prelude.{◌≡◌, ◌∷◌, ℕ, List, false};
ghost use Rattle.mqtt_flow.specs.outbound.OutboundWorld.{Lot};
ghost use Rattle.mqtt_flow.specs.outbound.Receiver.{connect};
ghost use Rattle.mqtt_world_laws.specs.receiver.Calls.{IsLate, reads_old_answer};
ghost use Rattle.mqtt_world_laws.specs.receiver.Entering.{Receives};
ghost use Rattle.mqtt_world_laws.specs.receiver.Handing.{IsRun, RunsOn, after_answer};
ghost use Rattle.mqtt_world_laws.specs.receiver.Seen.{Numbering};
ghost use Rattle.mqtt_world_model.specs.model.Ends.{Back, Receiver, answers};
ghost use Rattle.mqtt_records.specs.declared.state.session.Session.{Session};
ghost use Rattle.mqtt_rules.specs.step.State.{Broker, Line, MemberChoice};
ghost use Rattle.mqtt_rules.specs.declared.step.Capacity.{Capacity};

/// The broker reads a receiver's CONNECT without Clean Start on the line that it gave up, while its session stands: the
/// session is resumed there, and the receiver's line is closed if the session was connected on it. What the two see of
/// the world stays a run of their hop, with the same copies, and the session may receive more (3.1.4, 4.4).
pub fn a_connect_on_the_line_given_up_is_a_step_of_the_hop()
    ensures resumes { (number : Numbering) (largest : ℕ) (copies : List Lot) (limits : Capacity) (choice : MemberChoice)
        → (now : ℕ) (rest : List Back) (r : Receiver) (l : Line) (s : Session) (b : Broker)
        → IsRun number largest copies r b → IsLate r l s b → r.line.old ≡ answers (connect false) ∷ rest
        → RunsOn number largest copies (reads_old_answer limits choice now l.number (connect false) r b)
        (after_answer limits choice now l.number (connect false) r b)
        × Receives (reads_old_answer limits choice now l.number (connect false) r b)
        (after_answer limits choice now l.number (connect false) r b) }
{}
