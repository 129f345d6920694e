//! Laws of a receiver's hop: what calls of the broker make of it (4.1, 4.4, 4.6, 4.9).
ghost use Rattle.std.specs.Prelude.{◌≡◌, ℕ, Bool, List, [], ◌∷◌, false, length, nat_lt, true};
ghost use Rattle.mqtt_flow.specs.outbound.OutboundWorld.{Lot};
ghost use Rattle.mqtt_flow.specs.outbound.Receiver.{Answer, HasNoConnect, connect};
ghost use Rattle.mqtt_world_laws.specs.receiver.Calls.{IsBeginning, IsLingering, IsRenewing, IsResuming, reads_old_answer, receiver_called};
ghost use Rattle.mqtt_world_laws.specs.receiver.Handing.{IsListening, IsRun, RunsOn, after_answer, reads_answer};
ghost use Rattle.mqtt_world_laws.specs.receiver.Seen.{Numbering};
ghost use Rattle.mqtt_world_model.specs.model.Ends.{Back, Receiver, answers};
ghost use Rattle.mqtt_records.specs.declared.state.session.Session.{Session};
ghost use Rattle.mqtt_rules.specs.step.Flight.{HasDistinctIdentifiers};
ghost use Rattle.mqtt_rules.specs.step.State.{Broker, Line, MemberChoice};
ghost use Rattle.mqtt_rules.specs.step.Step.{Pump, stepped};
ghost use Rattle.mqtt_rules.specs.declared.step.Capacity.{Capacity};
ghost use Rattle.mqtt_rules.specs.whole.Whole.{FitsWhole};

/// The broker sends what waits for a receiver whose session is connected on its line: whichever copies expire,
/// are sent, or are sent again, what the receiver and its session see of the world stays a run of their hop, with
/// the same copies; each PUBLISH is tagged with the copy that it carries. Asked: each copy of the queue is, with its
/// whole topic, no larger than the line's client takes, whatever that was told (3.1.2.11.4, 4.4, 4.6, 4.9).
pub fn sending_is_a_step_of_the_hop()
    ensures sends { (number : Numbering) (largest : ℕ) (copies : List Lot) (limits : Capacity)
        → (choice : MemberChoice) (now : ℕ) (r : Receiver) (l : Line) (s : Session) (b : Broker)
        → IsRun number largest copies r b → IsListening r l s b
        → l.largest ≡ largest → FitsWhole l s → HasDistinctIdentifiers b.records
        → RunsOn number largest copies (receiver_called limits choice now (Pump l.number) r b)
        (stepped limits choice now (Pump l.number) b) }
{}

/// The broker reads an answer that a receiver left on the line that it gave up, if its session is connected
/// still: what the receiver and its session see of the world stays a run of their hop, with the same copies;
/// nothing of it comes to the receiver, on whatever line it is now (4.3.2, 4.3.3, 4.4, 4.13).
pub fn answers_on_the_line_given_up_are_steps_of_the_hop()
    ensures answers { (number : Numbering) (largest : ℕ) (copies : List Lot) (limits : Capacity) (choice : MemberChoice)
        → (now : ℕ) (a : Answer) (rest : List Back) (r : Receiver) (l : Line) (s : Session) (b : Broker)
        → HasNoConnect (a ∷ []) → IsRun number largest copies r b → IsLingering r l s b
        → r.line.old ≡ answers a ∷ rest
        → RunsOn number largest copies (reads_old_answer limits choice now l.number a r b)
        (after_answer limits choice now l.number a r b) }
{}

/// The broker reads a receiver's CONNECT without Clean Start, while its session stands, connected on another line
/// or on none: the session is resumed on its line, its PUBRELs go out again in the order of release, and what the
/// two see of the world stays a run of their hop, with the same copies (3.1.2.4, 3.1.4, 4.4).
pub fn a_resumed_session_is_a_step_of_the_hop()
    ensures resumes { (number : Numbering) (largest : ℕ) (copies : List Lot) (limits : Capacity) (choice : MemberChoice)
        → (now : ℕ) (rest : List Back) (r : Receiver) (l : Line) (s : Session) (b : Broker)
        → IsRun number largest copies r b → IsResuming r l s b → r.line.up ≡ answers (connect false) ∷ rest
        → RunsOn number largest copies (reads_answer limits choice now l.number (connect false) r b)
        (after_answer limits choice now l.number (connect false) r b) }
{}

/// The broker reads a receiver's CONNECT, with or without Clean Start, while no session of its name stands and
/// there is a place for one: a new session begins on its line, CONNACK tells so, and what the two see of the
/// world stays a run of their hop, with the same copies, of which none stands (3.1.2.4, 3.2.2.1.1).
pub fn a_new_session_is_a_step_of_the_hop()
    ensures begins { (number : Numbering) (largest : ℕ) (copies : List Lot) (limits : Capacity) (choice : MemberChoice)
        → (now : ℕ) (clean : Bool) (rest : List Back) (r : Receiver) (l : Line) (b : Broker)
        → IsRun number largest copies r b → IsBeginning limits r l b
        → nat_lt (length b.records.sessions) limits.sessions ≡ true → r.line.up ≡ answers (connect clean) ∷ rest
        → RunsOn number largest copies (reads_answer limits choice now l.number (connect clean) r b)
        (after_answer limits choice now l.number (connect clean) r b) }
{}

/// The broker reads a receiver's CONNECT with Clean Start, while its session stands, connected on another line or
/// on none: each copy that stands ends with the session, a new one begins on its line, and what the two see of
/// the world stays a run of their hop, with the same copies (3.1.2.4, 3.1.4).
pub fn a_clean_start_is_a_step_of_the_hop()
    ensures renews { (number : Numbering) (largest : ℕ) (copies : List Lot) (limits : Capacity) (choice : MemberChoice)
        → (now : ℕ) (rest : List Back) (r : Receiver) (l : Line) (s : Session) (b : Broker)
        → IsRun number largest copies r b → IsRenewing limits r l s b → r.line.up ≡ answers (connect true) ∷ rest
        → RunsOn number largest copies (reads_answer limits choice now l.number (connect true) r b)
        (after_answer limits choice now l.number (connect true) r b) }
{}
