//! Laws of a receiver's hop: after which steps its session may receive more (4.4, 4.6, 4.9).
ghost use Rattle.std.specs.Prelude.{◌≡◌, ℕ, Bool, List, [], ◌∷◌, false, length, nat_lt, true};
ghost use Rattle.mqtt_flow.specs.outbound.OutboundWorld.{Lot};
ghost use Rattle.mqtt_flow.specs.outbound.Receiver.{Answer, HasNoConnect, connect};
ghost use Rattle.mqtt_world_laws.specs.receiver.Calls.{IsBeginning, IsLingering, IsRenewing, IsResuming, reads_old_answer, receiver_called};
ghost use Rattle.mqtt_world_laws.specs.receiver.Entering.{IsReceiving, Receives};
ghost use Rattle.mqtt_world_laws.specs.receiver.Handing.{IsListening, IsRun, after_answer, reads_answer, receiver_lost};
ghost use Rattle.mqtt_world_laws.specs.receiver.Seen.{Numbering};
ghost use Rattle.mqtt_world_model.specs.model.Ends.{Back, Receiver, answers};
ghost use Rattle.mqtt_records.specs.declared.state.session.Session.{Session};
ghost use Rattle.mqtt_rules.specs.step.Flight.{HasDistinctIdentifiers};
ghost use Rattle.mqtt_rules.specs.step.State.{Broker, Line, MemberChoice};
ghost use Rattle.mqtt_rules.specs.step.Step.{Lost, Pump, stepped};
ghost use Rattle.mqtt_rules.specs.declared.step.Capacity.{Capacity};
ghost use Rattle.mqtt_rules.specs.whole.Whole.{FitsWhole};

/// If what went out on the line of a receiver's session are copies that stand in its queue, so that it may
/// receive more, it is so again after the broker has sent what waits for it, has read its answer on that line or on
/// the one that it gave up, or has lost its line. Asked of sending: each copy of the queue is, with its whole topic, no
/// larger than the line's client takes (3.1.2.11.4, 4.4, 4.6, 4.9).
pub fn a_receivers_session_may_receive_more()
    ensures sends { (number : Numbering) (largest : ℕ) (copies : List Lot) (limits : Capacity)
        → (choice : MemberChoice) (now : ℕ) (r : Receiver) (l : Line) (s : Session) (b : Broker)
        → IsRun number largest copies r b → IsListening r l s b → IsReceiving r s b
        → l.largest ≡ largest → FitsWhole l s → HasDistinctIdentifiers b.records
        → Receives (receiver_called limits choice now (Pump l.number) r b)
        (stepped limits choice now (Pump l.number) b) }
    ensures answers { (number : Numbering) (largest : ℕ) (copies : List Lot) (limits : Capacity) (choice : MemberChoice)
        → (now : ℕ) (a : Answer) (rest : List Back) (r : Receiver) (l : Line) (s : Session) (b : Broker)
        → HasNoConnect (a ∷ []) → IsRun number largest copies r b → IsListening r l s b → IsReceiving r s b
        → r.line.up ≡ answers a ∷ rest
        → Receives (reads_answer limits choice now l.number a r b)
        (after_answer limits choice now l.number a r b) }
    ensures old_answers { (number : Numbering) (largest : ℕ) (copies : List Lot) (limits : Capacity)
        → (choice : MemberChoice) (now : ℕ) (a : Answer) (rest : List Back) (r : Receiver) (l : Line) (s : Session)
        → (b : Broker) → HasNoConnect (a ∷ []) → IsRun number largest copies r b → IsLingering r l s b
        → IsReceiving r s b → r.line.old ≡ answers a ∷ rest
        → Receives (reads_old_answer limits choice now l.number a r b)
        (after_answer limits choice now l.number a r b) }
    ensures loses { (limits : Capacity) (choice : MemberChoice) (now : ℕ) (r : Receiver) (l : Line) (s : Session)
        → (b : Broker) → IsListening r l s b
        → Receives (receiver_lost limits choice now l.number r b) (stepped limits choice now (Lost l.number) b) }
{}

/// After the broker has read a receiver's CONNECT, by which its session is resumed, begins or is renewed, the session
/// may receive more: nothing has gone out on its new line yet (3.1.2.4, 3.1.4, 4.4).
pub fn a_connected_session_may_receive_more()
    ensures resumes { (number : Numbering) (largest : ℕ) (copies : List Lot) (limits : Capacity) (choice : MemberChoice)
        → (now : ℕ) (rest : List Back) (r : Receiver) (l : Line) (s : Session) (b : Broker)
        → IsRun number largest copies r b → IsResuming r l s b → r.line.up ≡ answers (connect false) ∷ rest
        → Receives (reads_answer limits choice now l.number (connect false) r b)
        (after_answer limits choice now l.number (connect false) r b) }
    ensures begins { (number : Numbering) (largest : ℕ) (copies : List Lot) (limits : Capacity) (choice : MemberChoice)
        → (now : ℕ) (clean : Bool) (rest : List Back) (r : Receiver) (l : Line) (b : Broker)
        → IsRun number largest copies r b → IsBeginning limits r l b
        → nat_lt (length b.records.sessions) limits.sessions ≡ true → r.line.up ≡ answers (connect clean) ∷ rest
        → Receives (reads_answer limits choice now l.number (connect clean) r b)
        (after_answer limits choice now l.number (connect clean) r b) }
    ensures renews { (number : Numbering) (largest : ℕ) (copies : List Lot) (limits : Capacity) (choice : MemberChoice)
        → (now : ℕ) (rest : List Back) (r : Receiver) (l : Line) (s : Session) (b : Broker)
        → IsRun number largest copies r b → IsRenewing limits r l s b → r.line.up ≡ answers (connect true) ∷ rest
        → Receives (reads_answer limits choice now l.number (connect true) r b)
        (after_answer limits choice now l.number (connect true) r b) }
{}
