//! Laws of a receiver's hop: what its own calls leave in step, so that one can follow another (3.1.2.4, 4.3, 4.4, 4.9).
ghost use Rattle.std.specs.Prelude.{◌≡◌, ◌∷◌, ℕ, Bool, List, [], Some, false, length, nat_eq, nat_lt, suc, true};
ghost use Rattle.std.specs.List.{starts_with};
ghost use Rattle.mqtt_base.specs.declared.session.CopyId.{CopyId};
ghost use Rattle.mqtt_flow.specs.outbound.Receiver.{Answer, HasNoConnect, connect};
ghost use Rattle.mqtt_world_laws.specs.receiver.Calls.{IsBeginning, IsLingering, IsRenewing, IsResuming, reads_old_answer, receiver_called, turned_back};
ghost use Rattle.mqtt_world_laws.specs.receiver.Handing.{IsListening, after_answer, reads_answer, receiver_after, receiver_lost};
ghost use Rattle.mqtt_world_laws.specs.receiver.Own.{IsAwaiting, IsInStep, Listens, StepsOn, Subscribed};
ghost use Rattle.mqtt_world_laws.specs.receiver.Served.{IsCallOfOthers, IsOverdue, IsTidy};
ghost use Rattle.mqtt_world_model.specs.model.Ends.{Back, Receiver, Wish, answers, asks_for, wire_back};
ghost use Rattle.mqtt_world_model.specs.model.Lines.{is_one_of};
ghost use Rattle.mqtt_records.specs.state.Session.{auto};
ghost use Rattle.mqtt_records.specs.declared.state.session.Session.{Session};
ghost use Rattle.mqtt_rules.specs.step.Flight.{HasDistinctIdentifiers};
ghost use Rattle.mqtt_rules.specs.step.Laws.{IsOrdered};
ghost use Rattle.mqtt_rules.specs.step.Lines.{HasUniqueLines};
ghost use Rattle.mqtt_rules.specs.step.State.{Broker, Line, MemberChoice, line_at};
ghost use Rattle.mqtt_rules.specs.step.Step.{Call, Input, Lost, Pump, Tick, at_moment, stepped};
ghost use Rattle.mqtt_rules.specs.declared.step.Capacity.{Capacity};
ghost use Rattle.mqtt_rules.specs.whole.Whole.{FitsWhole};

/// The broker reads a receiver's answer on the line that its session is connected on, be it the receiver's own or the one
/// that it gave up: the two stay in step, with the same copies, session and lines (4.3.2, 4.3.3, 4.13).
pub fn answers_leave_a_receiver_in_step()
    ensures answers { (largest : ℕ) (ids : List CopyId) (birth : ℕ) (ns : List ℕ) (limits : Capacity)
        → (choice : MemberChoice) (now : ℕ) (a : Answer) (rest : List Back) (r : Receiver) (l : Line) (s : Session)
        → (b : Broker) → HasNoConnect (a ∷ []) → IsInStep largest ids birth ns r b → IsListening r l s b
        → r.line.up ≡ answers a ∷ rest
        → IsInStep largest ids birth ns (reads_answer limits choice now l.number a r b)
        (after_answer limits choice now l.number a r b) }
    ensures old_answers { (largest : ℕ) (ids : List CopyId) (birth : ℕ) (ns : List ℕ) (limits : Capacity)
        → (choice : MemberChoice) (now : ℕ) (a : Answer) (rest : List Back) (r : Receiver) (l : Line) (s : Session)
        → (b : Broker) → HasNoConnect (a ∷ []) → IsInStep largest ids birth ns r b → IsLingering r l s b
        → r.line.old ≡ answers a ∷ rest
        → IsInStep largest ids birth ns (reads_old_answer limits choice now l.number a r b)
        (after_answer limits choice now l.number a r b) }
{}

/// The broker sends what waits for a receiver, or loses the line that its session is connected on, and the receiver
/// leaves that line: the two stay in step, with the same copies, session and lines. Asked of sending: each copy of the queue
/// is, with its whole topic, no larger than the line's client takes (3.1.2.11.4, 4.4, 4.6, 4.9).
pub fn its_line_leaves_a_receiver_in_step()
    ensures sends { (largest : ℕ) (ids : List CopyId) (birth : ℕ) (ns : List ℕ) (limits : Capacity) (choice : MemberChoice)
        → (now : ℕ) (r : Receiver) (l : Line) (s : Session) (b : Broker)
        → IsInStep largest ids birth ns r b → IsListening r l s b → l.largest ≡ largest → FitsWhole l s
        → HasDistinctIdentifiers b.records
        → IsInStep largest ids birth ns (receiver_called limits choice now (Pump l.number) r b)
        (stepped limits choice now (Pump l.number) b) }
    ensures loses { (largest : ℕ) (ids : List CopyId) (birth : ℕ) (ns : List ℕ) (limits : Capacity) (choice : MemberChoice)
        → (now : ℕ) (r : Receiver) (l : Line) (s : Session) (b : Broker)
        → IsInStep largest ids birth ns r b → IsListening r l s b
        → IsInStep largest ids birth ns (receiver_lost limits choice now l.number r b)
        (stepped limits choice now (Lost l.number) b) }
{}

/// The broker reads a receiver's CONNECT on its line: the two stay in step if its session is resumed, and are in step
/// with the session that begins, be it the first of its name or instead of the one before; its birth is the next one,
/// and the copies and lines are the same. If there is no place for a session, the receiver awaits one as before: the
/// line closes, and what is under way on it is not read (3.1.2.4, 3.1.4, 3.2.2.1.1, 3.2.2.2).
pub fn a_connect_puts_a_receiver_in_step()
    ensures resumes { (largest : ℕ) (ids : List CopyId) (birth : ℕ) (ns : List ℕ) (limits : Capacity)
        → (choice : MemberChoice) (now : ℕ) (rest : List Back) (r : Receiver) (l : Line) (s : Session) (b : Broker)
        → IsInStep largest ids birth ns r b → IsResuming r l s b → r.line.up ≡ answers (connect false) ∷ rest
        → IsInStep largest ids birth ns (reads_answer limits choice now l.number (connect false) r b)
        (after_answer limits choice now l.number (connect false) r b) }
    ensures begins { (largest : ℕ) (ids : List CopyId) (ns : List ℕ) (limits : Capacity) (choice : MemberChoice) (now : ℕ)
        → (clean : Bool) (rest : List Back) (r : Receiver) (l : Line) (b : Broker)
        → IsAwaiting largest ids ns r b → IsBeginning limits r l b
        → nat_lt (length b.records.sessions) limits.sessions ≡ true → r.line.up ≡ answers (connect clean) ∷ rest
        → IsInStep largest ids (suc b.records.births) ns (reads_answer limits choice now l.number (connect clean) r b)
        (after_answer limits choice now l.number (connect clean) r b) }
    ensures renews { (largest : ℕ) (ids : List CopyId) (birth : ℕ) (ns : List ℕ) (limits : Capacity)
        → (choice : MemberChoice) (now : ℕ) (rest : List Back) (r : Receiver) (l : Line) (s : Session) (b : Broker)
        → IsInStep largest ids birth ns r b → IsRenewing limits r l s b → r.line.up ≡ answers (connect true) ∷ rest
        → IsInStep largest ids (suc b.records.births) ns (reads_answer limits choice now l.number (connect true) r b)
        (after_answer limits choice now l.number (connect true) r b) }
    ensures refuses { (largest : ℕ) (ids : List CopyId) (ns : List ℕ) (limits : Capacity) (choice : MemberChoice)
        → (now : ℕ) (clean : Bool) (rest : List Back) (r : Receiver) (l : Line) (b : Broker)
        → IsAwaiting largest ids ns r b → IsBeginning limits r l b
        → is_one_of r.line.old_number (l.number ∷ []) ≡ false
        → nat_lt (length b.records.sessions) limits.sessions ≡ false → r.line.up ≡ answers (connect clean) ∷ rest
        → IsAwaiting largest ids ns (reads_answer limits choice now l.number (connect clean) r b)
        (after_answer limits choice now l.number (connect clean) r b) }
{}

/// A call of the broker that is made for others leaves a receiver in step, with the copies that entered its queue
/// behind those that entered before; and so does a tick that closes a line on which CONNECT didn't come in time, with
/// the same copies (3.1, 3.3.4, 4.1, 4.6).
pub fn calls_of_others_leave_a_receiver_in_step()
    ensures others { (largest : ℕ) (ids : List CopyId) (limits : Capacity) (choice : MemberChoice) (now : ℕ) (call : Call)
        → (birth : ℕ) (ns : List ℕ) (r : Receiver) (b : Broker)
        → IsInStep largest ids birth ns r b → IsTidy limits b → starts_with nat_eq r.client auto ≡ false
        → IsCallOfOthers r.client ns call (at_moment now b)
        → StepsOn largest ids birth ns b.records.publications
        (receiver_called limits choice now call r b) (stepped limits choice now call b) }
    ensures closes { (largest : ℕ) (ids : List CopyId) (limits : Capacity) (choice : MemberChoice) (now birth : ℕ)
        → (ns : List ℕ) (n : ℕ) (r : Receiver) (b : Broker)
        → IsInStep largest ids birth ns r b → IsOverdue n (at_moment now b)
        → IsInStep largest ids birth ns (receiver_called limits choice now Tick r b)
        (stepped limits choice now Tick b) }
{}

/// If a receiver is in step and its line is connected at the broker, it listens: the session of its birth is the
/// one that is connected there, alone, with all that the laws of answers, of sending and of a lost line ask; and so on
/// the line that it gave up. Lines and sessions are in order, as they are after each step of the broker (3.1.4, 4.1).
pub fn a_connected_receiver_listens()
    ensures listens { (largest : ℕ) (ids : List CopyId) (birth : ℕ) (ns : List ℕ) (n other : ℕ) (r : Receiver) (l : Line)
        → (b : Broker) → IsInStep largest ids birth ns r b → HasUniqueLines b → IsOrdered b.records
        → r.line.number ≡ Some n → line_at n b ≡ Some l → l.session ≡ Some other
        → is_one_of r.line.old_number (n ∷ []) ≡ false → Listens r l birth b }
    ensures lingers { (largest : ℕ) (ids : List CopyId) (birth : ℕ) (ns : List ℕ) (n other : ℕ) (r : Receiver) (l : Line)
        → (b : Broker) → IsInStep largest ids birth ns r b → HasUniqueLines b → IsOrdered b.records
        → r.line.old_number ≡ Some n → line_at n b ≡ Some l → l.session ≡ Some other
        → is_one_of r.line.number (n ∷ []) ≡ false → Listens (turned_back r) l birth b }
{}

/// The broker reads a receiver's SUBSCRIBE on the line that its session is connected on: the two stay in step, with
/// the copies of retained messages that its filter brings behind those that entered before, or with none if the
/// filter is refused or brings none (3.3.1.3, 3.8.4).
pub fn a_subscribe_leaves_a_receiver_in_step()
    ensures subscribes { (largest : ℕ) (ids : List CopyId) (limits : Capacity) (choice : MemberChoice) (now birth : ℕ)
        → (ns : List ℕ) (w : Wish) (rest : List Back) (r : Receiver) (l : Line) (s : Session) (b : Broker)
        → IsInStep largest ids birth ns r b → IsListening r l s b → IsTidy limits b → r.line.up ≡ asks_for w ∷ rest
        → Subscribed largest ids birth ns (suc b.records.subscribes)
        (receiver_after limits choice now (Input l.number (wire_back r.client r.window r.aliases (asks_for w))) r b)
        (stepped limits choice now (Input l.number (wire_back r.client r.window r.aliases (asks_for w))) b) }
{}
