//! Laws of a receiver's hop: calls of others before its session begins, and what is read on the line that it gave up (3.1.2.4,
//! 3.1.4, 3.8.4).
ghost use Rattle.std.specs.Prelude.{◌≡◌, ◌∷◌, ℕ, Bool, List, [], None, Some, false, length, nat_eq, nat_lt, suc, true};
ghost use Rattle.std.specs.List.{starts_with};
ghost use Rattle.mqtt_base.specs.declared.session.CopyId.{CopyId};
ghost use Rattle.mqtt_flow.specs.outbound.Receiver.{connect};
ghost use Rattle.mqtt_world_laws.specs.receiver.Calls.{IsBeginning, IsLate, IsLingering, IsRenewing, reads_old_answer, receiver_called};
ghost use Rattle.mqtt_world_laws.specs.receiver.Handing.{after_answer, receiver_lost};
ghost use Rattle.mqtt_world_laws.specs.receiver.Late.{left_alone, reads_old_wish};
ghost use Rattle.mqtt_world_laws.specs.receiver.Own.{IsAwaiting, IsInStep, Subscribed};
ghost use Rattle.mqtt_world_laws.specs.receiver.Served.{IsCallOfOthers, IsOverdue, IsTidy};
ghost use Rattle.mqtt_world_model.specs.model.Ends.{Back, Receiver, Wish, answers, asks_for, wire_back};
ghost use Rattle.mqtt_world_model.specs.model.Hops.{lines_left};
ghost use Rattle.mqtt_world_model.specs.model.Lines.{is_one_of};
ghost use Rattle.mqtt_world_model.specs.model.Seats.{IsElsewhere, IsIdle};
ghost use Rattle.mqtt_world_model.specs.model.Seen.{is_linked};
ghost use Rattle.mqtt_records.specs.state.Session.{auto};
ghost use Rattle.mqtt_records.specs.declared.state.session.Session.{Session};
ghost use Rattle.mqtt_rules.specs.step.State.{Broker, Line, MemberChoice, line_at, line_of, session_named};
ghost use Rattle.mqtt_rules.specs.step.Step.{Call, Input, Lost, Pump, Tick, at_moment, stepped};
ghost use Rattle.mqtt_rules.specs.declared.step.Capacity.{Capacity};

/// A call of the broker that is made for others, while no session of a receiver's name stands, leaves the receiver awaiting
/// its session, with the same copies and lines, and no session of its name; and so does a tick that closes a line on which
/// its CONNECT didn't come in time (3.1, 3.1.4, 4.1).
pub fn calls_of_others_leave_a_receiver_awaiting()
    ensures others { (largest : ℕ) (ids : List CopyId) (limits : Capacity) (choice : MemberChoice) (now : ℕ) (call : Call)
        → (ns : List ℕ) (r : Receiver) (b : Broker)
        → IsAwaiting largest ids ns r b → session_named r.client b.records ≡ None
        → starts_with nat_eq r.client auto ≡ false → IsCallOfOthers r.client ns call (at_moment now b)
        → IsAwaiting largest ids ns (receiver_called limits choice now call r b) (stepped limits choice now call b)
        × (session_named r.client (stepped limits choice now call b).records ≡ None) }
    ensures closes { (largest : ℕ) (ids : List CopyId) (limits : Capacity) (choice : MemberChoice) (now : ℕ) (ns : List ℕ)
        → (n : ℕ) (r : Receiver) (b : Broker)
        → IsAwaiting largest ids ns r b → session_named r.client b.records ≡ None → IsOverdue n (at_moment now b)
        → IsAwaiting largest ids ns (receiver_called limits choice now Tick r b) (stepped limits choice now Tick b)
        × (session_named r.client (stepped limits choice now Tick b).records ≡ None) }
{}

/// The broker reads a receiver's CONNECT on the line that it gave up: the two stay in step if its session is resumed
/// there, and are in step with the session that begins there, be it the first of its name or instead of the one before; its
/// birth is the next one, and the copies and lines are the same. If there is no place for a session, that line closes, and
/// the receiver awaits one as before (3.1.2.4, 3.1.4, 3.2.2.2).
pub fn a_connect_on_the_line_given_up_puts_a_receiver_in_step()
    ensures resumes { (largest : ℕ) (ids : List CopyId) (birth : ℕ) (ns : List ℕ) (limits : Capacity)
        → (choice : MemberChoice) (now : ℕ) (rest : List Back) (r : Receiver) (l : Line) (s : Session) (b : Broker)
        → IsInStep largest ids birth ns r b → IsLate r l s b → r.line.old ≡ answers (connect false) ∷ rest
        → IsInStep largest ids birth ns (reads_old_answer limits choice now l.number (connect false) r b)
        (after_answer limits choice now l.number (connect false) r b) }
    ensures begins { (largest : ℕ) (ids : List CopyId) (ns : List ℕ) (limits : Capacity) (choice : MemberChoice) (now : ℕ)
        → (clean : Bool) (rest : List Back) (r : Receiver) (l : Line) (b : Broker)
        → IsAwaiting largest ids ns r b → IsBeginning limits (left_alone r) l b
        → is_one_of r.line.number (l.number ∷ []) ≡ false
        → nat_lt (length b.records.sessions) limits.sessions ≡ true → r.line.old ≡ answers (connect clean) ∷ rest
        → IsInStep largest ids (suc b.records.births) ns
        (reads_old_answer limits choice now l.number (connect clean) r b)
        (after_answer limits choice now l.number (connect clean) r b) }
    ensures renews { (largest : ℕ) (ids : List CopyId) (birth : ℕ) (ns : List ℕ) (limits : Capacity)
        → (choice : MemberChoice) (now : ℕ) (rest : List Back) (r : Receiver) (l : Line) (s : Session) (b : Broker)
        → IsInStep largest ids birth ns r b → IsRenewing limits (left_alone r) l s b
        → is_one_of r.line.number (l.number ∷ []) ≡ false
        → is_linked r.line.number b ≡ is_one_of r.line.number (lines_left (line_of s.birth b))
        → r.line.old ≡ answers (connect true) ∷ rest
        → IsInStep largest ids (suc b.records.births) ns
        (reads_old_answer limits choice now l.number (connect true) r b)
        (after_answer limits choice now l.number (connect true) r b) }
    ensures refuses { (largest : ℕ) (ids : List CopyId) (ns : List ℕ) (limits : Capacity) (choice : MemberChoice) (now : ℕ)
        → (clean : Bool) (rest : List Back) (r : Receiver) (l : Line) (b : Broker)
        → IsAwaiting largest ids ns r b → IsBeginning limits (left_alone r) l b
        → is_one_of r.line.number (l.number ∷ []) ≡ false
        → nat_lt (length b.records.sessions) limits.sessions ≡ false → r.line.old ≡ answers (connect clean) ∷ rest
        → IsAwaiting largest ids ns (reads_old_answer limits choice now l.number (connect clean) r b)
        (after_answer limits choice now l.number (connect clean) r b) }
{}

/// The broker reads a receiver's SUBSCRIBE on the line that it gave up, if its session is connected still: the two stay in
/// step, with the copies of retained messages that its filter brings behind those that entered before, or with none; its
/// SUBACK goes nowhere (3.3.1.3, 3.8.4).
pub fn a_subscribe_on_the_line_given_up_leaves_a_receiver_in_step()
    ensures subscribes { (largest : ℕ) (ids : List CopyId) (limits : Capacity) (choice : MemberChoice) (now birth : ℕ)
        → (ns : List ℕ) (w : Wish) (rest : List Back) (r : Receiver) (l : Line) (s : Session) (b : Broker)
        → IsInStep largest ids birth ns r b → IsLingering r l s b → IsTidy limits b → r.line.old ≡ asks_for w ∷ rest
        → Subscribed largest ids birth ns (suc b.records.subscribes)
        (reads_old_wish limits choice now l.number w r b)
        (stepped limits choice now (Input l.number (wire_back r.client r.window r.aliases (asks_for w))) b) }
{}

/// The broker is to send on a receiver's line, or loses that line, while nobody is connected there: its CONNECT is not read yet,
/// or the broker has closed the line. Nothing is sent; the receiver leaves a line that is lost; and the two stay in step, or
/// the receiver awaits its session as before (3.1, 4.4).
pub fn a_line_without_session_leaves_a_receiver_as_it_is()
    ensures sends { (largest : ℕ) (ids : List CopyId) (birth : ℕ) (ns : List ℕ) (limits : Capacity) (choice : MemberChoice)
        → (now n : ℕ) (r : Receiver) (b : Broker)
        → IsInStep largest ids birth ns r b → IsIdle n b
        → IsInStep largest ids birth ns (receiver_called limits choice now (Pump n) r b)
        (stepped limits choice now (Pump n) b) }
    ensures loses { (largest : ℕ) (ids : List CopyId) (birth : ℕ) (ns : List ℕ) (limits : Capacity) (choice : MemberChoice)
        → (now n : ℕ) (r : Receiver) (b : Broker)
        → IsInStep largest ids birth ns r b → IsIdle n b
        → IsInStep largest ids birth ns (receiver_lost limits choice now n r b)
        (stepped limits choice now (Lost n) b) }
    ensures sends_awaiting { (largest : ℕ) (ids : List CopyId) (ns : List ℕ) (limits : Capacity) (choice : MemberChoice)
        → (now n : ℕ) (r : Receiver) (b : Broker)
        → IsAwaiting largest ids ns r b → IsIdle n b
        → IsAwaiting largest ids ns (receiver_called limits choice now (Pump n) r b)
        (stepped limits choice now (Pump n) b) }
    ensures loses_awaiting { (largest : ℕ) (ids : List CopyId) (ns : List ℕ) (limits : Capacity) (choice : MemberChoice)
        → (now n : ℕ) (r : Receiver) (b : Broker)
        → IsAwaiting largest ids ns r b → IsIdle n b
        → IsAwaiting largest ids ns (receiver_lost limits choice now n r b)
        (stepped limits choice now (Lost n) b) }
{}

/// A line on which nobody is connected stays as it is at each call on other lines, whatever that does, and at a pump of any
/// line: if a line of its number stands after it, it is the same one. So nothing has gone out on a line that waits for
/// CONNECT (3.1, 4.4).
pub fn a_line_without_session_stays_as_it_is()
    ensures stays { (limits : Capacity) (choice : MemberChoice) (now n : ℕ) (call : Call) (l : Line) (b : Broker)
        → IsIdle n b → IsElsewhere n call → line_at n (stepped limits choice now call b) ≡ Some l
        → line_at n b ≡ Some l }
{}
