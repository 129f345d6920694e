//! Laws of a receiver's hop: calls of the broker that are made for others (3.3.4, 4.1).
ghost use Rattle.std.specs.Prelude.{◌≡◌, ℕ, List, false, nat_eq};
ghost use Rattle.std.specs.List.{starts_with};
ghost use Rattle.mqtt_base.specs.declared.session.CopyId.{CopyId};
ghost use Rattle.mqtt_world_laws.specs.receiver.Calls.{receiver_called};
ghost use Rattle.mqtt_world_laws.specs.receiver.Served.{GoesOn, HasLines, IsCallOfOthers, IsOverdue, IsServed, IsTidy, RunsFor};
ghost use Rattle.mqtt_world_model.specs.model.Ends.{Receiver};
ghost use Rattle.mqtt_records.specs.state.Session.{auto};
ghost use Rattle.mqtt_rules.specs.step.State.{Broker, MemberChoice};
ghost use Rattle.mqtt_rules.specs.step.Step.{Call, Tick, at_moment, stepped};
ghost use Rattle.mqtt_rules.specs.declared.step.Capacity.{Capacity};

/// A call of the broker that is made for others: a packet, a fault or a loss on another line, sending there, a new line
/// or a tick, whatever it does. Publications are accepted, Wills are published, copies expire, sessions begin, end and
/// are taken over: what a receiver and its session see of it stays a run of their hop, with the copies that entered
/// its queue behind those that entered before, and the session may receive more (3.1.4, 3.3.4, 4.1, 4.6).
pub fn calls_of_others_are_steps_of_the_hop()
    ensures others { (largest : ℕ) (ids : List CopyId) (limits : Capacity) (choice : MemberChoice) (now : ℕ) (call : Call)
        → (birth : ℕ) (ns : List ℕ) (r : Receiver) (b : Broker)
        → RunsFor largest ids birth r b → IsServed r.client birth ns b → HasLines ns r → IsTidy limits b
        → starts_with nat_eq r.client auto ≡ false → IsCallOfOthers r.client ns call (at_moment now b)
        → GoesOn largest ids birth ns b.records.publications
        (receiver_called limits choice now call r b) (stepped limits choice now call b) }
{}

/// A tick closes a line on which CONNECT didn't come in time, be it the receiver's or the one that it gave up, if
/// its session stands: what is under way there isn't read, and what the two see of it stays a run of their hop, with
/// the same copies; its session and its lines are its own as before (3.1, 4.1).
pub fn a_late_connect_is_a_step_of_the_hop()
    ensures closes { (largest : ℕ) (ids : List CopyId) (limits : Capacity) (choice : MemberChoice) (now birth : ℕ)
        → (ns : List ℕ) (n : ℕ) (r : Receiver) (b : Broker)
        → RunsFor largest ids birth r b → IsServed r.client birth ns b → IsOverdue n (at_moment now b)
        → RunsFor largest ids birth (receiver_called limits choice now Tick r b) (stepped limits choice now Tick b)
        × IsServed r.client birth ns (stepped limits choice now Tick b) }
{}
