//! Laws of a receiver's hop: the broker restarts, or stops and restarts (4.1, 4.4).
ghost use Rattle.std.specs.Prelude.{◌≡◌, [], ℕ, List, None, false, nat_eq};
ghost use Rattle.std.specs.List.{starts_with};
ghost use Rattle.mqtt_base.specs.declared.session.CopyId.{CopyId};
ghost use Rattle.mqtt_flow.specs.outbound.OutboundWorld.{Lot};
ghost use Rattle.mqtt_world_laws.specs.receiver.Handing.{IsRun, RunsOn};
ghost use Rattle.mqtt_world_laws.specs.receiver.Own.{IsInStep};
ghost use Rattle.mqtt_world_laws.specs.receiver.Restarts.{AreAlike, reopened, stopped_after};
ghost use Rattle.mqtt_world_laws.specs.receiver.Seen.{Numbering};
ghost use Rattle.mqtt_world_laws.specs.receiver.Served.{GoesOn, HasLines, IsCallOfOthers, IsServed, IsTidy, RunsFor};
ghost use Rattle.mqtt_world_model.specs.model.Ends.{Receiver};
ghost use Rattle.mqtt_world_model.specs.model.World.{Asking, Setting, World, happens, receiver_restarted, restart, stop_after, stop_before};
ghost use Rattle.mqtt_records.specs.state.Session.{auto};
ghost use Rattle.mqtt_rules.specs.step.State.{Broker, MemberChoice, session_named};
ghost use Rattle.mqtt_rules.specs.step.Step.{Call, at_moment, stepped};
ghost use Rattle.mqtt_rules.specs.declared.step.Capacity.{Capacity};

/// The broker restarts: it opens with what is stored, and no line is left. Whatever Wills are due then, copies enter
/// and sessions end, what a receiver and its session see of it stays a run of their hop, with the copies that entered
/// its queue behind those that entered before; its session is its own as before, and it has no line (4.1, 4.4).
pub fn a_restart_is_a_step_of_the_receivers_hop()
    ensures restarts { (largest : ℕ) (ids : List CopyId) (limits : Capacity) (choice : MemberChoice) (now birth : ℕ)
        → (ns : List ℕ) (r : Receiver) (b : Broker)
        → RunsFor largest ids birth r b → IsServed r.client birth ns b → IsTidy limits b
        → starts_with nat_eq r.client auto ≡ false
        → GoesOn largest ids birth [] b.records.publications (receiver_restarted r) (reopened limits choice now b) }
    ensures lines { (r : Receiver) → HasLines [] (receiver_restarted r) }

    // While no session of its name stands, none does after it.
    ensures without { (number : Numbering) (largest : ℕ) (copies : List Lot) (limits : Capacity) (choice : MemberChoice)
        → (now : ℕ) (r : Receiver) (b : Broker)
        → IsRun number largest copies r b → session_named r.client b.records ≡ None
        → RunsOn number largest copies (receiver_restarted r) (reopened limits choice now b)
        × (session_named r.client (reopened limits choice now b).records ≡ None) }
{}

/// A broker whose tables are in order, under limits within the tables' own, is so after each call and each restart, also
/// if queues stand that are longer than it allows (4.1).
pub fn a_tidy_broker_stays_tidy()
    ensures steps { (limits : Capacity) (choice : MemberChoice) (now : ℕ) (call : Call) (b : Broker) → IsTidy limits b
        → IsTidy limits (stepped limits choice now call b) }
    ensures opens { (limits : Capacity) (choice : MemberChoice) (now : ℕ) (b : Broker) → IsTidy limits b
        → IsTidy limits (reopened limits choice now b) }
{}

/// The broker stops before the commit of what it was asked for, whatever that was, and restarts: the broker and all
/// receivers are as after a restart alone, since nothing was stored, and what was to be read is lost with its line
/// (4.1, 4.4).
pub fn a_stop_before_the_commit_is_a_restart()
    ensures alike { (set : Setting) (a : Asking) (w : World)
        → AreAlike (happens set (stop_before a) w) (happens set restart w) }
{}

/// The broker stops after the commit, and restarts before anything goes out: of what was asked for nothing reaches a
/// receiver. If it was a call made for others, what a receiver and its session see of both is a run of their hop,
/// with the copies that entered by either behind those that entered before (4.1, 4.4).
pub fn a_stop_after_the_commit_is_a_step_of_the_receivers_hop()
    ensures receivers { (set : Setting) (a : Asking) (w : World)
        → (happens set (stop_after a) w).receivers ≡ (happens set restart w).receivers }
    ensures others { (largest : ℕ) (ids : List CopyId) (limits : Capacity) (choice : MemberChoice) (now : ℕ) (call : Call)
        → (birth : ℕ) (ns : List ℕ) (r : Receiver) (b : Broker)
        → RunsFor largest ids birth r b → IsServed r.client birth ns b → HasLines ns r → IsTidy limits b
        → starts_with nat_eq r.client auto ≡ false → IsCallOfOthers r.client ns call (at_moment now b)
        → GoesOn largest ids birth [] b.records.publications
        (receiver_restarted r) (stopped_after limits choice now call b) }

    // If it was a call that leaves the two in step with the same copies.
    ensures own { (largest : ℕ) (ids : List CopyId) (limits : Capacity) (choice : MemberChoice) (now : ℕ) (call : Call)
        → (birth : ℕ) (ns : List ℕ) (r : Receiver) (b : Broker)
        → IsInStep largest ids birth ns r (stepped limits choice now call b) → IsTidy limits b
        → starts_with nat_eq r.client auto ≡ false
        → GoesOn largest ids birth [] b.records.publications
        (receiver_restarted r) (stopped_after limits choice now call b) }
{}
