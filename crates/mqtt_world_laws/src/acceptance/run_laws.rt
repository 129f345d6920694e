//! The laws of runs: each message is accepted once, each publication routed, each copy waits or has ended (3.3.4,
//! 4.3, 4.4, 4.9).
ghost use Rattle.std.specs.Prelude.{ℕ, List};
ghost use Rattle.mqtt_base.specs.declared.session.CopyId.{CopyId};
ghost use Rattle.mqtt_records.specs.declared.state.records.Records.{Records};
ghost use Rattle.mqtt_rules.specs.declared.step.Capacity.{Capacity};
ghost use Rattle.mqtt_rules.specs.step.State.{MemberChoice};
ghost use Rattle.mqtt_rules.specs.step.Laws.{AreWithin, FewOpen};
ghost use Rattle.mqtt_rules.specs.step.Step.{Call};
ghost use Rattle.mqtt_world_model.specs.model.World.{Asking, Setting, World, start};
ghost use Rattle.mqtt_world_model.specs.model.Run.{Turn, run};
ghost use Rattle.mqtt_world_laws.specs.acceptance.AtOnce.{AllGoOut, Arrives, IsKeptBack};
ghost use Rattle.mqtt_world_laws.specs.acceptance.Copies.{AreCountedOn, AreRouted, IsBalanced};
ghost use Rattle.mqtt_world_laws.specs.acceptance.Entries.{IsEntered};
ghost use Rattle.mqtt_world_laws.specs.acceptance.Fair.{IsCounted, IsFair, IsNew, MayOpen, opened_world};
ghost use Rattle.mqtt_world_laws.specs.acceptance.Identities.{EndsOnce, EntersOnce, TellsApart, WaitsOrHasEnded};
ghost use Rattle.mqtt_world_laws.specs.acceptance.Once.{HasCarried, IsAcceptedOnce};

/// Whatever happens, with any number of publishers, receivers and strangers, lines lost and given up, restarts,
/// and stops before or after a commit: a QoS 2 message of a publisher is accepted at most once, exactly once
/// if its handshake is completed, never if it was refused or has not gone out; one of QoS 1 that was
/// acknowledged at least once; what was accepted carries the message's topic, payload and RETAIN with the
/// publisher's name; and no session has over 20 identifiers open (3.3, 4.3.2, 4.3.3, 4.9).
pub fn every_run_accepts_once()
    ensures once { (limits : Capacity) (ts : List Turn) (w : World) → IsNew w → IsFair limits ts w
        → (client : List ℕ) (n : ℕ) → IsAcceptedOnce client n limits ts w }
    ensures carried { (limits : Capacity) (ts : List Turn) (w : World) → IsNew w → IsFair limits ts w
        → (client : List ℕ) → HasCarried client limits ts w }
    ensures within { (limits : Capacity) (ts : List Turn) (w : World) → IsNew w → IsFair limits ts w
        → FewOpen (run limits ts w).broker.records }
{}

/// Whatever happens, with any number of publishers, receivers and strangers: each copy that entered a session's
/// queue waits there or has ended, as often as it entered; none is lost by a restart or a stop, and none ends
/// more often than it entered (4.3, 4.4, 4.6).
pub fn every_copy_waits_or_has_ended()
    ensures balance { (limits : Capacity) (ts : List Turn) (w : World) → IsNew w → IsCounted limits ts w
        → (c : CopyId) → IsBalanced c limits ts w }
{}

/// Each copy, told apart by its publication, its session and its cause, enters a queue at most once, in every
/// run from a store that tells copies apart; and one that entered waits in its session's queue or has exactly
/// one end with its cause, never both. One that stood there at the beginning never ends twice either (3.3.1.3,
/// 3.3.4, 4.3, 4.4, 4.6).
pub fn each_copy_enters_and_ends_once()
    ensures enters { (limits : Capacity) (ts : List Turn) (w : World) → IsNew w → IsCounted limits ts w
        → TellsApart w.broker.records → (c : CopyId) → EntersOnce c limits ts w }
    ensures ends { (limits : Capacity) (ts : List Turn) (w : World) → IsNew w → IsCounted limits ts w
        → TellsApart w.broker.records → (c : CopyId) → EndsOnce c limits ts w }
    ensures either { (limits : Capacity) (ts : List Turn) (w : World) → IsNew w → IsCounted limits ts w
        → TellsApart w.broker.records → (c : CopyId) → WaitsOrHasEnded c limits ts w }
{}

/// Each publication that is accepted, of a client or a Will, was routed to the sessions and subscriptions that
/// stood as it was accepted, with the members that the broker chose, in every run whatever; and in a run that
/// spends no number publications are numbered one after the other, so that no two have one number (3.3.4, 4.8).
pub fn every_publication_is_routed()
    ensures routed { (limits : Capacity) (ts : List Turn) (w : World) → AreRouted limits ts w }
    ensures numbered { (limits : Capacity) (ts : List Turn) (w : World) → IsNew w → IsCounted limits ts w
        → AreCountedOn limits ts w }
{}

/// Exactly the intended copies of QoS 1 and 2 enter queues, each once and in order, and no other: for each
/// publication that is accepted those of its routing on the state on which it was accepted, and for each
/// filter that is granted those of the retained messages it brings (3.3.1.3, 3.3.4, 3.8.4, 4.8).
pub fn exactly_the_intended_copies_enter()
    ensures entries { (limits : Capacity) (ts : List Turn) (w : World) → IsNew w → IsCounted limits ts w
        → IsEntered limits ts w }
{}

/// A copy of QoS 0 waits in no queue: in the step that accepts its publication its PUBLISH goes out on the line of
/// its session, or its session has no line, or the PUBLISH is larger than that client takes. What a step puts out
/// for a receiver's line is under way to it right after, behind what was; a stop after the commit keeps it back
/// (3.1.2.11.4, 3.3.4, 4.3.1).
pub fn copies_of_qos_0_go_out_at_once()
    ensures outputs { (limits : Capacity) (ts : List Turn) (w : World) → IsNew w → IsCounted limits ts w
        → AllGoOut limits ts w }
    ensures arrive { (set : Setting) (call : Call) (w : World) (client : List ℕ) → Arrives set call w client }
    ensures kept_back { (set : Setting) (a : Asking) (w : World) (client : List ℕ) → IsKeptBack set a w client }
{}

/// So a world may begin: with nothing stored, or opened on tables in order, such as `mqtt_rules` proves lawful
/// records to be, also if more sessions stand than the limit (4.1); copies are told apart then, if they were
/// in what was stored.
pub fn a_world_may_begin()
    ensures empty { IsNew start }
    ensures stored { (limits : Capacity) (choice : MemberChoice) (now : ℕ) (r : Records)
        → AreWithin limits → MayOpen limits choice now r → IsNew (opened_world limits choice now r) }
    ensures apart { TellsApart start.broker.records }
    ensures stored_apart { (limits : Capacity) (choice : MemberChoice) (now : ℕ) (r : Records)
        → AreWithin limits → MayOpen limits choice now r → TellsApart r
        → TellsApart (opened_world limits choice now r).broker.records }
{}
