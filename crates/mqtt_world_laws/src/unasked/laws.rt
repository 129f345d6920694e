//! The laws of what goes out: each PUBLISH was asked for (MQTT 5.0, 3.3.1.3, 3.3.4, 3.8.3.1, 3.8.4, 4.8.2).
ghost use Rattle.std.specs.Prelude.{ℕ, List, []};
ghost use Rattle.mqtt_records.specs.declared.state.records.Records.{Records};
ghost use Rattle.mqtt_rules.specs.declared.step.Capacity.{Capacity};
ghost use Rattle.mqtt_rules.specs.step.Laws.{IsOrdered};
ghost use Rattle.mqtt_rules.specs.step.State.{Broker, MemberChoice};
ghost use Rattle.mqtt_rules.specs.step.Step.{Call};
ghost use Rattle.mqtt_world_model.specs.model.Run.{Turn};
ghost use Rattle.mqtt_world_model.specs.model.World.{World, start};
ghost use Rattle.mqtt_world_laws.specs.acceptance.Fair.{IsCounted, IsNew};
ghost use Rattle.mqtt_world_laws.specs.receiver.Drains.{Doing, all_turns};
ghost use Rattle.mqtt_world_laws.specs.unasked.Once.{SendsEachOnce};
ghost use Rattle.mqtt_world_laws.specs.unasked.Runs.{NobodyIsSentUnasked, queued_at};
ghost use Rattle.mqtt_world_laws.specs.unasked.Unasked.{SendsNothingUnasked, call_step, open_step};

/// Whatever a broker is asked, by whomever, and whatever it opens on: each PUBLISH that goes out is a copy's, on the line on which the
/// copy's session is connected. The copy is in flight in that session's queue; or it has QoS 0 and was called for in this step. A copy
/// that enters a queue was called for in this step too, by that queue's session. Called for means: a publication was accepted, and the
/// session held a subscription that matches, that No Local doesn't bar, and that grants its QoS; or the session was granted such a
/// subscription, a message was retained, and Retain Handling asks for it. And a subscription is granted only as the SUBSCRIBE of its
/// client asks (3.3.1.3, 3.3.4, 3.8.3.1, 3.8.4, 4.8.2).
pub fn each_step_sends_what_was_asked_for()
    ensures call { (limits : Capacity) (choice : MemberChoice) (now : ℕ) (call : Call) (b : Broker) → IsOrdered b.records
        → SendsNothingUnasked (call_step limits choice now call b) }
    ensures opening { (limits : Capacity) (choice : MemberChoice) (now : ℕ) (r : Records) → IsOrdered r
        → SendsNothingUnasked (open_step limits choice now r) }
{}

/// Nobody is sent what he did not ask for, in every run that spends no number, whatever ends and strangers do. In each step it is as the
/// law above has it. And of a copy that is in flight as its PUBLISH goes out, the whole way is told: it entered that session's queue in
/// this step or in one before, and was called for by that session in the step in which it entered. Or it stood there at the beginning;
/// from nothing stored none did (3.3.1.3, 3.3.4, 3.8.3.1, 3.8.4, 4.3, 4.8.2).
pub fn nobody_is_sent_what_he_did_not_ask_for()
    ensures run { (limits : Capacity) (ts : List Turn) (w : World) → IsNew w → IsCounted limits ts w
        → NobodyIsSentUnasked (queued_at w.broker) limits ts w }
    ensures from_nothing { (limits : Capacity) (ts : List Turn) → IsCounted limits ts start
        → NobodyIsSentUnasked [] limits ts start }

    // So over every script of events and drains.
    ensures script { (limits : Capacity) (ds : List Doing) (w : World) → IsNew w → IsCounted limits (all_turns limits ds w) w
        → NobodyIsSentUnasked (queued_at w.broker) limits (all_turns limits ds w) w }
{}

/// Nothing goes out twice at once. In a step that is no turn of sending, each PUBLISH that goes out is that of a copy of QoS 0: of a
/// publication that is accepted in that step, or of a retained message that a granted filter brings. They go out in the order of those
/// copies, and no more of them than there are copies: so for a group one goes out at most. Which of them have to go out the law
/// `copies_of_qos_0_go_out_at_once` says (3.3.1.3, 3.3.4, 4.3.1, 4.8.2).
pub fn nothing_goes_out_twice_at_once()
    ensures call { (limits : Capacity) (choice : MemberChoice) (now : ℕ) (call : Call) (b : Broker) → IsOrdered b.records
        → SendsEachOnce (call_step limits choice now call b) }
    ensures opening { (limits : Capacity) (choice : MemberChoice) (now : ℕ) (r : Records) → IsOrdered r
        → SendsEachOnce (open_step limits choice now r) }
{}
