//! The laws of copies and of what is left, whoever calls the broker (3.3.2, 3.3.3, 3.3.4, 4.1, 4.3, 4.9).
ghost use Rattle.std.specs.Prelude.{◌≡◌, ℕ, List, false};
ghost use Rattle.std.specs.List.{AllByRecursion};
ghost use Rattle.mqtt_base.specs.declared.session.CopyId.{CopyId};
ghost use Rattle.mqtt_records.specs.declared.state.records.Records.{Records};
ghost use Rattle.mqtt_rules.specs.declared.step.Capacity.{Capacity};
ghost use Rattle.mqtt_rules.specs.step.Laws.{AreWithin, Event, after_events, blank};
ghost use Rattle.mqtt_rules.specs.step.State.{Broker, MemberChoice, stored};
ghost use Rattle.mqtt_rules.specs.step.Step.{Call, is_opening_spent, opened};
ghost use Rattle.mqtt_world_laws.specs.of_calls.Again.{RepeatsByPhase, SendsAgain, WaitsNoMore};
ghost use Rattle.mqtt_world_laws.specs.of_calls.Calls.{
  BeginsInOrder,
  IsLeftByCalls,
  IsMomentAlone,
  SpendNone,
  course_of,
};
ghost use Rattle.mqtt_world_laws.specs.of_calls.Delivery.{KeepsAll};

/// Whatever anybody sends, however lines come and go, and however often the broker is stopped and opened on what it stored: each
/// publication that was accepted entered exactly the queues of its subscribers, each once. Each copy stands in its session's
/// queue or has ended once, for its cause. No session has over 20 identifiers open. What stands of a copy has its publication's
/// topic and payload, and each PUBLISH of QoS 1 or 2 that goes out on a line is of a copy in the queue of the session on that
/// line. Of clients nothing is asked, and of calls only that they spend no number, under limits within those of the tables
/// (3.3.2, 3.3.3, 3.3.4, 4.3, 4.4, 4.8, 4.9).
pub fn copies_enter_and_end_once_whoever_calls()
    ensures from_nothing { (events : List Event) → SpendNone events blank → KeepsAll (course_of events blank) }

    // And from any broker whose tables and lines are in order, such as these calls leave.
    ensures keeps { (events : List Event) (b : Broker) → BeginsInOrder b → SpendNone events b
        → KeepsAll (course_of events b) }
{}

/// Whatever was called, the broker's tables and lines are in order, and its copies told apart; and what it has stored may be
/// opened, whichever step was the last before it was stopped. So it is over any number of starts (4.1).
pub fn what_calls_leave_may_be_opened()
    ensures begins { BeginsInOrder blank }
    ensures goes_on { (events : List Event) (b : Broker) → BeginsInOrder b → SpendNone events b
        → BeginsInOrder (after_events events b) }
    ensures opens { (limits : Capacity) (choice : MemberChoice) (now : ℕ) (r : Records) → IsLeftByCalls r → AreWithin limits
        → is_opening_spent limits choice now r ≡ false → BeginsInOrder (opened limits choice now r) }
    ensures leaves { (limits : Capacity) (choice : MemberChoice) (now : ℕ) (r : Records) (events : List Event) → IsLeftByCalls r
        → AreWithin limits → is_opening_spent limits choice now r ≡ false → SpendNone events (opened limits choice now r)
        → IsLeftByCalls (stored (after_events events (opened limits choice now r))) }

    // A moment may come alone.
    ensures waits { (limits : Capacity) (choice : MemberChoice) (now : ℕ) (b : Broker) → BeginsInOrder b
        → (call : Call) × IsMomentAlone limits choice now call b }
{}

/// Whatever was called: each PUBLISH of QoS 1 or 2 that goes out on a line is that of a copy in the queue of the session on that
/// line. It has DUP 0 if the copy waits, which is marked then as in flight under the identifier of that PUBLISH. If the copy is in
/// flight, and is not among those that went out on that line, it has DUP 1 and the identifier that the copy is in flight under. In
/// both cases it is noted that the copy went out on that line, so again it goes out on another, by which its session is resumed.
/// None goes out of a copy whose PUBREC was taken (3.3.1.1, 4.3, 4.4).
pub fn each_publish_has_its_dup()
    ensures repeats { (events : List Event) (b : Broker) → BeginsInOrder b → SpendNone events b
        → AllByRecursion RepeatsByPhase (course_of events b).steps }
    ensures from_nothing { (events : List Event) → SpendNone events blank
        → AllByRecursion RepeatsByPhase (course_of events blank).steps }

    // A copy that waits no more, as it does once it went out, never goes out with DUP 0 again, whatever is called.
    ensures again { (events : List Event) (b : Broker) → BeginsInOrder b → SpendNone events b → (copy : CopyId)
        → WaitsNoMore copy b.records → AllByRecursion (SendsAgain copy) (course_of events b).steps }
{}
