//! The laws of Wills, whoever calls the broker (3.1.2.5, 3.1.3.2.2, 3.14.4).
ghost use Rattle.std.specs.Prelude.{Bool, List};
ghost use Rattle.std.specs.List.{AllByRecursion};
ghost use Rattle.mqtt_records.specs.declared.state.session.Session.{Session};
ghost use Rattle.mqtt_rules.specs.step.Laws.{Event, blank};
ghost use Rattle.mqtt_rules.specs.step.State.{Broker, Env};
ghost use Rattle.mqtt_world_laws.specs.of_calls.Calls.{BeginsInOrder, SpendNone, asked_in_all};
ghost use Rattle.mqtt_run_laws.specs.wills.Due.{EachHasItsGround, LeavesNoDueWill, LeavesNoneAtClose};
ghost use Rattle.mqtt_run_laws.specs.wills.Fates.{EachWillStandsOrEnded};

/// Whatever anybody sends, however lines come and go, and however often the broker is stopped and opened on what it stored: each
/// Will that a CONNECT stored stands in its session, or has had exactly one end. It was published; or refused, as a PUBLISH may be;
/// or cancelled, as its session was resumed; or dropped, as its client sent DISCONNECT with 0x00. So none is published twice,
/// none is published that was cancelled or dropped, and none is lost: a session ends only once its Will has. Of clients nothing is
/// asked, and of calls only that they spend no number, under limits within those of the tables (3.1.2.5, 3.1.3.2.2, 3.14.4).
pub fn each_will_stands_or_ended_once()
    ensures from_nothing { (events : List Event) → SpendNone events blank → EachWillStandsOrEnded events blank }

    // And from any broker whose tables and lines are in order, such as these calls leave: what stands there counts as stored.
    ensures keeps { (events : List Event) (b : Broker) → BeginsInOrder b → SpendNone events b → EachWillStandsOrEnded events b }
{}

/// A Will is published at its delay or when its session ends, whichever is first. What is published as one is the Will of a session
/// that stands, under its client's name. Since the session's line closed Will Delay Interval has passed, or Session Expiry
/// Interval; or the session ends in that step by Clean Start. And a session that begins or is resumed has the Will that its
/// CONNECT asks for, or none (3.1.2.4, 3.1.2.5, 3.1.3.2.2).
pub fn wills_are_published_when_due()
    ensures not_earlier { (events : List Event) (b : Broker) → BeginsInOrder b → SpendNone events b
        → AllByRecursion EachHasItsGround (asked_in_all events b) }

    // Nor later: as a session closes with its line, what is due of it is done.
    ensures at_once { (env : Env) (keeps_will : Bool) (s : Session) (b : Broker) → LeavesNoneAtClose env keeps_will s b }

    // And where a turn of the clock finds nothing to do, no Will is due.
    ensures not_later { (env : Env) (b : Broker) → LeavesNoDueWill env b }
{}
