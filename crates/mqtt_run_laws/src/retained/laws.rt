//! The law of retained messages: what is retained is what was published last, and a subscription brings it (MQTT 5.0, 3.3.1.3,
//! 3.3.2.3.3, 3.8.3.1).
ghost use Rattle.std.specs.Prelude.{List};
ghost use Rattle.mqtt_rules.specs.step.Laws.{Event, blank};
ghost use Rattle.mqtt_rules.specs.step.State.{Broker};
ghost use Rattle.mqtt_world_laws.specs.of_calls.Calls.{BeginsInOrder, SpendNone, course_of};
ghost use Rattle.mqtt_run_laws.specs.retained.Retained.{RetainsTheLast};

/// Whatever anybody sends, and however often the broker is stopped and opened on what it stored: for each topic there is retained at
/// most one message. It is the last publication with RETAIN 1 to the topic that was accepted, from a client or from a Will; if that was
/// empty, or has expired, there may be none. Where no such publication was accepted, what was retained at the beginning stays, until it
/// expires. And each subscription that is granted brings of each topic exactly what is retained by then, in one copy, if the filter
/// matches the topic and is no shared one, its Retain Handling asks for it, No Local does not bar it, and it has not expired; otherwise
/// nothing. Of QoS 1 and 2 these copies enter the session's queue, each once, and beside them those of publications alone. Of clients nothing is asked, and of calls only that they spend no number, under limits within those of the tables (3.3.1.3,
/// 3.3.2.3.3, 3.8.3.1, 4.7, 4.8.2).
pub fn what_is_retained_was_published_last()
    ensures from_nothing { (events : List Event) → SpendNone events blank → RetainsTheLast (course_of events blank) }

    // And from any broker whose tables and lines are in order, such as these calls leave.
    ensures goes_on { (events : List Event) (b : Broker) → BeginsInOrder b → SpendNone events b
        → RetainsTheLast (course_of events b) }
{}
