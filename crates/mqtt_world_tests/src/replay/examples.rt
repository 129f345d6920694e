//! The scripts of examples/ without their notes, and what stands beside them: an answer that is lost, a broker that is killed
//! between commit and answer, a CONNECT that comes late, a queue that is drained, a full queue that drops, topics that are
//! told by aliases (MQTT 5.0, 3.1.2.11.5, 3.1.4, 3.3.2.3.4, 4.1, 4.3.3, 4.4, 4.6).

use crate::replay::limits::is_so_in_queues_of_two;
use crate::replay::playing::is_so;
use mqtt_flow::Full;
use mqtt_replay::Played;
use std::hash::RandomState;
use std::test::Fail;

/// A PUBREC is lost with its line.
const LOST_PUBREC: &str =
    "receiver r1 10\npublisher p1\nconnect r1 0\ntobroker r1\ntoend r1\nsubscribe r1 2 0 0 0 0 a/b\n\
    tobroker r1\ntoend r1\nconnect p1 0\ntobroker p1\ntoend p1\npublish p1 2 0 a/b 6869\ntobroker p1\n\
    break p1\nconnect p1 0\ntobroker p1\ntoend p1\ntobroker p1\ntoend p1\ntobroker p1\ntoend p1\n\
    pump r1\ntoend r1\ntobroker r1\ntoend r1\ntobroker r1\n";

const LOST_PUBREC_TEXT: &str =
    "1 receiver\n2 publisher\n3 connect\n4 tobroker out=1\n5 toend\n6 subscribe\n7 tobroker out=1\n\
    8 toend\n9 connect\n10 tobroker out=1\n11 toend\n12 publish\n\
    13 tobroker accepted=1 entered=1>r1 out=1\n14 break\n15 connect\n16 tobroker out=1\n17 toend\n\
    18 tobroker out=1\n19 toend\n20 tobroker released=1 out=1\n21 toend\n22 pump out=1\n23 toend\n\
    24 tobroker out=1\n25 toend\n26 tobroker ended=1>r1:Taken\nr1 handed=1 queue=0\np1 sent=1 done=1\n\
    broker publications=1 sessions=2\n";

/// The broker is killed once it has stored a message, and once it has stored that its copy was sent.
const KILLED_BROKER: &str =
    "receiver r1 10\npublisher p1\nconnect r1 0\ntobroker r1\ntoend r1\nsubscribe r1 2 0 0 0 0 a/b\n\
    tobroker r1\ntoend r1\nconnect p1 0\ntobroker p1\ntoend p1\npublish p1 2 0 a/b 6869\n\
    stopafter tobroker p1\nconnect r1 0\ntobroker r1\ntoend r1\nconnect p1 0\ntobroker p1\ntoend p1\n\
    tobroker p1\ntoend p1\ntobroker p1\ntoend p1\nstopafter pump r1\nconnect r1 0\ntobroker r1\n\
    toend r1\npump r1\ntoend r1\ntobroker r1\ntoend r1\ntobroker r1\n";

const KILLED_BROKER_TEXT: &str =
    "1 receiver\n2 publisher\n3 connect\n4 tobroker out=1\n5 toend\n6 subscribe\n7 tobroker out=1\n\
    8 toend\n9 connect\n10 tobroker out=1\n11 toend\n12 publish\n13 stopafter\n14 connect\n\
    15 tobroker out=1\n16 toend\n17 connect\n18 tobroker out=1\n19 toend\n20 tobroker out=1\n21 toend\n\
    22 tobroker released=1 out=1\n23 toend\n24 stopafter\n25 connect\n26 tobroker out=1\n27 toend\n\
    28 pump out=1\n29 toend\n30 tobroker out=1\n31 toend\n32 tobroker ended=1>r1:Taken\n\
    r1 handed=1 queue=0\np1 sent=1 done=1\nbroker publications=1 sessions=2\n";

/// A CONNECT on a line that was given up takes the session over.
const LATE_CONNECT: &str =
    "receiver r1 10\npublisher p1\nconnect r1 0\ntobroker r1\ntoend r1\nsubscribe r1 2 0 0 0 0 a/b\n\
    tobroker r1\ntoend r1\nconnect p1 0\ngiveup p1\nconnect p1 0\ntobroker p1\ntoend p1\n\
    publish p1 2 0 a/b 6869\ntobroker p1\ntobroker p1 old\ntoend p1\ntobroker p1\ntoend p1\n\
    connect p1 0\ntobroker p1\ntoend p1\ntobroker p1\ntoend p1\npump r1\ntoend r1\ntobroker r1\n\
    toend r1\ntobroker r1\n";

const LATE_CONNECT_TEXT: &str =
    "1 receiver\n2 publisher\n3 connect\n4 tobroker out=1\n5 toend\n6 subscribe\n7 tobroker out=1\n\
    8 toend\n9 connect\n10 giveup\n11 connect\n12 tobroker out=1\n13 toend\n14 publish\n\
    15 tobroker accepted=1 entered=1>r1 out=1\n16 tobroker out=2\n17 toend\n18 tobroker\n19 toend\n\
    20 connect\n21 tobroker out=2\n22 toend\n23 tobroker released=1 out=1\n24 toend\n25 pump out=1\n\
    26 toend\n27 tobroker out=1\n28 toend\n29 tobroker ended=1>r1:Taken\nr1 handed=1 queue=0\n\
    p1 sent=1 done=1\nbroker publications=1 sessions=2\n";

/// Two copies wait for a receiver that takes one at a time, and it is drained.
const DRAINED_QUEUE: &str =
    "receiver r1 1\npublisher p1\nconnect r1 0\ntobroker r1\ntoend r1\nsubscribe r1 2 0 0 0 0 a/b\n\
    tobroker r1\ntoend r1\nbreak r1\nconnect p1 0\ntobroker p1\ntoend p1\npublish p1 2 0 a/b 6869\n\
    publish p1 2 0 a/b 686f\ntobroker p1\ntobroker p1\ntoend p1\ntoend p1\ntobroker p1\ntobroker p1\n\
    toend p1\ntoend p1\nconnect r1 0\ntobroker r1\ntoend r1\ndrain r1\n";

const DRAINED_QUEUE_TEXT: &str =
    "1 receiver\n2 publisher\n3 connect\n4 tobroker out=1\n5 toend\n6 subscribe\n7 tobroker out=1\n\
    8 toend\n9 break\n10 connect\n11 tobroker out=1\n12 toend\n13 publish\n14 publish\n\
    15 tobroker accepted=1 entered=1>r1 out=1\n16 tobroker accepted=2 entered=2>r1 out=1\n17 toend\n\
    18 toend\n19 tobroker released=1 out=1\n20 tobroker released=2 out=1\n21 toend\n22 toend\n\
    23 connect\n24 tobroker out=1\n25 toend\n26 drain ended=1>r1:Taken ended=2>r1:Taken out=4\n\
    r1 handed=1,2 queue=0\np1 sent=2 done=2\nbroker publications=2 sessions=2\n";

/// Of three copies a queue of two drops the oldest.
const FULL_QUEUE: &str = "receiver r1 10\npublisher p1\nconnect r1 0\ntobroker r1\ntoend r1\n\
    subscribe r1 2 0 0 0 0 home/temperature\ntobroker r1\ntoend r1\nbreak r1\nconnect p1 0\n\
    tobroker p1\ntoend p1\npublish p1 2 0 home/temperature 31392e35\ntobroker p1\ntoend p1\n\
    tobroker p1\ntoend p1\npublish p1 2 0 home/temperature 31392e37\ntobroker p1\ntoend p1\n\
    tobroker p1\ntoend p1\npublish p1 2 0 home/temperature 31392e39\ntobroker p1\ntoend p1\n\
    tobroker p1\ntoend p1\nconnect r1 0\ntobroker r1\ntoend r1\npump r1\ntoend r1\ntoend r1\n\
    tobroker r1\ntobroker r1\ntoend r1\ntoend r1\ntobroker r1\ntobroker r1\n";

const FULL_QUEUE_TEXT: &str =
    "1 receiver\n2 publisher\n3 connect\n4 tobroker out=1\n5 toend\n6 subscribe\n7 tobroker out=1\n\
    8 toend\n9 break\n10 connect\n11 tobroker out=1\n12 toend\n13 publish\n\
    14 tobroker accepted=1 entered=1>r1 out=1\n15 toend\n16 tobroker released=1 out=1\n17 toend\n\
    18 publish\n19 tobroker accepted=2 entered=2>r1 out=1\n20 toend\n21 tobroker released=1 out=1\n\
    22 toend\n23 publish\n24 tobroker accepted=3 ended=1>r1:Dropped entered=3>r1 out=1\n25 toend\n\
    26 tobroker released=1 out=1\n27 toend\n28 connect\n29 tobroker out=1\n30 toend\n31 pump out=2\n\
    32 toend\n33 toend\n34 tobroker out=1\n35 tobroker out=1\n36 toend\n37 toend\n\
    38 tobroker ended=2>r1:Taken\n39 tobroker ended=3>r1:Taken\nr1 handed=2,3 queue=0\n\
    p1 sent=3 done=3\nbroker publications=3 sessions=2\n";

/// Two topics are told by aliases, and again on a new line.
const TOLD_TOPICS: &str = "receiver r1 10 2\npublisher p1\nconnect r1 0\ntobroker r1\ntoend r1\n\
    subscribe r1 2 0 0 0 0 home/#\ntobroker r1\ntoend r1\nconnect p1 0\ntobroker p1\ntoend p1\n\
    publish p1 2 0 home/temperature 31392e35\npublish p1 2 0 home/temperature 31392e37\n\
    publish p1 2 0 home/humidity 3430\ntobroker p1\ntobroker p1\ntobroker p1\ntoend p1\ntoend p1\n\
    toend p1\ntobroker p1\ntobroker p1\ntobroker p1\ntoend p1\ntoend p1\ntoend p1\npump r1\n\
    toend r1\ntoend r1\nbreak r1\nconnect r1 0\ntobroker r1\ntoend r1\npump r1\ndrain r1\n";

const TOLD_TOPICS_TEXT: &str =
    "1 receiver\n2 publisher\n3 connect\n4 tobroker out=1\n5 toend\n6 subscribe\n7 tobroker out=1\n\
    8 toend\n9 connect\n10 tobroker out=1\n11 toend\n12 publish\n13 publish\n14 publish\n\
    15 tobroker accepted=1 entered=1>r1 out=1\n16 tobroker accepted=2 entered=2>r1 out=1\n\
    17 tobroker accepted=3 entered=3>r1 out=1\n18 toend\n19 toend\n20 toend\n\
    21 tobroker released=1 out=1\n22 tobroker released=2 out=1\n23 tobroker released=3 out=1\n\
    24 toend\n25 toend\n26 toend\n27 pump out=3\n28 toend\n29 toend\n30 break\n31 connect\n\
    32 tobroker out=1\n33 toend\n34 pump out=3\n\
    35 drain ended=1>r1:Taken ended=2>r1:Taken ended=3>r1:Taken out=3\nr1 handed=1,2,3 queue=0\n\
    p1 sent=3 done=3\nbroker publications=3 sessions=2\n";

/// The scripts, and their texts.
fn scripts() -> &'static [(&'static str, &'static str)] {
    &[
        (LOST_PUBREC, LOST_PUBREC_TEXT),
        (KILLED_BROKER, KILLED_BROKER_TEXT),
        (LATE_CONNECT, LATE_CONNECT_TEXT),
        (DRAINED_QUEUE, DRAINED_QUEUE_TEXT),
        (TOLD_TOPICS, TOLD_TOPICS_TEXT),
    ]
}

#[test]
fn the_scripts_of_the_examples(rt: HostRuntime) -> Result<(), Fail> {
    let hasher = RandomState::new(&rt)?;
    for (script, text) in scripts() {
        assert!(rt;
            is_so(rt.alloc(), hasher, script, Played::Whole, text) == Ok(true),
            "{script}"
        );
    }
    Ok(())
}

#[test]
fn the_script_of_a_full_queue(rt: HostRuntime) -> Result<(), Fail> {
    let hasher = RandomState::new(&rt)?;
    assert!(rt;
        is_so_in_queues_of_two(rt.alloc(), hasher, Full::Drop, FULL_QUEUE, FULL_QUEUE_TEXT)
            == Ok(true)
    );
    Ok(())
}
