//! A receiver is drained while its copies end in other ways than by being taken (MQTT 5.0, 3.1.2.4, 3.3.2.3.3, 4.3, 4.4).

use crate::replay::playing::{is_so, is_so_in_sql};
use mqtt_replay::Played;
use std::hash::RandomState;
use std::test::Fail;

/// A CONNECT with Clean Start is under way: the copies end with the session, in one round.
const CLEAN_START: &str = "receiver r1 10\npublisher p1\nconnect r1 0\ntobroker r1\ntoend r1\n\
    subscribe r1 2 0 0 0 0 a/b\ntobroker r1\ntoend r1\nconnect p1 0\ntobroker p1\ntoend p1\n\
    publish p1 2 0 a/b 6869\npublish p1 1 0 a/b 6869\ntobroker p1\ntobroker p1\nbreak r1\nconnect r1 1\ndrain r1\n";

const CLEAN_START_TEXT: &str =
    "1 receiver\n2 publisher\n3 connect\n4 tobroker out=1\n5 toend\n6 subscribe\n\
    7 tobroker out=1\n8 toend\n9 connect\n10 tobroker out=1\n11 toend\n12 publish\n13 publish\n\
    14 tobroker accepted=1 entered=1>r1 out=1\n15 tobroker accepted=2 entered=2>r1 out=1\n16 break\n17 connect\n\
    18 drain ended=1>r1:SessionEnded ended=2>r1:SessionEnded out=1\nr1 handed=- queue=0\np1 sent=2 done=0\n\
    broker publications=2 sessions=2\n";

/// A stranger's message has a Message Expiry Interval of one second, and that is over.
const EXPIRED: &str =
    "receiver r1 10\nconnect r1 0\ntobroker r1\ntoend r1\nsubscribe r1 2 0 0 0 0 a/b\n\
    tobroker r1\ntoend r1\nstranger s 101400044d515454050000000511ffffffff00027331\n\
    stranger s 320f0003612f6200010502000000016869\nclock 2000\ndrain r1\n";

const EXPIRED_TEXT: &str =
    "1 receiver\n2 connect\n3 tobroker out=1\n4 toend\n5 subscribe\n6 tobroker out=1\n7 toend\n\
    8 stranger out=1\n9 stranger accepted=1 entered=1>r1 out=1\n10 clock\n11 drain ended=1>r1:Expired\n\
    r1 handed=- queue=0\nbroker publications=1 sessions=2\n";

/// A PUBREL is under way as a line is lost, and a second message waits: the first is taken, and the second behind it.
const RELEASED: &str = "receiver r1 1\npublisher p1\nconnect r1 0\ntobroker r1\ntoend r1\n\
    subscribe r1 2 0 0 0 0 a/b\ntobroker r1\ntoend r1\nconnect p1 0\ntobroker p1\ntoend p1\n\
    publish p1 2 0 a/b 6869\npublish p1 2 0 a/b 6869\ntobroker p1\ntobroker p1\npump r1\ntoend r1\ntobroker r1\n\
    break r1\nconnect r1 0\ntobroker r1\ntoend r1\ndrain r1\n";

const RELEASED_TEXT: &str =
    "1 receiver\n2 publisher\n3 connect\n4 tobroker out=1\n5 toend\n6 subscribe\n\
    7 tobroker out=1\n8 toend\n9 connect\n10 tobroker out=1\n11 toend\n12 publish\n13 publish\n\
    14 tobroker accepted=1 entered=1>r1 out=1\n15 tobroker accepted=2 entered=2>r1 out=1\n16 pump out=1\n17 toend\n\
    18 tobroker out=1\n19 break\n20 connect\n21 tobroker out=2\n22 toend\n\
    23 drain ended=1>r1:Taken ended=2>r1:Taken out=2\nr1 handed=1,2 queue=0\np1 sent=2 done=0\n\
    broker publications=2 sessions=2\n";

/// The scripts, and their texts.
fn scripts() -> &'static [(&'static str, &'static str)] {
    &[
        (CLEAN_START, CLEAN_START_TEXT),
        (EXPIRED, EXPIRED_TEXT),
        (RELEASED, RELEASED_TEXT),
    ]
}

#[test]
fn copies_end_in_a_drain_as_they_do_elsewhere(rt: HostRuntime) -> Result<(), Fail> {
    let hasher = RandomState::new(&rt)?;
    for (script, text) in scripts() {
        assert!(rt;
            is_so(rt.alloc(), hasher, script, Played::Whole, text) == Ok(true),
            "{script}"
        );
        assert!(rt;
            is_so_in_sql(rt.alloc(), hasher, script, Played::Whole, text) == Ok(true),
            "{script} in SQL"
        );
    }
    Ok(())
}
