//! Scripts whose texts are worked out by hand: a message whose broker stops between commit and answer, a PUBREL on a line that
//! was given up, read before the CONNECT of the new one and after it, and a receiver that is drained (MQTT 5.0, 4.3.3, 4.4).

use crate::replay::playing::{in_memory, is_so, is_so_in_sql};
use mqtt_replay::{Played, ReplayFault};
use std::alloc::Global;
use std::hash::RandomState;
use std::test::Fail;

/// A message of QoS 2 for a receiver; the broker stops once it has sent it, and nothing goes out.
const STOPPED: &str = "receiver r1 10\npublisher p1\nconnect r1 0\ntobroker r1\ntoend r1\n\
    subscribe r1 2 0 0 0 0 a/b\ntobroker r1\ntoend r1\nconnect p1 0\ntobroker p1\ntoend p1\n\
    publish p1 2 0 a/b 6869\ntobroker p1\nstopafter pump r1\nconnect r1 0\ntobroker r1\ntoend r1\npump r1\ntoend r1\n\
    tobroker r1\ntoend r1\ntobroker r1\n";

const STOPPED_TEXT: &str =
    "1 receiver\n2 publisher\n3 connect\n4 tobroker out=1\n5 toend\n6 subscribe\n\
    7 tobroker out=1\n8 toend\n9 connect\n10 tobroker out=1\n11 toend\n12 publish\n\
    13 tobroker accepted=1 entered=1>r1 out=1\n14 stopafter\n15 connect\n16 tobroker out=1\n17 toend\n\
    18 pump out=1\n19 toend\n20 tobroker out=1\n21 toend\n22 tobroker ended=1>r1:Taken\nr1 handed=1 queue=0\n\
    p1 sent=1 done=0\nbroker publications=1 sessions=2\n";

/// A publisher sent PUBREL, gives its line up and connects on a new one; the old line is read first.
const OLD_FIRST: &str =
    "publisher p1\nconnect p1 0\ntobroker p1\ntoend p1\npublish p1 2 0 a/b 6869\ntobroker p1\n\
    toend p1\ngiveup p1\nconnect p1 0\ntobroker p1 old\ntobroker p1\ntoend p1\ntobroker p1\ntoend p1\n";

const OLD_FIRST_TEXT: &str = "1 publisher\n2 connect\n3 tobroker out=1\n4 toend\n5 publish\n\
    6 tobroker accepted=1 out=1\n7 toend\n8 giveup\n9 connect\n10 tobroker released=1 out=1\n11 tobroker out=2\n\
    12 toend\n13 tobroker out=1\n14 toend\np1 sent=1 done=1\nbroker publications=1 sessions=1\n";

/// The same, if the CONNECT is read first: the broker closes the old line, and drops the rest of it.
const NEW_FIRST: &str =
    "publisher p1\nconnect p1 0\ntobroker p1\ntoend p1\npublish p1 2 0 a/b 6869\ntobroker p1\n\
    toend p1\ngiveup p1\nconnect p1 0\ntobroker p1\ntobroker p1 old\ntoend p1\ntobroker p1\ntoend p1\n";

const NEW_FIRST_TEXT: &str = "1 publisher\n2 connect\n3 tobroker out=1\n4 toend\n5 publish\n\
    6 tobroker accepted=1 out=1\n7 toend\n8 giveup\n9 connect\n10 tobroker out=2\n11 tobroker\n\
    12 toend\n13 tobroker released=1 out=1\n14 toend\np1 sent=1 done=1\nbroker publications=1 sessions=1\n";

/// Two messages of QoS 2 wait for a receiver whose Receive Maximum is 1, and it is drained: in four rounds, in each of which one
/// packet goes out. Then nothing waits, and it is drained once more.
const DRAINED: &str = "receiver r1 1\npublisher p1\nconnect r1 0\ntobroker r1\ntoend r1\n\
    subscribe r1 2 0 0 0 0 a/b\ntobroker r1\ntoend r1\nconnect p1 0\ntobroker p1\ntoend p1\n\
    publish p1 2 0 a/b 6869\npublish p1 2 0 a/b 6869\ntobroker p1\ntobroker p1\ndrain r1\ndrain r1\n";

const DRAINED_TEXT: &str =
    "1 receiver\n2 publisher\n3 connect\n4 tobroker out=1\n5 toend\n6 subscribe\n\
    7 tobroker out=1\n8 toend\n9 connect\n10 tobroker out=1\n11 toend\n12 publish\n13 publish\n\
    14 tobroker accepted=1 entered=1>r1 out=1\n15 tobroker accepted=2 entered=2>r1 out=1\n\
    16 drain ended=1>r1:Taken ended=2>r1:Taken out=4\n17 drain\nr1 handed=1,2 queue=0\np1 sent=2 done=0\n\
    broker publications=2 sessions=2\n";

/// The scripts, and their texts.
fn rows() -> &'static [(&'static str, &'static str)] {
    &[
        (STOPPED, STOPPED_TEXT),
        (OLD_FIRST, OLD_FIRST_TEXT),
        (NEW_FIRST, NEW_FIRST_TEXT),
        (DRAINED, DRAINED_TEXT),
    ]
}

#[test]
fn rows_over_the_store_in_memory(rt: HostRuntime) -> Result<(), Fail> {
    let hasher = RandomState::new(&rt)?;
    for (script, text) in rows() {
        assert!(rt;
            is_so(rt.alloc(), hasher, script, Played::Whole, text) == Ok(true),
            "{script}"
        );
    }
    Ok(())
}

#[test]
fn rows_over_a_store_in_sql(rt: HostRuntime) -> Result<(), Fail> {
    let hasher = RandomState::new(&rt)?;
    for (script, text) in rows() {
        assert!(rt;
            is_so_in_sql(rt.alloc(), hasher, script, Played::Whole, text) == Ok(true),
            "{script}"
        );
    }
    Ok(())
}

/// Room for what a script writes, so that no growth of it is a failed write.
const ROOM: usize = 4_096;

/// How a script ends, whether whole lines of this text were written, and whether all of it was.
fn fronted(
    alloc: Global,
    hasher: RandomState,
    script: &str,
    text: &str,
) -> Result<(Result<Played, ReplayFault>, bool, bool), Fail> {
    let mut written = Vec::with_capacity(alloc, ROOM)?;
    let played = in_memory(alloc, hasher, script, &mut written);
    let are_lines = written.is_empty() || written.ends_with(b"\n");
    let is_front = are_lines && text.as_bytes().starts_with(written.as_slice());
    let is_text = is_front && written.len() == text.len();
    drop(written);
    Ok((played, is_front, is_text))
}

/// With a growth of memory refused, as `tools/refused_growths` does, a run writes whole lines of the known text and tells want
/// of memory, or is the known one.
#[test]
fn a_row_for_which_memory_is_wanting_is_a_front_of_it(rt: HostRuntime) -> Result<(), Fail> {
    let hasher = RandomState::new(&rt)?;
    for (script, text) in rows() {
        let (played, is_front, is_text) = fronted(rt.alloc(), hasher, script, text)?;
        assert!(rt; is_front, "{script}");
        if played == Err(ReplayFault::Memory) {
            return Err(Fail::from("want of memory"));
        }
        assert!(rt; is_text && played == Ok(Played::Whole), "{script}");
    }
    Ok(())
}
