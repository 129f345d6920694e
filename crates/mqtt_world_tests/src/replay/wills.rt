//! A Will is published as the broker opens, after a restart: no session is connected by then, so a member of a group that was
//! granted QoS 0 is passed over (MQTT 5.0, 3.1.2.5, 4.1, 4.3.1, 4.8.2).

use crate::replay::playing::{LIMITS, is_so_within};
use mqtt_replay::Limits;
use std::hash::RandomState;
use std::test::Fail;

/// `a` has a Will to `w`, to be published as soon as its line is lost. `b` was granted QoS 0 in the group of `$share/g/w`, and
/// `r1` QoS 1. The copy waits for `r1`.
const MEMBER: &str = "receiver r1 10\n\
    stranger a 101a00044d515454050c00000511ffffffff00016100000177000121\n\
    stranger b 101300044d515454050000000511ffffffff000162\n\
    stranger b 8210000100000a2473686172652f672f7700\n\
    connect r1 0\ntobroker r1\ntoend r1\nsubscribe r1 1 0 0 0 0 $share/g/w\ntobroker r1\ntoend r1\nrestart\n";

const MEMBER_TEXT: &str =
    "1 receiver\n2 stranger out=1\n3 stranger out=1\n4 stranger out=1\n5 connect\n\
    6 tobroker out=1\n7 toend\n8 subscribe\n9 tobroker out=1\n10 toend\n11 restart\nr1 handed=- queue=1\n\
    broker publications=1 sessions=3\n";

/// The same, where the queue of `r1` takes one copy and has one: no member is left for the Will, so it is refused.
const FULL_MEMBER: &str = "receiver r1 10\n\
    stranger a 101a00044d515454050c00000511ffffffff00016100000177000121\n\
    stranger b 101300044d515454050000000511ffffffff000162\n\
    stranger b 8210000100000a2473686172652f672f7700\n\
    connect r1 0\ntobroker r1\ntoend r1\nsubscribe r1 1 0 0 0 0 $share/g/w\ntobroker r1\ntoend r1\n\
    subscribe r1 1 0 0 0 0 x\ntobroker r1\ntoend r1\npublisher p1\nconnect p1 0\ntobroker p1\ntoend p1\n\
    publish p1 1 0 x 21\ntobroker p1\nrestart\n";

const FULL_MEMBER_TEXT: &str =
    "1 receiver\n2 stranger out=1\n3 stranger out=1\n4 stranger out=1\n5 connect\n\
    6 tobroker out=1\n7 toend\n8 subscribe\n9 tobroker out=1\n10 toend\n11 subscribe\n12 tobroker out=1\n\
    13 toend\n14 publisher\n15 connect\n16 tobroker out=1\n17 toend\n18 publish\n\
    19 tobroker accepted=1 entered=1>r1 out=1\n20 restart\nr1 handed=- queue=1\np1 sent=1 done=0\n\
    broker publications=1 sessions=4\n";

/// Queues take one copy.
const ONE_EACH: Limits = Limits { queue: 1, ..LIMITS };

#[test]
fn a_will_at_a_restart_goes_to_a_member_that_waits(rt: HostRuntime) -> Result<(), Fail> {
    let hasher = RandomState::new(&rt)?;
    assert!(rt; is_so_within(rt.alloc(), hasher, LIMITS, MEMBER, MEMBER_TEXT) == Ok(true));
    assert!(rt;
        is_so_within(rt.alloc(), hasher, ONE_EACH, FULL_MEMBER, FULL_MEMBER_TEXT) == Ok(true)
    );
    Ok(())
}
