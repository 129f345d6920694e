//! Scripts whose texts were worked out by hand.

use crate::world::stage::{Sight, new_world, push_run, sight_of};
use mqtt_keep::MemKeep;
use mqtt_world::World;
use mqtt_world_ends::peers::RunFault;
use std::alloc::Global;
use std::hash::RandomState;
use std::test::Fail;

/// A message of QoS 2, whose publisher gives up its line behind PUBREC, and connects again.
const GIVEN_UP: &str =
    "publisher p1;connect p1 0;tobroker p1;toend p1;publish p1 2 0 a/b 6869;tobroker p1;toend p1;giveup p1;connect p1 0";

/// What it tells.
const GIVEN_UP_TEXT: &str =
    "1 publisher\n2 connect\n3 tobroker out=1\n4 toend\n5 publish\n6 tobroker accepted=1 out=1\n7 toend\n8 giveup\n9 connect\n";

/// The PUBREL on the old line is read before the new CONNECT (4.3.3, 4.4).
const OLD_FIRST: &str = "tobroker p1 old;tobroker p1;toend p1;tobroker p1;toend p1";

/// What that tells.
const OLD_FIRST_TEXT: &str =
    "1 tobroker released=1 out=1\n2 tobroker out=2\n3 toend\n4 tobroker out=1\n5 toend\n";

/// Or it comes too late, when the session was taken over (3.1.4).
const OLD_LATE: &str = "tobroker p1;tobroker p1 old;toend p1;tobroker p1;toend p1";

/// What that tells.
const OLD_LATE_TEXT: &str =
    "1 tobroker out=2\n2 tobroker\n3 toend\n4 tobroker released=1 out=1\n5 toend\n";

/// Whether a script tells this.
fn tells(
    alloc: Global,
    world: &mut World<MemKeep>,
    script: &str,
    text: &str,
) -> Result<bool, RunFault> {
    let mut told = String::new(alloc);
    let ran = push_run(alloc, &mut told, world, script);
    let is_right = told.as_str() == text;
    drop(told);
    ran?;
    Ok(is_right)
}

/// Whether two scripts tell this, one behind the other, and what is seen of the world then.
fn sight_behind(
    alloc: Global,
    hasher: RandomState,
    first: (&str, &str),
    second: (&str, &str),
) -> Result<(bool, Sight), RunFault> {
    let mut world = new_world(alloc, hasher)?;
    let is_first = tells(alloc, &mut world, first.0, first.1);
    let is_second = tells(alloc, &mut world, second.0, second.1);
    let sight = sight_of(alloc, &world);
    drop(world);
    Ok((is_first? && is_second?, sight?))
}

#[test]
fn a_late_release_completes_its_message_once(rt: HostRuntime) -> Result<(), Fail> {
    for (script, text) in [(OLD_FIRST, OLD_FIRST_TEXT), (OLD_LATE, OLD_LATE_TEXT)] {
        let hasher = RandomState::new(&rt)?;
        let (is_right, sight) = sight_behind(
            rt.alloc(),
            hasher,
            (GIVEN_UP, GIVEN_UP_TEXT),
            (script, text),
        )?;
        assert!(rt; is_right, "{script}");
        assert!(rt;
            sight
                == Sight {
                    messages: (Some(1), Some(1)),
                    copies: (None, None, None),
                    broker: (Some(1), Some(1)),
                },
            "{sight:?}"
        );
    }
    Ok(())
}

/// A receiver that subscribed, and a publisher whose message of QoS 2 was accepted for it.
const ACCEPTED: &str =
    "receiver r1 10;publisher p1;connect r1 0;tobroker r1;toend r1;subscribe r1 2 0 0 0 0 a/b;\
    tobroker r1;toend r1;connect p1 0;tobroker p1;toend p1;publish p1 2 0 a/b 6869;tobroker p1";

/// What it tells.
const ACCEPTED_TEXT: &str =
    "1 receiver\n2 publisher\n3 connect\n4 tobroker out=1\n5 toend\n6 subscribe\n7 tobroker out=1\n8 toend\n\
    9 connect\n10 tobroker out=1\n11 toend\n12 publish\n13 tobroker accepted=1 entered=1>r1 out=1\n";

/// The broker stops when its copy was to go out, and the receiver comes again (4.4).
const STOPPED: &str =
    "stopafter pump r1;connect r1 0;tobroker r1;toend r1;pump r1;toend r1;tobroker r1;toend r1;tobroker r1";

/// What that tells.
const STOPPED_TEXT: &str =
    "1 stopafter\n2 connect\n3 tobroker out=1\n4 toend\n5 pump out=1\n6 toend\n7 tobroker out=1\n8 toend\n\
    9 tobroker ended=1>r1:Taken\n";

#[test]
fn a_copy_is_handed_over_once_though_the_broker_stops(rt: HostRuntime) -> Result<(), Fail> {
    let hasher = RandomState::new(&rt)?;
    let (is_right, sight) = sight_behind(
        rt.alloc(),
        hasher,
        (ACCEPTED, ACCEPTED_TEXT),
        (STOPPED, STOPPED_TEXT),
    )?;
    assert!(rt; is_right, "what it tells");
    assert!(rt;
        sight
            == Sight {
                messages: (Some(1), Some(0)),
                copies: (Some(1), Some(1), Some(0)),
                broker: (Some(1), Some(2)),
            },
        "{sight:?}"
    );
    Ok(())
}

/// A stranger sends CONNECT and PUBLISH in pieces, and a PINGREQ behind whose answer the broker stops; a stranger's first bytes
/// are lost.
const STRANGERS: &str =
    "stranger s 100e00044d515454050200000000017332090003;stranger s 612f6200010068;\
    stopafter stranger s c000;stranger s c000;stopbefore stranger t 100e00044d5154540502000000000174;stranger t c000";

/// What that tells: each packet is answered, and no line is left behind a stop (4.1).
const STRANGERS_TEXT: &str =
    "1 stranger out=1\n2 stranger accepted=2 entered=2>r1 out=1\n3 stopafter\n4 stranger\n\
    5 stopbefore\n6 stranger\n";

#[test]
fn strangers_are_answered_packet_by_packet(rt: HostRuntime) -> Result<(), Fail> {
    let hasher = RandomState::new(&rt)?;
    let (is_right, sight) = sight_behind(
        rt.alloc(),
        hasher,
        (ACCEPTED, ACCEPTED_TEXT),
        (STRANGERS, STRANGERS_TEXT),
    )?;
    assert!(rt; is_right, "what it tells");
    assert!(rt;
        sight
            == Sight {
                messages: (Some(1), Some(0)),
                copies: (Some(0), None, Some(2)),
                broker: (Some(2), Some(2)),
            },
        "{sight:?}"
    );
    Ok(())
}

/// A publisher connects, and is given a message of QoS 0.
const PLAIN: &str = "publisher p1;connect p1 0;tobroker p1;toend p1;publish p1 0 0 a/b 6869";

/// What it tells.
const PLAIN_TEXT: &str = "1 publisher\n2 connect\n3 tobroker out=1\n4 toend\n5 publish\n";

#[test]
fn a_message_of_qos_0_counts_when_it_has_gone_out(rt: HostRuntime) -> Result<(), Fail> {
    let hasher = RandomState::new(&rt)?;
    let (is_right, sight) = sight_behind(
        rt.alloc(),
        hasher,
        (PLAIN, PLAIN_TEXT),
        ("tobroker p1", "1 tobroker accepted=1\n"),
    )?;
    assert!(rt; is_right, "what it tells");
    assert!(rt;
        sight
            == Sight {
                messages: (Some(1), Some(0)),
                copies: (None, None, None),
                broker: (Some(1), Some(1)),
            },
        "{sight:?}"
    );
    Ok(())
}

/// A stranger's CONNECT has the client identifier p1, and its session stays.
const TAKEN: &str = "stranger s 101400044d515454050000000511ffffffff00027031";

#[test]
fn an_end_is_made_where_a_session_has_its_name(rt: HostRuntime) -> Result<(), Fail> {
    let hasher = RandomState::new(&rt)?;
    let (is_right, sight) = sight_behind(
        rt.alloc(),
        hasher,
        (TAKEN, "1 stranger out=1\n"),
        ("publisher p1", "1 publisher\n"),
    )?;
    assert!(rt; is_right, "what it tells");
    assert!(rt;
        sight
            == Sight {
                messages: (Some(0), Some(0)),
                copies: (None, None, None),
                broker: (Some(0), Some(1)),
            },
        "{sight:?}"
    );
    Ok(())
}
