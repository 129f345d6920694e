//! Each rule of records: sound rows keep it, and one word changed breaks it (4.1).

use crate::lawful::kept::{Copied, Kept, RELEASED, SAID, SENT, SOUND, Said, judge};
use mqtt_base::{LAST_NUMBER, Phase, Qos};
use mqtt_keep::is_lawful;
use mqtt_records::Records;
use std::alloc::{AllocError, Global};
use std::test::Fail;

/// Whether the records with another first copy are lawful.
fn judge_first(alloc: Global, copy: Copied) -> Result<bool, AllocError> {
    let copies = [copy, SENT];
    judge(alloc, Kept { copies, ..SOUND })
}

/// Whether the records with another second copy are lawful.
fn judge_second(alloc: Global, copy: Copied) -> Result<bool, AllocError> {
    let copies = [RELEASED, copy];
    judge(alloc, Kept { copies, ..SOUND })
}

/// Whether the records with another phase of the first copy are lawful.
fn judge_phase(alloc: Global, qos: Qos, phase: Phase) -> Result<bool, AllocError> {
    judge_first(
        alloc,
        Copied {
            qos,
            phase,
            ..RELEASED
        },
    )
}

/// Whether the records with another message of the first copy are lawful.
fn judge_said(alloc: Global, content: Said) -> Result<bool, AllocError> {
    judge_first(
        alloc,
        Copied {
            content,
            ..RELEASED
        },
    )
}

/// Whether the records with another Will are lawful.
fn judge_will(alloc: Global, will: Said) -> Result<bool, AllocError> {
    judge(alloc, Kept { will, ..SOUND })
}

/// Whether the records with another second retained message are lawful.
fn judge_retained(alloc: Global, said: Said) -> Result<bool, AllocError> {
    let retained = [SAID, said];
    judge(alloc, Kept { retained, ..SOUND })
}

/// Whether the records with other numbers are lawful.
fn judge_numbers(alloc: Global, numbers: [u64; 5]) -> Result<bool, AllocError> {
    judge(alloc, Kept { numbers, ..SOUND })
}

/// Whether the records with other client identifiers are lawful.
fn judge_client(alloc: Global, client: &'static str) -> Result<bool, AllocError> {
    let clients = ["r1", client];
    judge(alloc, Kept { clients, ..SOUND })
}

/// Whether the records with another filter are lawful.
fn judge_filter(alloc: Global, filter: &'static str) -> Result<bool, AllocError> {
    let filters = ["$share/g/a/b", filter];
    judge(alloc, Kept { filters, ..SOUND })
}

/// Whether the records with other places of subscriptions are lawful.
fn judge_places(alloc: Global, places: [u64; 3]) -> Result<bool, AllocError> {
    judge(alloc, Kept { places, ..SOUND })
}

/// Whether the records with another Subscription Identifier are lawful.
fn judge_identifier(alloc: Global, identifier: u32) -> Result<bool, AllocError> {
    let identifier = Some(identifier);
    judge(
        alloc,
        Kept {
            identifier,
            ..SOUND
        },
    )
}

/// Whether the records with another open identifier are lawful.
fn judge_open(alloc: Global, open: u16) -> Result<bool, AllocError> {
    judge(alloc, Kept { open, ..SOUND })
}

/// Whether the records with another moment of a close are lawful.
fn judge_closed(alloc: Global, moment: u64) -> Result<bool, AllocError> {
    let closed = Some(moment);
    judge(alloc, Kept { closed, ..SOUND })
}

/// Whether the records with another place of a retained message are lawful.
fn judge_retained_place(alloc: Global, retained_place: u64) -> Result<bool, AllocError> {
    judge(
        alloc,
        Kept {
            retained_place,
            ..SOUND
        },
    )
}

/// Whether the records with retained messages of other publications are lawful.
fn judge_retained_publications(
    alloc: Global,
    retained_publications: [u64; 2],
) -> Result<bool, AllocError> {
    judge(
        alloc,
        Kept {
            retained_publications,
            ..SOUND
        },
    )
}

#[test]
fn sound_records_are_lawful(rt: HostRuntime) -> Result<(), Fail> {
    let alloc = rt.alloc();
    assert!(rt; judge(alloc, SOUND)?, "all kinds of rows");
    let nothing = Records::new(alloc)?;
    let lawful = is_lawful(alloc, &nothing);
    drop(nothing);
    assert!(rt; lawful?, "before the first session");
    Ok(())
}

#[test]
fn numbers_are_given_before_they_are_used(rt: HostRuntime) -> Result<(), Fail> {
    let alloc = rt.alloc();
    assert!(rt;
        !judge_numbers(alloc, [1, 4, 4, 12, 50])?,
        "a birth above the births"
    );
    assert!(rt;
        !judge_numbers(alloc, [2, 3, 4, 12, 50])?,
        "a publication above the publications"
    );
    assert!(rt;
        !judge_numbers(alloc, [2, 4, 3, 12, 50])?,
        "a place above the subscribes"
    );
    assert!(rt;
        !judge_numbers(alloc, [2, 4, 4, 11, 50])?,
        "a name above the autos"
    );
    assert!(rt;
        !judge_numbers(alloc, [2, 4, 4, 12, 49])?,
        "moments above the moment"
    );
    Ok(())
}

#[test]
fn numbers_are_at_most_the_last(rt: HostRuntime) -> Result<(), Fail> {
    let alloc = rt.alloc();
    let n = LAST_NUMBER;
    assert!(rt; judge_numbers(alloc, [n, n, n, n, n])?, "the last of each");
    assert!(rt; !judge_numbers(alloc, [n + 1, 4, 4, 12, 50])?, "births");
    assert!(rt;
        !judge_numbers(alloc, [2, n + 1, 4, 12, 50])?,
        "publications"
    );
    assert!(rt; !judge_numbers(alloc, [2, 4, n + 1, 12, 50])?, "subscribes");
    assert!(rt; !judge_numbers(alloc, [2, 4, 4, n + 1, 50])?, "autos");
    assert!(rt; !judge_numbers(alloc, [2, 4, 4, 12, n + 1])?, "moment");
    Ok(())
}

#[test]
fn a_session_has_a_client_identifier_of_its_own(rt: HostRuntime) -> Result<(), Fail> {
    let alloc = rt.alloc();
    assert!(rt; !judge_client(alloc, "r1")?, "another has it");
    assert!(rt; !judge_client(alloc, "")?, "no byte");
    let longest = "0123456789012345678901234567890123456789012345678901234567890123";
    assert!(rt; judge_client(alloc, longest)?, "64 bytes");
    let longer = "01234567890123456789012345678901234567890123456789012345678901234";
    assert!(rt; !judge_client(alloc, longer)?, "65 bytes");
    Ok(())
}

#[test]
fn a_name_of_the_brokers_was_assigned(rt: HostRuntime) -> Result<(), Fail> {
    let alloc = rt.alloc();
    assert!(rt; judge_client(alloc, "auto-1")?, "the first");
    assert!(rt; judge_client(alloc, "auto")?, "another front");
    assert!(rt; !judge_client(alloc, "auto-0")?, "from 1");
    assert!(rt; !judge_client(alloc, "auto-012")?, "not the shortest form");
    assert!(rt; !judge_client(alloc, "auto-+1")?, "a sign");
    assert!(rt; !judge_client(alloc, "auto-13")?, "not yet assigned");
    assert!(rt; !judge_client(alloc, "auto-x")?, "no number");
    Ok(())
}

#[test]
fn subscriptions_are_filters_each_once(rt: HostRuntime) -> Result<(), Fail> {
    let alloc = rt.alloc();
    assert!(rt; !judge_filter(alloc, "$share/g/a/b")?, "the same filter");
    assert!(rt; !judge_filter(alloc, "a/#/b")?, "no filter");
    assert!(rt; !judge_filter(alloc, "$share/a")?, "no shared filter");
    assert!(rt;
        !judge_places(alloc, [1, 4, 4])?,
        "two places of two sessions"
    );
    assert!(rt; !judge_places(alloc, [0, 2, 4])?, "a place below 1");
    Ok(())
}

#[test]
fn identifiers_are_from_one(rt: HostRuntime) -> Result<(), Fail> {
    let alloc = rt.alloc();
    assert!(rt;
        judge_identifier(alloc, 268_435_455)?,
        "the last of four bytes"
    );
    assert!(rt; !judge_identifier(alloc, 268_435_456)?, "five bytes");
    assert!(rt; !judge_identifier(alloc, 0)?, "Subscription Identifier 0");
    assert!(rt; !judge_open(alloc, 0)?, "an open identifier");
    assert!(rt;
        !judge_second(
            alloc,
            Copied {
                identifier: 0,
                ..SENT
            }
        )?,
        "one that a copy carries"
    );
    Ok(())
}

#[test]
fn a_copy_is_for_its_session(rt: HostRuntime) -> Result<(), Fail> {
    let alloc = rt.alloc();
    assert!(rt;
        !judge_first(
            alloc,
            Copied {
                birth: 2,
                ..RELEASED
            }
        )?,
        "another session"
    );
    assert!(rt;
        !judge_first(
            alloc,
            Copied {
                place: 0,
                ..RELEASED
            }
        )?,
        "a place below 1"
    );
    assert!(rt;
        !judge_second(
            alloc,
            Copied {
                place: LAST_NUMBER + 1,
                ..SENT
            }
        )?,
        "a place above"
    );
    assert!(rt;
        !judge_first(
            alloc,
            Copied {
                publication: 0,
                ..RELEASED
            }
        )?,
        "no publication"
    );
    Ok(())
}

#[test]
fn a_copy_has_a_cause(rt: HostRuntime) -> Result<(), Fail> {
    let alloc = rt.alloc();
    assert!(rt;
        !judge_first(
            alloc,
            Copied {
                group: Some("g"),
                ..RELEASED
            }
        )?,
        "no filter"
    );
    assert!(rt;
        !judge_first(
            alloc,
            Copied {
                group: Some("+/a"),
                ..RELEASED
            }
        )?,
        "no name"
    );
    assert!(rt;
        !judge_second(
            alloc,
            Copied {
                subscribe: 0,
                ..SENT
            }
        )?,
        "no subscribe"
    );
    assert!(rt;
        !judge_second(
            alloc,
            Copied {
                subscribe: 5,
                ..SENT
            }
        )?,
        "not yet granted"
    );
    Ok(())
}

#[test]
fn a_phase_is_one_of_its_quality_of_service(rt: HostRuntime) -> Result<(), Fail> {
    let alloc = rt.alloc();
    let outgrown = Phase::Oversize {
        identifier: 1,
        order: LAST_NUMBER,
    };
    assert!(rt;
        judge_phase(alloc, Qos::ExactlyOnce, Phase::Waiting)?,
        "Waiting"
    );
    assert!(rt;
        judge_phase(alloc, Qos::ExactlyOnce, outgrown)?,
        "Oversize at QoS 2"
    );
    assert!(rt;
        !judge_phase(alloc, Qos::AtMostOnce, Phase::Waiting)?,
        "QoS 0"
    );
    assert!(rt;
        !judge_phase(alloc, Qos::AtLeastOnce, outgrown)?,
        "Oversize at QoS 1"
    );
    assert!(rt;
        !judge_phase(alloc, Qos::AtLeastOnce, RELEASED.phase)?,
        "Released at QoS 1"
    );
    Ok(())
}

#[test]
fn a_phase_has_numbers_from_one(rt: HostRuntime) -> Result<(), Fail> {
    let alloc = rt.alloc();
    let qos = Qos::ExactlyOnce;
    assert!(rt;
        !judge_phase(alloc, qos, Phase::Sent { identifier: 0 })?,
        "identifier 0"
    );
    let first = Phase::Released {
        identifier: 1,
        order: 0,
    };
    assert!(rt; !judge_phase(alloc, qos, first)?, "order 0");
    let last = Phase::Released {
        identifier: 1,
        order: LAST_NUMBER + 1,
    };
    assert!(rt; !judge_phase(alloc, qos, last)?, "an order above the last");
    Ok(())
}

#[test]
fn copies_in_a_queue_differ(rt: HostRuntime) -> Result<(), Fail> {
    let alloc = rt.alloc();
    let sent = Phase::Sent { identifier: 2 };
    assert!(rt;
        !judge_phase(alloc, Qos::ExactlyOnce, sent)?,
        "packet identifiers"
    );
    let released = Phase::Released {
        identifier: 2,
        order: 1,
    };
    let second = Copied {
        qos: Qos::ExactlyOnce,
        phase: released,
        ..SENT
    };
    assert!(rt; !judge_second(alloc, second)?, "orders of release");
    assert!(rt;
        !judge_second(
            alloc,
            Copied {
                publication: 4,
                group: Some("g/a/b"),
                ..SENT
            }
        )?,
        "identities"
    );
    assert!(rt;
        judge_second(
            alloc,
            Copied {
                publication: 4,
                group: Some("h/a/b"),
                ..SENT
            }
        )?,
        "another group"
    );
    Ok(())
}

#[test]
fn what_a_copy_sends_is_a_message(rt: HostRuntime) -> Result<(), Fail> {
    let alloc = rt.alloc();
    assert!(rt;
        !judge_said(
            alloc,
            Said {
                topic: "a/#",
                ..SAID
            }
        )?,
        "no topic name"
    );
    assert!(rt;
        !judge_said(
            alloc,
            Said {
                indicators: 2,
                ..SAID
            }
        )?,
        "a property twice"
    );
    assert!(rt;
        !judge_said(
            alloc,
            Said {
                arrived: 51,
                ..SAID
            }
        )?,
        "later than now"
    );
    // 3 of the topic, 1 of the length, 2 of an indicator, 2 of a Subscription Identifier
    assert!(rt;
        judge_said(
            alloc,
            Said {
                payload: 199_992,
                ..SAID
            }
        )?,
        "200,000 bytes"
    );
    assert!(rt;
        !judge_said(
            alloc,
            Said {
                payload: 199_993,
                ..SAID
            }
        )?,
        "one more"
    );
    Ok(())
}

#[test]
fn what_a_will_says_is_a_message(rt: HostRuntime) -> Result<(), Fail> {
    let alloc = rt.alloc();
    assert!(rt;
        !judge_will(alloc, Said { topic: "", ..SAID })?,
        "no topic name"
    );
    assert!(rt;
        !judge_will(
            alloc,
            Said {
                indicators: 2,
                ..SAID
            }
        )?,
        "a property twice"
    );
    assert!(rt;
        judge_will(
            alloc,
            Said {
                payload: 199_994,
                ..SAID
            }
        )?,
        "200,000 bytes"
    );
    assert!(rt;
        !judge_will(
            alloc,
            Said {
                payload: 199_995,
                ..SAID
            }
        )?,
        "one more"
    );
    Ok(())
}

#[test]
fn a_topic_has_one_retained_message(rt: HostRuntime) -> Result<(), Fail> {
    let alloc = rt.alloc();
    assert!(rt; !judge_retained(alloc, SAID)?, "the same topic");
    assert!(rt;
        !judge_retained(alloc, Said { topic: "+", ..SAID })?,
        "no topic name"
    );
    assert!(rt;
        !judge_retained(
            alloc,
            Said {
                topic: "c",
                arrived: 51,
                ..SAID
            }
        )?,
        "later than now"
    );
    assert!(rt;
        !judge_retained(
            alloc,
            Said {
                topic: "c",
                indicators: 2,
                ..SAID
            }
        )?,
        "a property twice"
    );
    assert!(rt;
        !judge_retained(
            alloc,
            Said {
                topic: "c",
                payload: 200_000,
                ..SAID
            }
        )?,
        "its size"
    );
    Ok(())
}

#[test]
fn retained_messages_have_numbers(rt: HostRuntime) -> Result<(), Fail> {
    let alloc = rt.alloc();
    assert!(rt;
        !judge_retained_place(alloc, LAST_NUMBER + 1)?,
        "a place above the last"
    );
    assert!(rt;
        !judge_retained_publications(alloc, [1, 5])?,
        "not yet accepted"
    );
    assert!(rt;
        !judge_retained_publications(alloc, [0, 2])?,
        "no publication"
    );
    assert!(rt; !judge_closed(alloc, 51)?, "a close later than now");
    Ok(())
}

#[test]
fn what_is_said_of_one_publication_is_the_same(rt: HostRuntime) -> Result<(), Fail> {
    let alloc = rt.alloc();
    let also = Copied {
        publication: 4,
        ..SENT
    };
    assert!(rt; judge_second(alloc, also)?, "two copies of one publication");
    let earlier = Said {
        arrived: 49,
        ..SAID
    };
    assert!(rt;
        judge_second(
            alloc,
            Copied {
                content: earlier,
                ..also
            }
        )?,
        "that came to them at other moments"
    );
    for content in [
        Said {
            topic: "a/c",
            ..SAID
        },
        Said {
            indicators: 0,
            ..SAID
        },
        Said { payload: 3, ..SAID },
    ] {
        let other = Copied { content, ..also };
        assert!(rt;
            !judge_second(alloc, other)?,
            "topic, properties or payload"
        );
    }
    assert!(rt;
        judge_retained_publications(alloc, [4, 2])?,
        "a retained message alike"
    );
    assert!(rt;
        !judge_retained_publications(alloc, [1, 4])?,
        "and one that isn't"
    );
    assert!(rt;
        !judge_retained_publications(alloc, [2, 2])?,
        "two retained messages"
    );
    Ok(())
}
