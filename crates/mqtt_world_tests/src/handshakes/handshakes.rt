//! A publisher's handshakes from their first PUBLISH to their end (MQTT 5.0, 4.3.2, 4.3.3, 4.4).

use mqtt_world_ends::handshakes::{Assurance, Handshakes, Heard, Shake};
use std::alloc::{AllocError, Global};
use std::process::Abort;
use std::test::*;

/// A message goes out, if fewer than the Receive Maximum are in flight.
fn send(
    rt: &impl Abort,
    alloc: Global,
    handshakes: &mut Handshakes,
    assurance: Assurance,
    wanted: Shake,
) -> Result<(), AllocError> {
    let may = handshakes.may_send(alloc)?;
    assert!(rt; may, "there is room");
    let sent = handshakes.send(alloc, assurance)?;
    assert_eq!(rt; sent, wanted, "the first PUBLISH");
    Ok(())
}

/// One message of each level goes out.
fn send_two(rt: &impl Abort, alloc: Global, handshakes: &mut Handshakes) -> Result<(), AllocError> {
    let once = Shake::PublishOnce {
        identifier: 1,
        message: 0,
        dup: false,
    };
    send(rt, alloc, handshakes, Assurance::AtLeastOnce, once)?;
    let twice = Shake::PublishTwice {
        identifier: 2,
        message: 1,
        dup: false,
    };
    send(rt, alloc, handshakes, Assurance::ExactlyOnce, twice)
}

/// PUBREC comes for the second, and the session is resumed.
fn resume(rt: &impl Abort, alloc: Global, handshakes: &mut Handshakes) -> Result<(), AllocError> {
    assert!(rt; handshakes.is_released(2, 0), "its PUBREC is awaited");
    assert!(rt;
        !handshakes.is_released(2, 0x97),
        "a refusal releases nothing"
    );
    handshakes.hear(Heard::Pubrec {
        identifier: 2,
        code: 0,
    });
    assert!(rt; !handshakes.is_released(2, 0), "it was heard");
    let again = [
        Shake::PublishOnce {
            identifier: 1,
            message: 0,
            dup: true,
        },
        Shake::Pubrel { identifier: 2 },
    ];
    let resent = handshakes.resent(alloc)?;
    assert_eq!(rt; resent.as_slice(), again.as_slice(), "in order");
    Ok(())
}

/// The first ends, and its identifier is free; a new session forgets the others.
fn end(rt: &impl Abort, alloc: Global, handshakes: &mut Handshakes) -> Result<(), AllocError> {
    handshakes.hear(Heard::Puback {
        identifier: 1,
        code: 0,
    });
    let next = Shake::PublishTwice {
        identifier: 1,
        message: 2,
        dup: false,
    };
    send(rt, alloc, handshakes, Assurance::ExactlyOnce, next)?;
    handshakes.hear(Heard::Pubcomp { identifier: 2 });
    let left = handshakes.in_flight(alloc)?;
    assert_eq!(rt; left.as_slice(), [1].as_slice(), "the last alone");
    handshakes.hear(Heard::NewSession);
    let none = handshakes.resent(alloc)?;
    assert_eq!(rt; none.len(), 0, "forgotten");
    Ok(())
}

/// Two messages, a resumed session and a new one.
fn live(rt: &impl Abort, alloc: Global, handshakes: &mut Handshakes) -> Result<(), AllocError> {
    send_two(rt, alloc, handshakes)?;
    resume(rt, alloc, handshakes)?;
    end(rt, alloc, handshakes)
}

#[test]
fn handshakes_go_to_their_ends(rt: HostRuntime) -> Result<(), AllocError> {
    let mut handshakes = Handshakes::new(rt.alloc());
    let done = live(&rt, rt.alloc(), &mut handshakes);
    drop(handshakes);
    done
}
