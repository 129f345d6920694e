//! A call of the link that goes wrong changes no byte of another line (MQTT 5.0, 4.2).
use crate::turns::clients::{Call, Clients, Fault, Wrong};
use crate::turns::settled;
use crate::turns::turns::{CONNACK, PINGING, PINGRESP, are, play};
use mqtt_link::Commit;
use mqtt_serve::Links;
use std::alloc::Global;
use std::hash::RandomState;
use std::test::Fail;

/// Whether each client but the one whose call went wrong gets all its answers, and that one a beginning of them.
fn is_apart(clients: &Clients, place: usize) -> bool {
    let taken = clients.taken(place);
    if clients.failed() == Some(place) {
        return CONNACK.starts_with(taken)
            || are(taken, CONNACK, PINGRESP)
            || are(taken, CONNACK, &PINGRESP[..1]);
    }
    are(taken, CONNACK, PINGRESP)
}

/// What came of a call that goes wrong, where so many connections are left: whether no call did; and whether each other client is
/// served, and the connection of that client is lost if the call gave the end or a failure.
fn fared(clients: &Clients, left: usize, gives: Wrong) -> (bool, bool) {
    let is_lost = clients.failed().is_some() && gives != Wrong::Nothing;
    let is_apart = is_apart(clients, 0) && is_apart(clients, 1);
    (
        clients.is_well(),
        is_apart && left == if is_lost { 1 } else { 2 },
    )
}

/// What comes of a call that goes wrong in turns that store each step.
fn fails_alone(alloc: Global, hasher: RandomState, fault: Fault) -> Result<(bool, bool), Fail> {
    let clients = Clients::new(alloc, &PINGING, 7, Some(fault))?;
    let mut links = Links::new(alloc, clients)?;
    let done = play(&mut links, alloc, hasher, 30);
    let fared = fared(links.link(), links.len(), fault.gives);
    drop(links);
    done?;
    Ok(fared)
}

/// What comes of it in turns that are stored together, over a link that holds back what is written.
fn fails_held(alloc: Global, hasher: RandomState, fault: Fault) -> Result<(bool, bool), Fail> {
    let clients = Clients::new(alloc, &PINGING, 7, Some(fault))?;
    let links = settled::play(alloc, clients, Commit::Turn, hasher, 30)?;
    let fared = fared(links.link().link(), links.len(), fault.gives);
    drop(links);
    Ok(fared)
}

/// What comes of it in turns of either kind.
fn fails_apart(rt: &HostRuntime, fault: Fault, is_held: bool) -> Result<(bool, bool), Fail> {
    let hasher = RandomState::new(rt)?;
    if is_held {
        fails_held(rt.alloc(), hasher, fault)
    } else {
        fails_alone(rt.alloc(), hasher, fault)
    }
}

/// Which call of a kind is the first that changes another line, if one does; 200 if that many calls go wrong.
fn wrong_call(
    rt: &HostRuntime,
    call: Call,
    gives: Wrong,
    is_held: bool,
) -> Result<Option<usize>, Fail> {
    for number in 0..200 {
        let fault = Fault {
            call,
            number,
            gives,
        };
        let (is_well, is_right) = fails_apart(rt, fault, is_held)?;
        if !is_right {
            return Ok(Some(number));
        }
        if is_well {
            return Ok(None);
        }
    }
    Ok(Some(200))
}

#[test]
fn a_call_that_fails_changes_no_byte_of_another_line(rt: HostRuntime) -> Result<(), Fail> {
    for is_held in [false, true] {
        for call in [Call::Accept, Call::Read, Call::Write] {
            for gives in [Wrong::Nothing, Wrong::End, Wrong::Failure] {
                let wrong = wrong_call(&rt, call, gives, is_held)?;
                assert_eq!(rt; wrong, None, "{call:?} {gives:?}, held: {is_held}");
            }
        }
    }
    Ok(())
}
