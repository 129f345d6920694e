//! A CONNECT and half a PINGREQ in three pieces (MQTT 5.0, 2.1, 3.1, 3.12).

use mqtt_base::Text;
use mqtt_world_ends::strangers::Strangers;
use std::alloc::AllocError;
use std::process::Abort;
use std::test::*;

/// CONNECT of the client `a`, with Clean Start (3.1), and then the first byte of PINGREQ (3.12).
const SENT: [u8; 17] = [
    0x10, 14, 0, 4, b'M', b'Q', b'T', b'T', 5, 2, 0, 0, 0, 0, 1, b'a', 0xC0,
];

/// Whether what was given is what is wanted.
fn is_given(given: Option<&[u8]>, wanted: Option<&[u8]>) -> bool {
    match (given, wanted) {
        (None, None) => true,
        (Some(given), Some(wanted)) => given == wanted,
        (None, Some(_)) | (Some(_), None) => false,
    }
}

/// The next piece of these bytes has so many of them, and this is given to the broker.
fn comes(
    rt: &impl Abort,
    strangers: &mut Strangers,
    bytes: &[u8],
    taken: usize,
    wanted: Option<&[u8]>,
) -> Result<(), AllocError> {
    let piece = strangers.come("s", bytes)?;
    let is_taken = piece.taken == taken;
    let is_right = match &piece.given {
        None => is_given(None, wanted),
        Some(given) => is_given(Some(given.as_slice()), wanted),
    };
    drop(piece);
    assert!(rt; is_taken, "so many bytes are taken");
    assert!(rt; is_right, "what is whole is given");
    Ok(())
}

/// So many clients are named when these bytes have come, each of them `a`.
fn names(
    rt: &impl Abort,
    strangers: &Strangers,
    bytes: &[u8],
    wanted: usize,
) -> Result<(), AllocError> {
    let names = strangers.names_in("s", bytes)?;
    let count = names.len();
    let is_known = names.iter().all(|name| name.as_str() == "a");
    drop(names);
    assert_eq!(rt; count, wanted, "so many are named");
    assert!(rt; is_known, "the client that is named");
    Ok(())
}

/// The bytes of a stranger come in pieces; with a fault all of them are taken.
fn come_all(rt: &impl Abort, strangers: &mut Strangers) -> Result<(), AllocError> {
    names(rt, strangers, &SENT[..5], 0)?;
    comes(rt, strangers, &SENT[..5], 5, None)?;
    names(rt, strangers, &SENT[5..], 1)?;
    comes(rt, strangers, &SENT[5..], 11, Some(&SENT[..16]))?;
    comes(rt, strangers, &SENT[16..], 1, None)?;
    comes(rt, strangers, &[0, 0xC0, 0], 1, Some(&[0xC0, 0]))?;
    comes(rt, strangers, &[0, 1, 2], 3, Some(&[0, 1, 2]))
}

/// A stranger comes, sends, and is left without a line by a restart.
fn lives(rt: &impl Abort, strangers: &mut Strangers) -> Result<(), AllocError> {
    come_all(rt, strangers)?;
    comes(rt, strangers, &[0xC0], 1, None)?;
    strangers.restart();
    assert!(rt; strangers.has("s"), "it is still there");
    assert!(rt; strangers.number("s").is_none(), "without a line");
    names(rt, strangers, &SENT, 1)
}

#[test]
fn bytes_come_packet_by_packet(rt: HostRuntime) -> Result<(), AllocError> {
    let alloc = rt.alloc();
    if !Text::may_hold("s") {
        return Err(AllocError);
    }
    let name = Text::new(alloc, "s")?;
    let mut strangers = Strangers::new(alloc);
    let done = match strangers.begin(name, Some(7)) {
        Ok(()) => lives(&rt, &mut strangers),
        Err(error) => Err(error),
    };
    drop(strangers);
    done
}
