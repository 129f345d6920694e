//! What a framer holds, gives, keeps and refuses (2.1).

ghost use Rattle.std.specs.Prelude.{◌<◌};

use bytes::Bytes;
use mqtt_base::PACKET_LIMIT;
use mqtt_packet::{Fault, Framer, Packet, PacketRef, Publish};
use std::alloc::Global;
use std::process::Abort;
use std::test::Fail;

/// Whether a framer holds so many bytes, the first of them at this place.
fn stands(framer: &Framer, held: usize, place: u64) -> bool {
    framer.held() == held && framer.place() == place
}

/// Whether a framer says that no packet is whole.
fn waits(framer: &mut Framer) -> bool {
    match framer.next() {
        Ok(None) => true,
        Ok(Some((packet, _))) => {
            drop(packet);
            false
        }
        Err(_) => false,
    }
}

/// The PUBLISH that a packet is.
fn publish_of(packet: Packet) -> Option<Publish> {
    match packet {
        Packet::Publish(publish) => Some(publish),
        other => {
            drop(other);
            None
        }
    }
}

/// Whether a framer gives a PUBLISH at this place, to this topic and with a payload of so many bytes.
fn is_next(framer: &mut Framer, place: u64, topic: &str, len: usize) -> bool {
    match framer.next() {
        Ok(Some((packet, found))) => match publish_of(packet) {
            Some(publish) => {
                let is = publish.topic.as_str() == topic && publish.payload.len() == len;
                drop(publish);
                is && found == place
            }
            None => false,
        },
        _ => false,
    }
}

/// The place of the PINGREQ that a framer gives.
fn next_pingreq(framer: &mut Framer) -> Option<u64> {
    match framer.next() {
        Ok(Some((packet, place))) => {
            let is_pingreq = matches!(&packet, Packet::Pingreq);
            drop(packet);
            if is_pingreq { Some(place) } else { None }
        }
        _ => None,
    }
}

/// The place of the PINGREQ that a framer has first, or the fault that stands there.
fn pingreq_first(framer: &Framer) -> Result<Option<u64>, (Fault, u64)> {
    match framer.look() {
        Ok(Some((packet, place))) => {
            let is_pingreq = matches!(&packet, PacketRef::Pingreq);
            drop(packet);
            Ok(if is_pingreq { Some(place) } else { None })
        }
        Ok(None) => Ok(None),
        Err(fault) => Err(fault),
    }
}

/// The bytes of a PUBLISH of 65,536 bytes, to the topic `a`.
fn greatest(alloc: Global) -> Result<Vec<u8>, Fail> {
    let mut bytes = Vec::from_slice(alloc, &[0x30, 0xfc, 0xff, 0x03, 0, 1, 0x61, 0])?;
    bytes.resize(65_536, 0x7a)?;
    Ok(bytes)
}

/// Before each piece no packet is whole, and each is taken to its end.
fn assert_fed(rt: &impl Abort, framer: &mut Framer, bytes: &[u8], step: usize)
    requires { 0 < step }
{
    for piece in bytes.chunks(step) {
        assert!(rt; waits(framer), "no packet is whole, in pieces of {step}");
        assert!(rt;
            framer.feed(piece) == Ok(piece.len()),
            "in pieces of {step}"
        );
    }
}

#[test]
fn the_greatest_packet_is_read(rt: HostRuntime) -> Result<(), Fail> {
    let bytes = greatest(rt.alloc())?;
    assert!(rt; bytes.len() == PACKET_LIMIT);
    for step in [1, 4096, 65_536] {
        let mut framer = Framer::new(rt.alloc());
        assert_fed(&rt, &mut framer, bytes.as_slice(), step);
        assert!(rt; is_next(&mut framer, 0, "a", 65_528));
        assert!(rt; stands(&framer, 0, 65_536));
        drop(framer);
    }
    drop(bytes);
    Ok(())
}

#[test]
fn a_full_framer_takes_no_more(rt: HostRuntime) -> Result<(), Fail> {
    let bytes = greatest(rt.alloc())?;
    let mut framer = Framer::new(rt.alloc());
    assert!(rt; framer.feed(&[0xc0, 0]) == Ok(2), "two bytes fit");
    assert!(rt; framer.feed(bytes.as_slice()) == Ok(65_534));
    assert!(rt; framer.feed(&[0x61]) == Ok(0), "nothing fits");
    Ok(())
}

/// A fault stands behind the packet before it, however often it is asked for.
fn assert_fault_stands(rt: &impl Abort, framer: &mut Framer, fault: (Fault, u64)) {
    assert!(rt; pingreq_first(framer) == Ok(Some(0)));
    assert!(rt; next_pingreq(framer) == Some(0));
    assert!(rt; pingreq_first(framer) == Err(fault));
    assert!(rt; framer.feed(&[0]) == Err(fault), "the fault stands first");
    assert!(rt; framer.held() == 3, "three bytes are held");
}

#[test]
fn a_fault_stands_until_it_is_given_back(rt: HostRuntime) {
    let mut framer = Framer::new(rt.alloc());
    // A PINGREQ, and one that has a body.
    assert!(rt; framer.feed(&[0xc0, 0, 0xc0, 1, 0]) == Ok(5));
    assert_fault_stands(&rt, &mut framer, (Fault::Malformed, 2));
    assert!(rt; framer.held() == 3);
    framer.give_back(2);
    assert!(rt; stands(&framer, 1, 2));
    assert!(rt; waits(&mut framer), "one byte waits");
    assert!(rt; framer.feed(&[0]) == Ok(1), "no fault stands");
    assert!(rt; next_pingreq(&mut framer) == Some(2));
    drop(framer);
}

/// Whether a packet that was given is the PUBLISH of `!` to `a/b`.
fn is_worked_publish(packet: Packet) -> bool {
    let found = match &packet {
        Packet::Publish(publish) => {
            publish.topic.as_str() == "a/b" && publish.payload.as_slice() == b"!".as_slice()
        }
        _ => false,
    };
    drop(packet);
    found
}

/// The stream is taken, at once or after a growth that was refused, by which nothing is held.
fn assert_taken(rt: &impl Abort, framer: &mut Framer) {
    for _ in 0..2 {
        match framer.feed(&STREAM) {
            Ok(taken) => {
                assert!(rt; taken == 11);
                return;
            }
            Err(refused) => {
                assert!(rt; refused == (Fault::Memory, 0));
                assert!(rt; framer.held() == 0);
            }
        }
    }
}

/// Whether a framer gives the worked PUBLISH, at 2; a PINGREQ may come at 0, and after a growth that
/// was refused the framer is as it was.
fn is_publish_given(rt: &impl Abort, framer: &mut Framer) -> bool {
    let (held, at) = (framer.held(), framer.place());
    match framer.next() {
        Ok(Some((packet, place))) => {
            let is_publish = is_worked_publish(packet);
            assert!(rt; place == if is_publish { 2 } else { 0 });
            is_publish
        }
        Ok(None) => false,
        Err(refused) => {
            assert!(rt; refused == (Fault::Memory, at));
            assert!(rt; stands(framer, held, at));
            false
        }
    }
}

/// The same with the Nth growth refused: after want of memory the framer is as it was.
#[test]
fn after_want_of_memory_the_framer_is_as_it_was(rt: HostRuntime) {
    let mut framer = Framer::new(rt.alloc());
    assert_taken(&rt, &mut framer);
    let mut is_given = false;
    for _ in 0..4 {
        if is_publish_given(&rt, &mut framer) {
            is_given = true;
        }
    }
    drop(framer);
    assert!(rt; is_given);
}

/// A PINGREQ, and the PUBLISH of `!` to `a/b`.
const STREAM: [u8; 11] = [0xc0, 0, 0x30, 7, 0, 3, 0x61, 0x2f, 0x62, 0, 0x21];

/// The place and the size of the packet that a framer has first, lent.
fn looked(framer: &Framer) -> Result<Option<(u64, usize)>, (Fault, u64)> {
    match framer.look_sized() {
        Ok(Some((packet, place, size))) => {
            drop(packet);
            Ok(Some((place, size)))
        }
        Ok(None) => Ok(None),
        Err(refusal) => Err(refusal),
    }
}

/// The place and the size of the packet that a framer has first, in memory of its own.
fn first_of(framer: &mut Framer) -> Result<Option<(u64, usize)>, (Fault, u64)> {
    match framer.first() {
        Ok(Some((packet, place, size))) => {
            drop(packet);
            Ok(Some((place, size)))
        }
        Ok(None) => Ok(None),
        Err(refusal) => Err(refusal),
    }
}

/// The packet that a framer has first stands at this place and has this size, lent and in memory of
/// its own, however often it is asked for.
fn assert_first(rt: &impl Abort, framer: &mut Framer, first: Option<(u64, usize)>) {
    let want = Ok(first);
    assert!(rt; framer.is_whole() == first.is_some());
    assert!(rt; looked(framer) == want);
    assert!(rt; first_of(framer) == want);
    assert!(rt; first_of(framer) == want, "again");
    assert!(rt; looked(framer) == want, "again");
}

#[test]
fn what_is_given_first_stays_until_it_is_skipped(rt: HostRuntime) {
    let mut framer = Framer::new(rt.alloc());
    assert!(rt; framer.feed(&STREAM) == Ok(11));
    for (place, size, left) in [(0, 2, 11), (2, 9, 9)] {
        assert_first(&rt, &mut framer, Some((place, size)));
        assert!(rt; stands(&framer, left, place));
        framer.skip(size);
    }
    assert_first(&rt, &mut framer, None);
    assert!(rt; stands(&framer, 0, 11));
    drop(framer);
}

/// Fronts of a stream, each with whether a packet, or a fault, stands there (2.1.4).
fn fronts() -> &'static [(&'static [u8], bool)] {
    &[
        (&[], false),
        (&[0xc0], false),
        (&[0xc0, 0], true),
        // A first byte that is wrong is a fault by itself.
        (&[0xc1], true),
        // A Remaining Length that goes on, and one of two bytes that ends in 00 (1.5.5).
        (&[0xc0, 0x80], false),
        (&[0xc0, 0x80, 0], true),
        (b"\x30\x07\x00\x03a/b\x00", false),
        (b"\x30\x07\x00\x03a/b\x00!", true),
        // An empty topic without a Topic Alias (3.3.2.1): the frame is whole, and a fault.
        (&[0x30, 4, 0, 0, 0], false),
        (&[0x30, 4, 0, 0, 0, 0x21], true),
        // 65,537 bytes are one too many, 65,536 are awaited.
        (&[0x30, 0xfd, 0xff, 0x03], true),
        (&[0x30, 0xfc, 0xff, 0x03], false),
    ]
}

#[test]
fn the_fixed_header_tells_whether_anything_is_whole(rt: HostRuntime) {
    for (bytes, is_whole) in fronts() {
        let mut framer = Framer::new(rt.alloc());
        assert!(rt; framer.feed(bytes) == Ok(bytes.len()));
        assert!(rt; framer.is_whole() == *is_whole, "{bytes:?}");
        drop(framer);
    }
}

#[test]
fn no_more_is_skipped_than_is_held(rt: HostRuntime) {
    let mut framer = Framer::new(rt.alloc());
    framer.skip(1);
    assert!(rt; stands(&framer, 0, 0));
    assert!(rt; framer.feed(&STREAM) == Ok(11));
    framer.skip(3);
    assert!(rt; stands(&framer, 8, 3));
    framer.skip(usize::MAX);
    assert!(rt; stands(&framer, 0, 11));
    drop(framer);
}

/// The payload of the PUBLISH that a framer has first.
fn payload_of(framer: &mut Framer) -> Option<Bytes> {
    match framer.first() {
        Ok(Some((packet, _, _))) => match publish_of(packet) {
            Some(publish) => {
                let Publish { payload, .. } = publish;
                Some(payload)
            }
            None => None,
        },
        _ => None,
    }
}

/// What follows the worked PUBLISH is held beside it, and is given whole.
fn assert_next_is_whole(rt: &impl Abort, framer: &mut Framer) {
    assert!(rt; framer.feed(&[0x31]) == Ok(1));
    assert!(rt; looked(framer) == Ok(Some((2, 9))));
    framer.skip(9);
    assert!(rt; framer.feed(&[5, 0, 2, 0x61, 0x62, 0]) == Ok(6));
    assert!(rt; looked(framer) == Ok(Some((11, 7))));
    assert!(rt; is_next(framer, 11, "ab", 0));
    assert!(rt; framer.held() == 0);
}

#[test]
fn a_shared_payload_stays_as_it_is(rt: HostRuntime) {
    let mut framer = Framer::new(rt.alloc());
    assert!(rt; framer.feed(&STREAM) == Ok(11));
    framer.skip(2);
    let payload = payload_of(&mut framer).expect(&rt, "a PUBLISH is given");
    assert_next_is_whole(&rt, &mut framer);
    let is_same = payload.as_slice() == b"!".as_slice();
    drop(payload);
    drop(framer);
    assert!(rt; is_same);
}

#[test]
fn a_fault_stands_before_each_call(rt: HostRuntime) {
    let malformed = (Fault::Malformed, 2);
    let mut framer = Framer::new(rt.alloc());
    assert!(rt; framer.feed(&[0xc0, 0, 0xc1]) == Ok(3));
    framer.skip(2);
    assert!(rt; framer.is_whole(), "the fault");
    assert!(rt; looked(&framer) == Err(malformed));
    assert!(rt; first_of(&mut framer) == Err(malformed));
    framer.skip(1);
    assert!(rt; looked(&framer) == Ok(None));
}

/// The PUBLISH at 2 is found, or memory is wanting, and it is held after both.
fn assert_first_or_refused(rt: &impl Abort, framer: &mut Framer) {
    let found = first_of(framer);
    assert!(rt; found == Ok(Some((2, 9))) || found == Err((Fault::Memory, 2)));
    assert!(rt; stands(framer, 9, 2));
}

/// The same with the Nth growth refused: what was found and then refused is held as before.
#[test]
fn after_want_of_memory_the_first_packet_is_held(rt: HostRuntime) {
    let mut framer = Framer::new(rt.alloc());
    for _ in 0..2 {
        if framer.feed(&STREAM) == Ok(11) {
            break;
        }
    }
    framer.skip(2);
    for _ in 0..4 {
        assert_first_or_refused(&rt, &mut framer);
    }
    assert_first(&rt, &mut framer, Some((2, 9)));
    drop(framer);
}
