//! Bytes that wait to go out.
use crate::link::memory::{MemoryLink, MemoryPeer};
use mqtt_link::{Got, Link, Waiting, WaitingFault};
use std::test::Fail;

#[test]
fn what_a_short_write_left_goes_out_later(rt: HostRuntime) -> Result<(), Fail> {
    let alloc = rt.alloc();
    let mut link = MemoryLink::new();
    let mut peer = MemoryPeer::new(alloc, b"", 2)?;
    let mut waiting = Waiting::new(alloc);
    waiting.push(b"ab")?;
    waiting.push(b"c")?;
    assert!(rt; waiting.write(&mut link, &mut peer));
    assert!(rt; waiting.len() == 1);
    assert_eq!(rt; peer.taken(), b"ab".as_slice());
    assert!(rt; waiting.write(&mut link, &mut peer));
    assert!(rt; waiting.is_empty());
    assert_eq!(rt; peer.taken(), b"abc".as_slice());
    assert!(rt; waiting.write(&mut link, &mut peer));
    Ok(())
}

#[test]
fn a_failed_write_keeps_what_waits(rt: HostRuntime) -> Result<(), Fail> {
    let alloc = rt.alloc();
    let mut link = MemoryLink::new();
    let mut peer = MemoryPeer::new(alloc, b"", 0)?;
    let mut waiting = Waiting::new(alloc);
    waiting.push(b"abc")?;
    assert!(rt; !waiting.write(&mut link, &mut peer));
    assert!(rt; peer.has_ended());
    let mut other = MemoryPeer::new(alloc, b"", 9)?;
    assert!(rt; waiting.write(&mut link, &mut other));
    assert_eq!(rt; other.taken(), b"abc".as_slice());
    Ok(())
}

#[test]
fn at_most_a_mebibyte_waits(rt: HostRuntime) -> Result<(), Fail> {
    let alloc = rt.alloc();
    let mut waiting = Waiting::new(alloc);
    let block = Vec::from_elem(alloc, 7_u8, 1_048_576)?;
    waiting.push(&block)?;
    waiting.push(b"")?;
    assert!(rt; waiting.push(b"a") == Err(WaitingFault::Full));
    assert!(rt; WaitingFault::Full as u8 == 1);
    assert!(rt; WaitingFault::Memory as u8 == 2);
    Ok(())
}

#[test]
fn a_read_gives_what_came(rt: HostRuntime) -> Result<(), Fail> {
    let alloc = rt.alloc();
    let mut link = MemoryLink::new();
    let mut peer = MemoryPeer::new(alloc, b"abc", 2)?;
    let mut buffer = [0_u8; 4];
    assert!(rt; link.read(&mut peer, &mut buffer) == Got::Given(2));
    assert!(rt; link.read(&mut peer, &mut buffer) == Got::Given(1));
    assert!(rt; buffer[0] == b'c');
    assert!(rt; link.read(&mut peer, &mut buffer) == Got::Nothing);
    assert!(rt; matches!(link.accept(), Got::Nothing));
    link.wait();
    assert!(rt; peer.reads() == 3 && link.accepts() == 1 && link.waits() == 1);
    assert!(rt; peer.room() == 4 && !peer.has_ended());
    Ok(())
}
