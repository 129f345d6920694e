//! Sockets of this machine.
use crate::net_link::NetLink;
use mqtt_link::{Got, Link, Waiting};
use std::io::{Read, Write};
use std::net::{Ipv4Addr, OpenStream, SocketAddr, TcpStream};
use std::test::Fail;

#[test]
fn bytes_go_both_ways_and_no_call_waits(rt: HostRuntime) -> Result<(), Fail> {
    let any = SocketAddr::from((Ipv4Addr::LOCALHOST, 0));
    let mut link = NetLink::bind(&rt, any)?;
    assert!(rt; matches!(link.accept(), Got::Nothing));
    let mut client = TcpStream::connect(&rt, link.address()?)?;
    let mut accepted = None;
    for _ in 0..1000 {
        if let Got::Given(peer) = link.accept() {
            accepted = Some(peer);
            break;
        }
    }
    let mut peer = accepted.ok_or("nobody came")?;
    let mut buffer = [0_u8; 8];
    assert!(rt; link.read(&mut peer, &mut buffer) == Got::Nothing);
    client.write_all(b"ping")?;
    let mut got = Got::Nothing;
    for _ in 0..1000 {
        got = link.read(&mut peer, &mut buffer);
        if got != Got::Nothing {
            break;
        }
    }
    assert!(rt; got == Got::Given(4));
    assert_eq!(rt; &buffer[..4], b"ping".as_slice());
    let mut waiting = Waiting::new(rt.alloc());
    waiting.push(b"pong")?;
    assert!(rt; waiting.write(&mut link, &mut peer));
    let mut answer = [0_u8; 4];
    client.read_exact(&mut answer)?;
    assert_eq!(rt; answer.as_slice(), b"pong".as_slice());
    drop(client);
    let mut end = Got::Nothing;
    for _ in 0..1000 {
        end = link.read(&mut peer, &mut buffer);
        if end != Got::Nothing {
            break;
        }
    }
    assert!(rt; end == Got::End);
    Ok(())
}
