//! Clients at sockets of this machine, in one thread with the broker (MQTT 5.0, 4.2, 4.3.3).

use crate::net_link::NetLink;
use crate::turns::clients::Stage;
use crate::turns::turns::{CONNACK, LIMITS, PUBLISHED, PUBLISHER, SUBSCRIBED, SUBSCRIBER, are};
use mqtt_broker::Engine;
use mqtt_keep::{Keep, MemKeep};
use mqtt_link::{Got, got};
use mqtt_serve::{Links, serve_turn};
use std::hash::RandomState;
use std::io;
use std::io::{Read, Write};
use std::net::{Ipv4Addr, OpenStream, SocketAddr, TcpStream};
use std::test::Fail;

/// A client: what it sends once so many bytes have come to it, how far it is, and what came.
#[derive(Drop)]
struct Caller {
    stream: TcpStream,
    stages: &'static [Stage],
    stage: usize,
    taken: Vec<u8>,
}

/// A client connects, and its reads don't wait.
fn call(rt: &HostRuntime, at: SocketAddr, stages: &'static [Stage]) -> io::Result<Caller> {
    let stream = TcpStream::connect(rt, at)?;
    stream.set_nonblocking(true)?;
    Ok(Caller {
        stream,
        stages,
        stage: 0,
        taken: Vec::new(rt.alloc()),
    })
}

impl Caller {
    /// Takes what has come. Whether the connection stands.
    fn take(&mut self) -> bool {
        let mut buffer = [0_u8; 64];
        match got(self.stream.read(&mut buffer)) {
            Got::Given(count) => {
                let came = buffer.get(..count).unwrap_or(&[]);
                self.taken.extend_from_slice(came).is_ok()
            }
            Got::Nothing => true,
            Got::End | Got::Failure => false,
        }
    }

    /// Sends what is due. Whether it went out.
    fn send(&mut self) -> bool {
        match self.stages.get(self.stage) {
            Some((after, bytes)) if self.taken.len() >= *after => {
                self.stage = self.stage.saturating_add(1);
                self.stream.write_all(bytes).is_ok()
            }
            _ => true,
        }
    }
}

/// So many turns of the broker, a millisecond each, with turns of the clients before them. Whether all went well.
fn turns<K: Keep>(
    links: &mut Links<NetLink<HostRuntime>>,
    engine: &mut Engine<K>,
    callers: &mut [Caller],
    count: u64,
) -> bool {
    for moment in 0..count {
        for caller in callers.iter_mut() {
            if !caller.take() || !caller.send() {
                return false;
            }
        }
        if serve_turn(links, engine, moment).is_err() {
            return false;
        }
    }
    true
}

/// The same over a broker that begins with nothing.
fn play(
    rt: &HostRuntime,
    links: &mut Links<NetLink<HostRuntime>>,
    callers: &mut [Caller],
    count: u64,
) -> Result<bool, Fail> {
    let (alloc, hasher) = (rt.alloc(), RandomState::new(rt)?);
    let Ok(mut engine) = Engine::open(alloc, MemKeep::new(alloc)?, 0, LIMITS, hasher) else {
        return Err(Fail::from("the broker can't be opened"));
    };
    let done = turns(links, &mut engine, callers, count);
    drop(engine.close());
    Ok(done)
}

/// A subscriber and a publisher connect.
fn call_both(rt: &HostRuntime, at: SocketAddr) -> io::Result<[Caller; 2]> {
    let subscriber = call(rt, at, SUBSCRIBER)?;
    match call(rt, at, PUBLISHER) {
        Ok(publisher) => Ok([subscriber, publisher]),
        Err(error) => {
            drop(subscriber);
            Err(error)
        }
    }
}

/// Whether both have all that they are to be sent, within so many turns.
fn are_served(
    rt: &HostRuntime,
    links: &mut Links<NetLink<HostRuntime>>,
    count: u64,
) -> Result<bool, Fail> {
    let mut callers = call_both(rt, links.link().address()?)?;
    let done = play(rt, links, &mut callers, count);
    let [subscriber, publisher] = &callers;
    let is_received = are(&subscriber.taken, CONNACK, SUBSCRIBED);
    let is_published = are(&publisher.taken, CONNACK, PUBLISHED);
    drop(callers);
    Ok(done? && is_received && is_published)
}

#[test]
fn both_handshakes_are_done_within_sixty_turns_over_sockets(rt: HostRuntime) -> Result<(), Fail> {
    let any = SocketAddr::from((Ipv4Addr::LOCALHOST, 0));
    let mut links = Links::new(rt.alloc(), NetLink::bind(&rt, any)?)?;
    let served = are_served(&rt, &mut links, 60);
    drop(links);
    assert!(rt; served?);
    Ok(())
}
