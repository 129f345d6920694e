//! Sockets that a turn may wait on, all at once, and of which it asks those alone that may be ready (MQTT 5.0, 4.2).
use crate::link::{Got, Link};
use crate::sockets::got;
use mio::net::{TcpListener, TcpStream};
use mio::{Events, Interest, Poll, Token};
use std::alloc::Global;
use std::io;
use std::io::{ErrorKind, Read, Write};
use std::net::{Net, SocketAddr};
use std::time::Duration;

/// How many changes of sockets one look may tell of. Those above it are told at the next.
const EVENTS: usize = 64;

/// How many tokens connections share, in turn (ours). Of two connections under one token both are asked once one is ready.
const TOKENS: usize = 1024;

/// The listener's token.
const LISTENER: usize = TOKENS;

/// How long a wait takes in the kernel at most, in milliseconds, if the wait before it ended by a change of a socket (ours).
const WAIT: u64 = 10;

/// The most that it takes (ours). Each wait in which no socket changed lets the next take twice as long.
const LONGEST_WAIT: u64 = 80;

/// How often the kernel has told of connections under a token, modulo 2^64.
#[derive(Clone, Copy)]
struct Told {
    /// That one is to be read.
    to_read: u64,
    /// That one is to be written to.
    to_write: u64,
    /// That one failed or is closed.
    over: u64,
}

/// What is told of a token before the kernel has told anything.
const NEVER: Told = Told {
    to_read: 0,
    to_write: 0,
    over: 0,
};

/// A connection. Once a call would have waited, or a read had room for more than came, none is made until the kernel tells of its
/// token again.
#[derive(Drop)]
pub struct Socket {
    token: usize,
    /// How often its token had been told when all was read that was there.
    read_at: Option<u64>,
    /// How often it had been told when a write would have waited.
    written_at: Option<u64>,
    /// How often its token had been told to be over when it came.
    over_at: u64,
    stream: TcpStream,
    address: SocketAddr,
}

/// A listening socket and its connections, registered with the kernel.
#[derive(Drop)]
pub struct PollLink {
    listener: TcpListener,
    poll: Poll,
    events: Events,
    /// By token.
    told: Vec<Told>,
    /// Whether the last look told of a token, by token.
    is_fresh: Vec<bool>,
    /// The token of the next connection.
    next: usize,
    /// The listener may have a connection.
    may_come: bool,
    /// The kernel was looked at since the last turn.
    has_looked: bool,
    /// The last look failed, so that any socket may be ready.
    is_blind: bool,
    /// A connection has come or ended since the last wait, or something is to go out: what that brings is not to wait.
    is_hurried: bool,
    /// How long the next wait takes at most, in milliseconds.
    pause: u64,
}

/// Whether a call would have waited.
fn would_wait(count: &io::Result<usize>) -> bool {
    match count {
        Ok(_) => false,
        Err(fault) => matches!(fault.kind(), ErrorKind::WouldBlock),
    }
}

/// Whether that is the end of a connection, by either side.
fn is_end(given: &Got<usize>) -> bool {
    matches!(given, Got::End | Got::Failure)
}

impl PollLink {
    /// Listens at an address; port 0 is any that is free.
    pub fn bind(net: &impl Net, alloc: Global, address: SocketAddr) -> io::Result<PollLink> {
        let mut listener = TcpListener::bind(net, address)?;
        let poll = Poll::new(net)?;
        let events = Events::with_capacity(alloc, EVENTS)?;
        let told = Vec::from_elem(alloc, NEVER, TOKENS)?;
        let is_fresh = Vec::from_elem(alloc, false, TOKENS)?;
        poll.registry()
            .register(&mut listener, Token(LISTENER), Interest::READABLE)?;
        Ok(PollLink {
            listener,
            poll,
            events,
            told,
            is_fresh,
            next: 0,
            may_come: true,
            has_looked: false,
            is_blind: false,
            is_hurried: false,
            pause: WAIT,
        })
    }

    /// The address at which it listens, with its port.
    pub fn address(&self) -> io::Result<SocketAddr> {
        self.listener.local_addr()
    }

    /// Looks which sockets are ready, and waits so many milliseconds for one to be.
    fn look(&mut self, limit: u64) {
        let limit = Some(Duration::from_millis(limit));
        self.is_blind = self.poll.poll(&mut self.events, limit).is_err();
        self.has_looked = true;
        self.is_fresh.fill(false);
        for event in self.events.iter() {
            let Token(token) = event.token();
            // A connection that fails or is closed is told by the call that finds it so.
            let is_over = event.is_error() || event.is_read_closed() || event.is_write_closed();
            if token == LISTENER {
                self.may_come = true;
            } else if let (Some(told), Some(is_fresh)) = (
                self.told.get_mut(token),
                self.is_fresh.get_mut(token),
            ) {
                *is_fresh = true;
                if is_over {
                    told.over = told.over.wrapping_add(1);
                }
                if is_over || event.is_readable() {
                    told.to_read = told.to_read.wrapping_add(1);
                }
                if is_over || event.is_writable() {
                    told.to_write = told.to_write.wrapping_add(1);
                }
            }
        }
    }

    /// How often a token was told.
    fn told_of(&self, token: usize) -> Told {
        match self.told.get(token) {
            Some(told) => *told,
            None => NEVER,
        }
    }

    /// Takes a connection in. Others may have come with it, so the next wait takes no time.
    fn register(&mut self, mut stream: TcpStream, address: SocketAddr) -> Got<Socket> {
        self.is_hurried = true;
        // A socket that has no such option serves as well, later.
        let _ = stream.set_nodelay(true);
        let both = Interest::READABLE | Interest::WRITABLE;
        let token = self.next;
        self.next = if token < TOKENS - 1 { token + 1 } else { 0 };
        match self
            .poll
            .registry()
            .register(&mut stream, Token(token), both)
        {
            Ok(()) => Got::Given(Socket {
                token,
                read_at: None,
                written_at: None,
                over_at: self.told_of(token).over,
                stream,
                address,
            }),
            Err(_) => Got::Failure,
        }
    }
}

impl Link for PollLink {
    type Peer = Socket;

    fn accept(&mut self) -> Got<Socket> {
        // A turn begins here: it looks, unless the turn before has waited.
        if !self.has_looked {
            self.look(0);
        }
        self.has_looked = false;
        if !self.may_come && !self.is_blind {
            return Got::Nothing;
        }
        let (stream, address) = match self.listener.accept() {
            Ok(came) => came,
            Err(fault) => {
                return match fault.kind() {
                    ErrorKind::WouldBlock => {
                        self.may_come = false;
                        Got::Nothing
                    }
                    ErrorKind::Interrupted => Got::Nothing,
                    _ => Got::Failure,
                };
            }
        };
        self.register(stream, address)
    }

    fn address(&self, peer: &Socket) -> Option<SocketAddr> {
        Some(peer.address)
    }

    fn may_give(&self, peer: &Socket) -> bool {
        self.is_blind || peer.read_at != Some(self.told_of(peer.token).to_read)
    }

    fn key(&self, peer: &Socket) -> usize {
        peer.token
    }

    fn is_told(&self, key: usize) -> bool {
        self.is_blind || self.is_fresh.get(key).copied().unwrap_or(true)
    }

    /// Waits until a socket changes or the time is up; not at all where it is hurried. A wait that fails is none. While
    /// no socket changes the clock has its turns in ever longer steps, up to 80 ms.
    fn wait(&mut self) {
        let limit = if self.is_hurried { 0 } else { self.pause };
        self.is_hurried = false;
        self.look(limit);
        self.pause = if limit == 0 || !self.events.is_empty() {
            WAIT
        } else {
            limit.saturating_mul(2).min(LONGEST_WAIT)
        };
    }

    fn hurry(&mut self) {
        self.is_hurried = true;
    }

    fn read(&mut self, peer: &mut Socket, buffer: &mut [u8]) -> Got<usize> {
        if !self.may_give(peer) {
            return Got::Nothing;
        }
        let told = self.told_of(peer.token);
        let count = peer.stream.read(buffer);
        let is_drained = match &count {
            // What ended it is told behind the bytes that came.
            Ok(came) => *came < buffer.len() && told.over == peer.over_at,
            Err(_) => would_wait(&count),
        };
        peer.read_at = if is_drained { Some(told.to_read) } else { None };
        let given = got(count);
        self.is_hurried |= is_end(&given);
        given
    }

    fn write(&mut self, peer: &mut Socket, bytes: &[u8]) -> Got<usize> {
        let told = self.told_of(peer.token).to_write;
        if peer.written_at == Some(told) && !self.is_blind {
            return Got::Nothing;
        }
        let count = peer.stream.write(bytes);
        peer.written_at = if would_wait(&count) { Some(told) } else { None };
        let given = got(count);
        self.is_hurried |= is_end(&given);
        given
    }
}
