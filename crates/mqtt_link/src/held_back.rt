//! A link whose connections hold back what is written to them until it is let go, and can be left unread (MQTT 5.0, 4.2).
ghost use Rattle.std.specs.Prelude.{◌≡◌, length, true, false};
ghost use Rattle.mqtt_link.specs.Links.{GivesAtMost, and_then, ended_by, ended_unless, handed, now_told, one_more, one_more_if_any};

use crate::link::{Got, Link};
use crate::waiting::Waiting;
use std::alloc::Global;
use std::net::SocketAddr;

/// A connection, with what was written to it and is held back.
#[derive(Drop)]
pub struct HeldPeer<L: Link> {
    /// Whether not all that was let go last went out.
    is_stuck: bool,
    /// Whether it is left unread.
    is_unread: bool,
    peer: L::Peer,
    held: Waiting,
    /// How often it was read, or left unread instead, modulo 2^64.
    reads: u64,
    /// For how many bytes the last read of it had room.
    room: usize,
}

/// A link in front of a link. What is written to a connection is taken at once, and goes out when it is let go; nothing is
/// taken while not all went out that was let go before. A read of a connection that is left unread gives nothing.
#[derive(Drop)]
pub struct HeldBack<L: Link + Drop> {
    alloc: Global,
    link: L,
}

impl<L: Link> HeldPeer<L> {
    /// How many bytes are held back. Takes no memory.
    pub fn held(&self) -> usize
        ensures { result ≡ length self.now.held }
    {
        self.held.len()
    }

    /// It is left unread from now on, or read again. Whether that changed. Takes no memory.
    pub fn leave_unread(&mut self, unread: bool) -> bool
        ensures unread { self.new ≡ record self.old { is_unread = unread } }
        ensures changed { result ≡ false → self.old.is_unread ≡ unread }
    {
        let changed = self.is_unread != unread;
        self.is_unread = unread;
        changed
    }
}

impl<L: Link + Drop> HeldBack<L> {
    /// In front of a link. Takes no memory.
    pub fn new(alloc: Global, link: L) -> HeldBack<L>
        ensures { result.link ≡ link }
    {
        HeldBack { alloc, link }
    }

    /// The link.
    pub fn link(&self) -> &L {
        &self.link
    }

    /// Whether something may have come on a connection, be it left unread or not.
    pub fn has_come(&self, peer: &HeldPeer<L>) -> bool {
        self.link.may_give(&peer.peer)
    }

    /// What is held back goes out, by one write, if anything is; what the connection didn't take is held on. False if the
    /// connection ended or failed. Takes no memory.
    pub fn let_go(&mut self, peer: &mut HeldPeer<L>) -> bool
        ensures moved { and_then (L.written peer.new.peer) peer.new.held ≡ and_then (L.written peer.old.peer) peer.old.held }
        ensures kept { L.was_read peer.new.peer ≡ L.was_read peer.old.peer }
        ensures counted { L.writes peer.new.peer ≡ one_more_if_any peer.old.held (L.writes peer.old.peer) }
        ensures ended { L.ended peer.new.peer ≡ ended_unless result (L.ended peer.old.peer) }
        ensures uncounted { (L.reads peer.new.peer ≡ L.reads peer.old.peer) × (L.room peer.new.peer ≡ L.room peer.old.peer) }
        ensures unasked { (peer.new.reads ≡ peer.old.reads) × (peer.new.room ≡ peer.old.room) }
        ensures same { L.calls self.new.link ≡ L.calls self.old.link }
    {
        let stands = peer.held.write(&mut self.link, &mut peer.peer);
        peer.is_stuck = !peer.held.is_empty();
        stands
    }

    /// Reads a connection, unless it is left unread: then nothing comes, and the link is not asked. Takes no memory.
    #[tactic(auto, using(crate::proofs::Told::read_more, crate::proofs::Told::left_more, crate::proofs::Told::read_room, crate::proofs::Told::left_room))]
    fn read_unless(&mut self, peer: &mut HeldPeer<L>, buffer: &mut [u8]) -> Got<usize>
        ensures bound { GivesAtMost result (length buffer.new) }
        ensures unread { peer.old.is_unread ≡ true → (result ≡ Got.Nothing) × (peer.new.peer ≡ peer.old.peer) }
        ensures counted { now_told peer.new.reads (L.reads peer.new.peer) ≡ one_more (now_told peer.old.reads (L.reads peer.old.peer)) }
        ensures room { now_told peer.new.room (L.room peer.new.peer)
            ≡ now_told (length buffer.new) (now_told peer.old.room (L.room peer.old.peer)) }
        ensures bytes { L.was_read peer.new.peer ≡ and_then (L.was_read peer.old.peer) (handed result buffer.new) }
        ensures ended { L.ended peer.new.peer ≡ ended_by result (L.ended peer.old.peer) }
        ensures kept { L.written peer.new.peer ≡ L.written peer.old.peer }
        ensures unwritten { L.writes peer.new.peer ≡ L.writes peer.old.peer }
        ensures unsent { peer.new.held ≡ peer.old.held }
        ensures same { L.calls self.new.link ≡ L.calls self.old.link }
    {
        peer.reads = peer.reads.wrapping_add(1);
        peer.room = buffer.len();
        if peer.is_unread {
            return Got::Nothing;
        }
        self.link.read(&mut peer.peer, buffer)
    }
}

impl<L: Link + Drop> Link for HeldBack<L> {
    type Peer = HeldPeer<L>;

    ghost use Rattle.mqtt_link.specs.Links.{and_then, now_told};

    ghost calls = { λ l. L.calls l.link };

    // Also where it was left unread.
    ghost reads = { λ p. now_told p.reads (L.reads p.peer) };

    ghost room = { λ p. now_told p.room (L.room p.peer) };

    ghost was_read = { λ p. L.was_read p.peer };

    ghost ended = { λ p. L.ended p.peer };

    // What left it, and then what is held back.
    ghost written = { λ p. and_then (L.written p.peer) p.held };

    ghost out = { λ p. L.written p.peer };

    ghost outs = { λ p. L.writes p.peer };

    fn accept(&mut self) -> Got<HeldPeer<L>> {
        match self.link.accept() {
            Got::Given(peer) => Got::Given(HeldPeer {
                is_stuck: false,
                is_unread: false,
                peer,
                held: Waiting::new(self.alloc),
                reads: 0,
                room: 0,
            }),
            Got::Nothing => Got::Nothing,
            Got::End => Got::End,
            Got::Failure => Got::Failure,
        }
    }

    fn address(&self, peer: &HeldPeer<L>) -> Option<SocketAddr> {
        self.link.address(&peer.peer)
    }

    fn may_give(&self, peer: &HeldPeer<L>) -> bool {
        !peer.is_unread && self.has_come(peer)
    }

    fn key(&self, peer: &HeldPeer<L>) -> usize {
        self.link.key(&peer.peer)
    }

    fn is_told(&self, key: usize) -> bool {
        self.link.is_told(key)
    }

    fn wait(&mut self) {
        self.link.wait();
    }

    fn hurry(&mut self) {
        self.link.hurry();
    }

    fn read(&mut self, peer: &mut HeldPeer<L>, buffer: &mut [u8]) -> Got<usize> {
        self.read_unless(peer, buffer)
    }

    fn write(&mut self, peer: &mut HeldPeer<L>, bytes: &[u8]) -> Got<usize> {
        if peer.is_stuck {
            return Got::Nothing;
        }
        match peer.held.push(bytes) {
            Ok(()) => Got::Given(bytes.len()),
            Err(_) => Got::Nothing,
        }
    }
}
