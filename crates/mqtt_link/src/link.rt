//! Connections whose calls don't wait (MQTT 5.0, 4.2).
ghost use Rattle.std.specs.Prelude.{◌≡◌, ℕ, Bool, List, [], Option, None, length};
ghost use Rattle.mqtt_link.specs.Links.{AtFirst, Calls, GivesAtMost, IfGiven, IsNew, handed, and_then, one_more, now_told, ended_by, is_given, asked, waited};

use std::net::SocketAddr;

/// What a call on a link gives.
#[derive(Clone, Copy, Debug, PartialEq, Eq)]
pub enum Got<T> {
    /// What was asked for.
    Given(T),
    /// Nothing now; the call would have to wait.
    Nothing,
    /// The other side closed, and nothing comes any more.
    End,
    /// The connection, or the listener, failed.
    Failure,
}

/// A listener and its connections. No call waits, but for `wait`. A link that tells its calls and bytes has `calls`, and of
/// its connections `reads`, `room`, `writes`, `was_read`, `written` and `ended`; of another they say nothing.
pub trait Link {
    /// A connection.
    type Peer: Drop;

    /// How often it was asked for a connection and to wait, and how many connections it gave, if that is told.
    ghost calls: { Self → Option Calls } = { λ _. None };

    /// How often a connection was read, modulo 2^64, if that is told.
    ghost reads: { Self.Peer → Option ℕ } = { λ _. None };

    /// For how many bytes the last read of a connection had room, if that is told.
    ghost room: { Self.Peer → Option ℕ } = { λ _. None };

    /// How often a connection was written to, modulo 2^64, if that is told.
    ghost writes: { Self.Peer → Option ℕ } = { λ _. None };

    /// The bytes that reads from a connection have given, if they are told.
    ghost was_read: { Self.Peer → Option (List ℕ) } = { λ _. None };

    /// The bytes that writes to a connection have taken, if they are told.
    ghost written: { Self.Peer → Option (List ℕ) } = { λ _. None };

    /// Whether a read of a connection or a write to it gave the end or a failure, if that is told.
    ghost ended: { Self.Peer → Option Bool } = { λ _. None };

    /// The bytes that left a connection of a link that holds back what is written, if they are told.
    ghost out: { Self.Peer → Option (List ℕ) } = { λ _. None };

    /// How often bytes left such a connection, modulo 2^64, if that is told.
    ghost outs: { Self.Peer → Option ℕ } = { λ _. None };

    /// The next connection that was opened.
    fn accept(&mut self) -> Got<Self::Peer>
        ensures counted { calls self.new ≡ asked (is_given result) (calls self.old) }
        ensures new { IfGiven result (λ peer.
            IsNew (reads peer) (writes peer) (was_read peer) (written peer) (ended peer)) }
        ensures unsent { IfGiven result (λ peer. AtFirst [] (out peer) × AtFirst 0 (outs peer)) };

    /// The address of the other side of a connection, if it is known.
    fn address(&self, _peer: &Self::Peer) -> Option<SocketAddr> {
        None
    }

    /// Whether a read of a connection may give something: where it may not, the link has no need to be asked.
    fn may_give(&self, _peer: &Self::Peer) -> bool {
        true
    }

    /// By which number the link tells of a connection; several may share one.
    fn key(&self, _peer: &Self::Peer) -> usize {
        0
    }

    /// Whether something may have come about on a connection with this number since the turn before: where it has not, a read
    /// that gave nothing would give nothing again.
    fn is_told(&self, _key: usize) -> bool {
        true
    }

    /// Waits a little, or until a connection changes.
    fn wait(&mut self)
        ensures counted { calls self.new ≡ waited (calls self.old) };

    /// Something has come about that is to go out soon: the next wait is to take no time.
    fn hurry(&mut self)
        ensures same { calls self.new ≡ calls self.old }
    {}

    /// Reads at most as many bytes as the buffer has, and puts them at its front.
    fn read(&mut self, peer: &mut Self::Peer, buffer: &mut [u8]) -> Got<usize>
        ensures bound { GivesAtMost result (length buffer.new) }
        ensures counted { reads peer.new ≡ one_more (reads peer.old) }
        ensures room { room peer.new ≡ now_told (length buffer.new) (room peer.old) }
        ensures bytes { was_read peer.new ≡ and_then (was_read peer.old) (handed result buffer.new) }
        ensures ended { ended peer.new ≡ ended_by result (ended peer.old) }
        ensures kept { written peer.new ≡ written peer.old }
        ensures unwritten { writes peer.new ≡ writes peer.old }
        ensures unsent { (out peer.new ≡ out peer.old) × (outs peer.new ≡ outs peer.old) }
        ensures same { calls self.new ≡ calls self.old };

    /// Writes a beginning of the bytes.
    fn write(&mut self, peer: &mut Self::Peer, bytes: &[u8]) -> Got<usize>
        ensures bound { GivesAtMost result (length bytes.now) }
        ensures counted { writes peer.new ≡ one_more (writes peer.old) }
        ensures bytes { written peer.new ≡ and_then (written peer.old) (handed result bytes.now) }
        ensures ended { ended peer.new ≡ ended_by result (ended peer.old) }
        ensures kept { was_read peer.new ≡ was_read peer.old }
        ensures uncounted { (reads peer.new ≡ reads peer.old) × (room peer.new ≡ room peer.old) }
        ensures unsent { (out peer.new ≡ out peer.old) × (outs peer.new ≡ outs peer.old) }
        ensures same { calls self.new ≡ calls self.old };
}
