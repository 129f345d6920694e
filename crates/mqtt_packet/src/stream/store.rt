//! The bytes that a framer holds: in a block that grows, or in one that packets share (ours).

ghost use Rattle.std.specs.Prelude.{◌≡◌, ◌+◌, ◌-◌, ◌≤◌, ◌++◌, [], length, take, drop, IfOk, OnOk, OnErr};

use bytes::{Bytes, BytesMut};
use std::alloc::{AllocError, Global};
use std::marker::Model;

/// Bytes in their order. They grow in a block of their own; once a part of them was shared, the
/// whole block is, and what comes next begins another.
#[derive(Drop)]
pub(crate) struct Store {
    shared: Bytes,
    growing: BytesMut,
}

impl Model for Store {
    ghost use Rattle.std.specs.Prelude.{◌≡◌, ◌≢◌, ◌++◌, [], List, ℕ};

    ghost Value = { List ℕ };

    ghost view = { λ s. s.shared ++ s.growing.items };

    ghost invariant = { λ s. s.shared ≢ [] → s.growing.items ≡ [] };
}

impl Store {
    /// No bytes. Takes no memory.
    pub(crate) fn new(alloc: Global) -> Store
        ensures { result ≡ [] }
    {
        Store {
            shared: Bytes::new(),
            growing: BytesMut::new(alloc),
        }
    }

    /// The bytes, lent. Takes no memory.
    #[inline(always)]
    pub(crate) fn as_slice(&self) -> &[u8]
        ensures { result.now ≡ self.now }
    {
        if self.shared.is_empty() {
            self.growing.as_slice()
        } else {
            self.shared.as_slice()
        }
    }

    /// Takes the first `count` bytes away. Takes no memory.
    #[inline(always)]
    pub(crate) fn skip(&mut self, count: usize)
        requires { count ≤ length self.old }
        ensures { self.new ≡ drop count self.old }
    {
        if self.shared.is_empty() {
            self.growing.advance(count);
        } else {
            self.shared.advance(count);
        }
    }

    /// Keeps the first `count` bytes alone. Takes no memory.
    pub(crate) fn truncate(&mut self, count: usize)
        ensures { self.new ≡ take count self.old }
    {
        if self.shared.is_empty() {
            self.growing.truncate(count);
        } else {
            self.shared.truncate(count);
        }
    }

    /// Adds the piece at the end.
    pub(crate) fn push(&mut self, piece: &[u8]) -> Result<(), AllocError>
        ensures ok { OnOk result (self.new ≡ self.old ++ piece.now) }
        ensures err { OnErr result (self.new ≡ self.old) }
    {
        if piece.is_empty() {
            return Ok(());
        }
        if !self.shared.is_empty() {
            self.growing.extend_from_slice(self.shared.as_slice())?;
            self.shared = Bytes::new();
        }
        self.growing.extend_from_slice(piece)
    }

    /// Another owner of the bytes from the place `from` to the place `to`. None of them is copied,
    /// and the store holds what it held.
    #[inline(always)]
    pub(crate) fn share(&mut self, from: usize, to: usize) -> Result<Bytes, AllocError>
        requires order { from ≤ to }
        requires within { to ≤ length self.old }
        ensures found { IfOk result (λ part. part ≡ drop from (take to self.old)) }
        ensures same { self.new ≡ self.old }
    {
        if from == to {
            return Ok(Bytes::new());
        }
        if self.shared.is_empty() {
            let all = self.growing.freeze_to(self.growing.len())?;
            let part = part_of(&all, from, to);
            self.shared = all;
            part
        } else {
            part_of(&self.shared, from, to)
        }
    }
}

/// Another owner of a part of the bytes, which is not empty.
#[inline(always)]
fn part_of(bytes: &Bytes, from: usize, to: usize) -> Result<Bytes, AllocError>
    requires order { from ≤ to }
    requires within { to ≤ length bytes.now }
    ensures { IfOk result (λ part. part ≡ drop from (take to bytes.now)) }
{
    let mut part = bytes.slice(0..to)?;
    part.advance(from);
    Ok(part)
}
