//! What is known of each connection, for what is told when it has closed (ours).
use crate::journal::call::Call;
use crate::journal::came::Came;
use crate::journal::line_event::{Client, Close, Peer};
use std::alloc::{AllocError, Global};

/// What the server said to end a connection.
#[derive(Clone, Copy, Debug, PartialEq, Eq)]
pub(crate) enum Said {
    /// A CONNACK that refuses (3.2.2.2).
    Refused,
    /// A DISCONNECT with this Reason Code (3.14.2.1).
    Code(u8),
}

/// What is known of a connection.
#[derive(Drop)]
pub(crate) struct Known {
    /// The number of its line.
    line: u64,
    /// The other side.
    pub peer: Peer,
    /// Its client, once it is connected. It isn't known for want of memory.
    pub client: Option<String>,
    /// The birth of its client's session, once it is connected.
    pub birth: Option<u64>,
    /// What it has sent.
    pub came: Came,
    /// What was said to end it.
    pub said: Option<Said>,
}

impl Known {
    /// Its client, if it has said one.
    pub fn client(&self) -> Client<'_> {
        match &self.client {
            Some(name) => Client(Some(name.as_str())),
            None => Client(None),
        }
    }

    /// Why it closed in a call; none if its CONNECT was refused, which was told.
    pub fn why(&self, call: Call<'_>) -> Option<Close> {
        match (self.said, call) {
            (Some(Said::Refused), _) => None,
            (Some(Said::Code(code)), _) => Some(Close::Code(code)),
            (None, Call::Lost { line, why }) if line == self.line => Some(Close::Lost(why)),
            (None, _) if self.birth.is_none() => Some(Close::NoConnect),
            (None, Call::Piece { line, .. }) if line == self.line => {
                Some(Close::Disconnect(self.came.code()))
            }
            (None, _) => Some(Close::Server),
        }
    }
}

/// What is known of the connections that are linked.
#[derive(Drop)]
pub(crate) struct Table {
    rows: Vec<Known>,
}

impl Table {
    /// Nothing is known; there is room for so many.
    pub fn new(alloc: Global, room: usize) -> Result<Table, AllocError> {
        let rows = Vec::with_capacity(alloc, room)?;
        Ok(Table { rows })
    }

    /// A connection is linked as a line. It isn't known for want of memory.
    pub fn add(&mut self, line: u64, peer: Peer) {
        let known = Known {
            line,
            peer,
            client: None,
            birth: None,
            came: Came::new(),
            said: None,
        };
        let _ = self.rows.push(known);
    }

    /// What is known of the connection on a line.
    pub fn get(&self, line: u64) -> Option<&Known> {
        self.rows.iter().find(|known| known.line == line)
    }

    /// The same, to be changed.
    pub fn get_mut(&mut self, line: u64) -> Option<&mut Known> {
        self.rows.iter_mut().find(|known| known.line == line)
    }

    /// So many of these bytes have come on a line.
    pub fn take(&mut self, line: u64, bytes: &[u8], count: usize) {
        if let Some(known) = self.get_mut(line) {
            known.came.take(bytes, count);
        }
    }

    /// A connection is known no longer.
    pub fn remove(&mut self, line: u64) {
        self.rows.retain(|known| known.line != line);
    }
}
