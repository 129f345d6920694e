//! The counts of a minute (ours).
use crate::journal::server_event::{ServerEvent, Traffic};
use mqtt_broker::Engine;
use mqtt_keep::Keep;

/// Milliseconds from one telling of the counts to the next (ours).
const MINUTE: u64 = 60_000;

/// What there is at a moment.
#[derive(Clone, Copy, Debug, PartialEq, Eq)]
pub(crate) struct Now {
    /// Connections.
    connections: usize,
    /// Sessions.
    pub sessions: usize,
    /// Copies that wait, over all sessions.
    pub copies: usize,
    /// The number of the last publication that was accepted.
    publications: u64,
}

/// What there is in an engine.
fn counts_of<K: Keep>(engine: &Engine<K>) -> Now {
    let step = engine.inner().step();
    let mut copies: usize = 0;
    for session in step.all_sessions() {
        copies = copies.saturating_add(session.get().queue.len());
    }
    Now {
        connections: step.lines().len(),
        sessions: step.sessions_len(),
        copies,
        publications: step.publications(),
    }
}

/// Counts, told once a minute in which something changed.
#[derive(Clone, Copy, Debug)]
pub(crate) struct Counting {
    told: Now,
    /// PUBLISH packets that went out.
    sent: u64,
    /// All packets that went out.
    packets: u64,
    next: u64,
}

impl Counting {
    /// Nothing was counted, and nothing is told in the first minute.
    pub fn new() -> Counting {
        Counting {
            told: Now {
                connections: 0,
                sessions: 0,
                copies: 0,
                publications: 0,
            },
            sent: 0,
            packets: 0,
            next: MINUTE,
        }
    }

    /// It begins with what there is.
    pub fn begin<K: Keep>(&mut self, moment: u64, engine: &Engine<K>) -> Now {
        self.told = counts_of(engine);
        self.next = moment.saturating_add(MINUTE);
        self.told
    }

    /// So many packets went out.
    pub fn packets(&mut self, count: usize) {
        self.packets = self.packets.saturating_add(count as u64);
    }

    /// One of them was a PUBLISH.
    pub fn publish(&mut self) {
        self.sent = self.sent.saturating_add(1);
    }

    /// The counts, if a minute has passed and something has changed.
    pub fn tell<K: Keep>(
        &mut self,
        moment: u64,
        engine: &Engine<K>,
    ) -> Option<ServerEvent<'static>> {
        if moment < self.next {
            return None;
        }
        self.next = moment.saturating_add(MINUTE);
        let now = counts_of(engine);
        let before = self.told;
        let (sent, packets) = (self.sent, self.packets);
        if now == before && packets == 0 {
            return None;
        }
        self.told = now;
        self.sent = 0;
        self.packets = 0;
        Some(ServerEvent::Counts {
            connections: now.connections,
            sessions: now.sessions,
            copies: now.copies,
            traffic: Traffic {
                accepted: now.publications.saturating_sub(before.publications),
                sent,
                packets,
            },
        })
    }
}
