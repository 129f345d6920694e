//! Sessions without a connection, for what is told when one ends or its Will is published (MQTT 5.0, 3.1.2.5, 4.1).

use mqtt_broker::Engine;
use mqtt_keep::Keep;
use mqtt_records::Session;
use std::alloc::Global;

/// A session without a connection.
#[derive(Drop)]
pub(crate) struct AwayRow {
    birth: u64,
    /// Its client.
    pub client: String,
    /// Whether its Will may yet be published.
    has_will: bool,
}

/// What is known of the sessions without a connection.
#[derive(Drop)]
pub(crate) struct Away {
    alloc: Global,
    rows: Vec<AwayRow>,
}

impl Away {
    /// Nothing is known.
    pub fn new(alloc: Global) -> Away {
        Away {
            alloc,
            rows: Vec::new(alloc),
        }
    }

    /// A session stands. If it has no connection it is known from here on, but for want of memory.
    pub fn add(&mut self, session: &Session) {
        if session.closed.is_none() {
            return;
        }
        let Ok(client) = String::from_str(self.alloc, session.client.as_str()) else {
            return;
        };
        let row = AwayRow {
            birth: session.birth,
            client,
            has_will: session.will.is_some(),
        };
        let _ = self.rows.push(row);
    }

    /// The session of a client is known no longer: its birth, if it was.
    pub fn take(&mut self, client: &str) -> Option<u64> {
        let found = self.rows.iter().find(|row| row.client.as_str() == client);
        let birth = found?.birth;
        self.rows.retain(|row| row.birth != birth);
        Some(birth)
    }

    /// The first session that stands no longer.
    pub fn ended<K: Keep>(&self, engine: &Engine<K>) -> Option<&AwayRow> {
        let step = engine.inner().step();
        self.rows
            .iter()
            .find(|row| step.session(row.birth).is_none())
    }

    /// The first session that had a Will, and has none now.
    pub fn willed<K: Keep>(&self, engine: &Engine<K>) -> Option<&AwayRow> {
        self.rows
            .iter()
            .find(|row| row.has_will && !has_will(engine, row.birth))
    }

    /// What is known is so again: sessions that ended are known no longer.
    pub fn look<K: Keep>(&mut self, engine: &Engine<K>) {
        let step = engine.inner().step();
        self.rows.retain(|row| step.session(row.birth).is_some());
        for row in self.rows.iter_mut() {
            row.has_will = row.has_will && has_will(engine, row.birth);
        }
    }
}

/// Whether a session stands whose Will may yet be published.
fn has_will<K: Keep>(engine: &Engine<K>, birth: u64) -> bool {
    match engine.inner().step().session(birth) {
        Some(session) => session.will.is_some(),
        None => false,
    }
}
