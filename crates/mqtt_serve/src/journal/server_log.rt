//! The journal that writes a line an event (ours).
use crate::causes::Cause;
use crate::journal::away::Away;
use crate::journal::call::Call;
use crate::journal::counting::Counting;
use crate::journal::hearing::Journal;
use crate::journal::line_event::{LineEvent, Peer};
use crate::journal::seldom::Kinds;
use crate::journal::server_event::{Bounds, End, ServerEvent, SessionCount, WhenFull};
use crate::journal::stamped::LineWriter;
use crate::journal::tables::Table;
use mqtt_base::LINE_LIMIT;
use mqtt_broker::{Engine, Outcome};
use mqtt_broker_step::EngineError;
use mqtt_flow::Full;
use mqtt_keep::Keep;
use mqtt_rules::Capacity;
use std::alloc::{AllocError, Global};
use std::io;
use std::net::SocketAddr;

/// A journal that writes a line an event, with its time.
#[derive(Drop)]
pub struct ServerLog<W: io::Write + Drop> {
    pub(crate) alloc: Global,
    pub(crate) lines: LineWriter<W>,
    /// The path of the database.
    db: String,
    pub(crate) table: Table,
    pub(crate) away: Away,
    pub(crate) kinds: Kinds,
    pub(crate) counting: Counting,
    /// The last moment that was heard; 0 if none was.
    last: u64,
}

/// What queues and retained messages are held to by the limits of a broker.
fn bounds_of(limits: Capacity) -> Bounds {
    Bounds {
        queue: limits.queue,
        full: match limits.full {
            Full::Refuse => WhenFull::Refuse,
            Full::Drop => WhenFull::Drop,
        },
        retained: limits.retained,
    }
}

impl<W: io::Write + Drop> ServerLog<W> {
    /// A journal of a server over the database at a path. The one fault is want of memory.
    pub fn new(alloc: Global, writer: W, db: &str) -> Result<ServerLog<W>, AllocError> {
        Ok(ServerLog {
            alloc,
            lines: LineWriter::new(alloc, writer),
            db: String::from_str(alloc, db)?,
            table: Table::new(alloc, LINE_LIMIT)?,
            away: Away::new(alloc),
            kinds: Kinds::new(),
            counting: Counting::new(),
            last: 0,
        })
    }

    /// Gives the writer back.
    pub fn into_writer(self) -> W {
        self.lines.into_writer()
    }
}

impl<W: io::Write + Drop> Journal for ServerLog<W> {
    fn began<K: Keep>(&mut self, moment: u64, address: SocketAddr, engine: &Engine<K>) {
        self.last = moment;
        let now = self.counting.begin(moment, engine);
        let limits = engine.inner().step().limits();
        let event = ServerEvent::Start {
            address,
            db: &self.db,
            count: SessionCount {
                sessions: now.sessions,
                limit: limits.sessions,
            },
            copies: now.copies,
            bounds: bounds_of(limits),
        };
        self.lines.write(moment, &event);
        for session in engine.inner().step().all_sessions() {
            self.away.add(session.get());
        }
    }

    fn accepted(&mut self, moment: u64, line: u64, peer: Option<SocketAddr>) {
        self.last = moment;
        self.table.add(line, Peer(peer));
    }

    fn dropped(&mut self, moment: u64, peer: Option<SocketAddr>) {
        self.last = moment;
        self.lines
            .write(moment, &LineEvent::Drop { peer: Peer(peer) });
    }

    fn answered<K: Keep>(
        &mut self,
        moment: u64,
        call: Call<'_>,
        engine: &Engine<K>,
        answer: &Result<Outcome, EngineError>,
    ) {
        self.last = moment;
        let Ok(out) = answer else {
            return;
        };
        if let Call::Piece { line, bytes } = call {
            self.table.take(line, bytes, out.taken);
        }
        let connected = self.packets(moment, &out.outputs, engine);
        for report in &out.reports {
            self.report(moment, report);
        }
        self.sessions(moment, call, engine, out, connected);
    }

    fn rested<K: Keep>(&mut self, moment: u64, engine: &Engine<K>) {
        self.last = moment;
        if let Some(event) = self.counting.tell(moment, engine) {
            self.lines.write(moment, &event);
        }
    }

    fn ended(&mut self, cause: Option<Cause>) {
        // A server that never listened has nothing to tell here: its cause has a line of its own.
        if self.last > 0 {
            let why = End(cause);
            self.lines.write(self.last, &ServerEvent::End { why });
        }
    }
}
