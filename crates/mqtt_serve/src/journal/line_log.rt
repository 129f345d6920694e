//! What the log says of the packets of a call: who is connected, and who is refused (MQTT 5.0, 3.2, 3.14).
use crate::journal::line_event::{LineEvent, Present, Terms};
use crate::journal::packets::{Told, told_by};
use crate::journal::server_log::ServerLog;
use crate::journal::tables::Said;
use bytes::Bytes;
use mqtt_broker::Engine;
use mqtt_keep::Keep;
use mqtt_records::Session;
use std::io;

/// The session that is connected on a line, and its Keep Alive.
#[derive(Clone, Copy)]
pub(crate) struct Connected<'a> {
    pub session: &'a Session,
    pub keep_alive: u16,
}

/// The session that is connected on a line.
pub(crate) fn session_on<K: Keep>(engine: &Engine<K>, line: u64) -> Option<Connected<'_>> {
    let step = engine.inner().step();
    let state = step.line(line)?;
    let session = step.session(state.session()?)?;
    let keep_alive = state.keep_alive();
    Some(Connected {
        session,
        keep_alive,
    })
}

impl<W: io::Write + Drop> ServerLog<W> {
    /// A client is connected on a line.
    fn connect<K: Keep>(
        &mut self,
        moment: u64,
        line: u64,
        session_present: Present,
        engine: &Engine<K>,
    ) {
        let Some(
            Connected {
                session,
                keep_alive,
            },
        ) = session_on(engine, line)
        else {
            return;
        };
        let Some(known) = self.table.get_mut(line) else {
            return;
        };
        known.client = String::from_str(self.alloc, session.client.as_str()).ok();
        known.birth = Some(session.birth);
        let terms = Terms {
            clean_start: known.came.clean_start(),
            session_present,
            keep_alive,
            expiry: session.expiry,
        };
        let event = LineEvent::Connect {
            line,
            peer: known.peer,
            client: known.client(),
            terms,
        };
        self.lines.write(moment, &event);
    }

    /// A CONNECT on a line is refused.
    fn refuse(&mut self, moment: u64, line: u64, code: u8) {
        let Some(known) = self.table.get_mut(line) else {
            return;
        };
        known.said = Some(Said::Refused);
        let peer = known.peer;
        self.lines
            .write(moment, &LineEvent::Refuse { line, peer, code });
    }

    /// A packet goes out on a line. Whether its client is connected by it.
    fn packet<K: Keep>(
        &mut self,
        moment: u64,
        line: u64,
        packet: &[u8],
        engine: &Engine<K>,
    ) -> bool {
        match told_by(packet) {
            Told::Connack {
                session_present,
                code,
            } if code < 0x80 => {
                self.connect(moment, line, session_present, engine);
                return true;
            }
            Told::Connack { code, .. } => self.refuse(moment, line, code),
            Told::Disconnect { code } => {
                if let Some(known) = self.table.get_mut(line) {
                    known.said = Some(Said::Code(code));
                }
            }
            Told::Publish => self.counting.publish(),
            Told::Full => self.full(moment, line, engine),
            Told::Other => {}
        }
        false
    }

    /// Packets go out, each on its line. The line whose client is connected by one, if there is one.
    pub(crate) fn packets<K: Keep>(
        &mut self,
        moment: u64,
        outputs: &[(u64, Bytes)],
        engine: &Engine<K>,
    ) -> Option<u64> {
        self.counting.packets(outputs.len());
        let mut connected = None;
        for (line, bytes) in outputs {
            if self.packet(moment, *line, bytes, engine) {
                connected = Some(*line);
            }
        }
        connected
    }
}
