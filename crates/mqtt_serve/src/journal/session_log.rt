//! What the log says of connections that closed, of sessions that ended, and of Wills that were published (MQTT 5.0, 3.1.2.4, 3.1.2.5,
//! 3.1.3.2.2, 4.1).
use crate::journal::call::Call;
use crate::journal::line_event::{CleanStart, Client, LineEvent};
use crate::journal::line_log::{Connected, session_on};
use crate::journal::server_log::ServerLog;
use crate::journal::session_event::{SessionEnd, SessionEvent, WillCause};
use mqtt_broker::{Engine, Outcome};
use mqtt_keep::Keep;
use mqtt_rules::Report;
use std::io;

/// Whether a publication was accepted in a call.
fn has_accepted(out: &Outcome) -> bool {
    out.reports
        .iter()
        .any(|report| matches!(report, Report::Accepted { .. }))
}

/// Whether a Will was published in a call. A PUBLISH that is accepted closes no line, and connects no client; each other call accepts
/// Wills alone, and no call two.
fn has_published_will(call: Call<'_>, out: &Outcome, connected: Option<u64>) -> bool {
    let is_publish = match call {
        Call::Piece { .. } => out.closed.is_empty() && connected.is_none(),
        Call::Pump { .. } | Call::Lost { .. } | Call::Tick => false,
    };
    !is_publish && has_accepted(out)
}

impl<W: io::Write + Drop> ServerLog<W> {
    /// Whether the client that is connected on a line by a call said Clean Start 1.
    fn starts_clean(&self, connected: Option<u64>) -> bool {
        let Some(line) = connected else {
            return false;
        };
        match self.table.get(line) {
            Some(known) => known.came.clean_start() == CleanStart::Yes,
            None => false,
        }
    }

    /// A line closed in a call.
    fn close(&mut self, moment: u64, line: u64, call: Call<'_>) {
        let Some(known) = self.table.get(line) else {
            return;
        };
        let Some(why) = known.why(call) else {
            return;
        };
        let event = LineEvent::Close {
            line,
            peer: known.peer,
            client: known.client(),
            why,
        };
        self.lines.write(moment, &event);
    }

    /// What a line that closed leaves: its session, if it has one, had its Will published by that or not, and stands on without a
    /// connection, or ended, for this cause.
    fn leave<K: Keep>(
        &mut self,
        moment: u64,
        line: u64,
        engine: &Engine<K>,
        will: bool,
        end: SessionEnd,
    ) {
        let Some(known) = self.table.get(line) else {
            return;
        };
        let Some(birth) = known.birth else {
            return;
        };
        let client = known.client();
        if will {
            let why = WillCause::Closed;
            self.lines
                .write(moment, &SessionEvent::Will { client, why });
        }
        match engine.inner().step().session(birth) {
            Some(session) => self.away.add(session),
            None => {
                let why = end;
                self.lines
                    .write(moment, &SessionEvent::Ended { client, why });
            }
        }
    }

    /// A client is connected on a line, and no other closed: its session stood without a connection, or one of its client that did
    /// ended, for this cause; or there was none.
    fn returned<K: Keep>(
        &mut self,
        moment: u64,
        line: u64,
        engine: &Engine<K>,
        will: bool,
        end: SessionEnd,
    ) {
        let Some(Connected { session, .. }) = session_on(engine, line) else {
            return;
        };
        let name = session.client.as_str();
        let client = Client(Some(name));
        let has_ended = match self.away.take(name) {
            Some(birth) => birth != session.birth,
            None => false,
        };
        if will {
            let why = if has_ended {
                WillCause::SessionEnded
            } else {
                WillCause::Delay
            };
            self.lines
                .write(moment, &SessionEvent::Will { client, why });
        }
        if has_ended {
            let why = end;
            self.lines
                .write(moment, &SessionEvent::Ended { client, why });
        }
    }

    /// The clock did what was due, and no line closed: a Will was published or not, and a session may have ended.
    fn due<K: Keep>(&mut self, moment: u64, engine: &Engine<K>, will: bool) {
        if will {
            let client = match self.away.willed(engine) {
                Some(row) => Client(Some(row.client.as_str())),
                None => Client(None),
            };
            let why = WillCause::Delay;
            self.lines
                .write(moment, &SessionEvent::Will { client, why });
        }
        if let Some(row) = self.away.ended(engine) {
            let client = Client(Some(row.client.as_str()));
            let why = SessionEnd::Expired;
            self.lines
                .write(moment, &SessionEvent::Ended { client, why });
        }
        self.away.look(engine);
    }

    /// What became of connections, of sessions and of their Wills in a call, by which the client of a line was connected or none.
    pub(crate) fn sessions<K: Keep>(
        &mut self,
        moment: u64,
        call: Call<'_>,
        engine: &Engine<K>,
        out: &Outcome,
        connected: Option<u64>,
    ) {
        let will = has_published_will(call, out, connected);
        let is_clean = self.starts_clean(connected);
        let by_close = if is_clean {
            SessionEnd::CleanStart
        } else {
            SessionEnd::Closed
        };
        for line in &out.closed {
            self.close(moment, *line, call);
            self.leave(moment, *line, engine, will, by_close);
            self.table.remove(*line);
        }
        if !out.closed.is_empty() {
            return;
        }
        if let Some(line) = connected {
            let by_connect = if is_clean {
                SessionEnd::CleanStart
            } else {
                SessionEnd::Expired
            };
            self.returned(moment, line, engine, will, by_connect);
        } else if out.again && matches!(call, Call::Tick) {
            self.due(moment, engine, will);
        }
    }
}
