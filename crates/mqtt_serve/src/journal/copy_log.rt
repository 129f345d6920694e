//! What the log says of publications and copies that went wrong, of each kind once a second at most (MQTT 5.0, 3.1.2.5, 3.3, 4.6).
use crate::journal::copy_event::{CopyEvent, CopyLoss, FullQueue};
use crate::journal::line_event::Client;
use crate::journal::server_log::ServerLog;
use mqtt_base::Ending;
use mqtt_broker::Engine;
use mqtt_flow::Full;
use mqtt_keep::Keep;
use mqtt_rules::Report;
use std::io;

/// The client of the first session whose queue is full, if a full queue refuses.
fn full_queue<K: Keep>(engine: &Engine<K>) -> FullQueue<'_> {
    let step = engine.inner().step();
    let limits = step.limits();
    if limits.full == Full::Drop {
        return FullQueue(None);
    }
    let limit = limits.queue as usize;
    for session in step.all_sessions() {
        let session = session.get();
        if session.queue.len() >= limit {
            return FullQueue(Some(session.client.as_str()));
        }
    }
    FullQueue(None)
}

impl<W: io::Write + Drop> ServerLog<W> {
    /// A publication that came on a line is refused with 0x97.
    pub(crate) fn full<K: Keep>(&mut self, moment: u64, line: u64, engine: &Engine<K>) {
        if let Some(untold) = self.kinds.full.tell(moment) {
            let client = match self.table.get(line) {
                Some(known) => known.client(),
                None => Client(None),
            };
            let queue = full_queue(engine);
            self.lines.write(
                moment,
                &CopyEvent::Full {
                    client,
                    queue,
                    untold,
                },
            );
        }
    }

    /// A copy ended before its client took it.
    fn copy(&mut self, moment: u64, name: &str, why: CopyLoss) {
        if let Some(untold) = self.kinds.tell_copy(moment, why) {
            let client = Client(Some(name));
            self.lines.write(
                moment,
                &CopyEvent::Copy {
                    client,
                    why,
                    untold,
                },
            );
        }
    }

    /// A Will was not accepted.
    fn will_refused(&mut self, moment: u64, name: &str) {
        if let Some(untold) = self.kinds.will.tell(moment) {
            let client = Client(Some(name));
            self.lines
                .write(moment, &CopyEvent::Will { client, untold });
        }
    }

    /// What a call told beside its packets.
    pub(crate) fn report(&mut self, moment: u64, report: &Report) {
        match report {
            Report::Ended { client, ending, .. } => match ending {
                Ending::Dropped => self.copy(moment, client.as_str(), CopyLoss::Dropped),
                Ending::TooLarge => self.copy(moment, client.as_str(), CopyLoss::TooLarge),
                Ending::Expired => self.copy(moment, client.as_str(), CopyLoss::Expired),
                Ending::Taken | Ending::Refused | Ending::SessionEnded => {}
            },
            Report::WillRefused { client, .. } => self.will_refused(moment, client.as_str()),
            Report::Accepted { .. } | Report::Entered { .. } | Report::Released { .. } => {}
        }
    }
}
