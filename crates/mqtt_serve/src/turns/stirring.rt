//! Connections on which the broker may have something to send: a brisk turn doesn't pass them over (ours).
ghost use Rattle.std.specs.Prelude.{◌≡◌, ◌<◌, length};

use crate::turns::connection::Connection;
use crate::turns::connections::Connections;
use mqtt_broker::{Engine, Outcome};
use mqtt_broker_step::EngineError;
use mqtt_keep::Keep;
use mqtt_link::Link;
use mqtt_rules::Report;

/// The most reports of an answer that are looked at for each connection. Where there are more, all connections are stirred.
const REPORTS_LOOKED_AT: usize = 16;

/// Whether a copy entered a queue: of the session with a birth, or, without one, of any.
fn has_entered(reports: &[Report], session: Option<u64>) -> bool {
    for report in reports {
        if let Report::Entered { copy, .. } = report {
            if session.is_none() || session == Some(copy.birth) {
                return true;
            }
        }
    }
    false
}

/// The birth of the session that is connected on a line.
fn session_on<K: Keep>(engine: &Engine<K>, line: u64) -> Option<u64> {
    match engine.inner().step().line(line) {
        Some(state) => state.session(),
        None => None,
    }
}

impl<L: Link> Connection<L> {
    /// The broker may have something to send on it, or has not.
    fn stir(&mut self, is_stirred: bool)
        ensures { self.new ≡ self.old }
    {
        self.is_stirred = is_stirred;
    }

    /// The broker may have something to send on it if a copy entered its session's queue. Whether one did.
    fn stir_if<K: Keep>(&mut self, engine: &Engine<K>, reports: &[Report]) -> bool
        ensures { self.new ≡ self.old }
    {
        if self.birth.is_none() {
            self.birth = session_on(engine, self.number);
        }
        let entered = self.birth.is_some() && has_entered(reports, self.birth);
        self.is_stirred |= entered;
        entered
    }
}

/// The broker may have something to send on the connection at a place, or has not.
fn stir_at<L: Link>(lines: &mut Connections<L>, place: usize, is_stirred: bool)
    requires place { place < length lines.old }
    ensures same { lines.new ≡ lines.old }
{
    lines.all[place].stir(is_stirred);
    if is_stirred {
        lines.wake_at(place);
    }
}

/// The connection at a place is stirred if a copy entered its session's queue.
fn stir_if_at<L: Link, K: Keep>(
    lines: &mut Connections<L>,
    place: usize,
    engine: &Engine<K>,
    reports: &[Report],
)
    requires place { place < length lines.old }
    ensures same { lines.new ≡ lines.old }
{
    if lines.all[place].stir_if(engine, reports) {
        lines.wake_at(place);
    }
}

/// Each connection is stirred to whose session's queue a copy came.
fn stir_each<L: Link, K: Keep>(lines: &mut Connections<L>, engine: &Engine<K>, reports: &[Report])
    ensures same { lines.new ≡ lines.old }
{
    for place in 0..lines.len() {
        stir_if_at(lines, place, engine, reports);
    }
}

/// The broker may have something to send on each connection.
fn stir_all<L: Link>(lines: &mut Connections<L>)
    ensures same { lines.new ≡ lines.old }
{
    for place in 0..lines.len() {
        stir_at(lines, place, true);
    }
}

/// Connections are stirred to whose sessions a copy came, by what the broker answered.
pub(crate) fn stir_by<L: Link, K: Keep>(
    lines: &mut Connections<L>,
    engine: &Engine<K>,
    answer: &Result<Outcome, EngineError>,
)
    ensures same { lines.new ≡ lines.old }
{
    let Ok(out) = answer else {
        return;
    };
    if out.reports.len() > REPORTS_LOOKED_AT {
        stir_all(lines);
    } else if has_entered(&out.reports, None) {
        stir_each(lines, engine, &out.reports);
    }
}

/// After a turn of sending the broker has more to send on the connection at a place if it says so, or didn't answer.
pub(crate) fn calm_by<L: Link>(
    lines: &mut Connections<L>,
    place: usize,
    answer: &Result<Outcome, EngineError>,
)
    requires place { place < length lines.old }
    ensures same { lines.new ≡ lines.old }
{
    let more = match answer {
        Ok(out) => out.again,
        Err(_) => true,
    };
    stir_at(lines, place, more);
}
