//! Connections that are left unread for a while: those that publish, while a client that takes what it is sent has too much before it (ours).
ghost use Rattle.std.specs.Prelude.{◌≡◌, ◌<◌, length};

use crate::turns::connection::Connection;
use crate::turns::connections::Connections;
use crate::turns::turn::Links;
use mqtt_base::Ending;
use mqtt_broker::{Engine, Outcome};
use mqtt_broker_step::EngineError;
use mqtt_holding::mark_of;
use mqtt_keep::Keep;
use mqtt_link::{HeldBack, Link};
use mqtt_rules::Report;

/// Whether an answer has a PUBACK or a PUBREC to a line: a PUBLISH of QoS 1 or 2 came on it (4.3.2, 4.3.3).
fn has_brought(out: &Outcome, number: u64) -> bool {
    for (line, bytes) in &out.outputs {
        if *line == number && matches!(bytes.first(), Some(0x40 | 0x50)) {
            return true;
        }
    }
    false
}

/// Whether an acknowledgement ended a copy: PUBACK or PUBREC came (4.3.2, 4.3.3).
fn has_acknowledged(out: &Outcome) -> bool {
    for report in &out.reports {
        if let Report::Ended { ending, .. } = report {
            if matches!(ending, Ending::Taken | Ending::Refused) {
                return true;
            }
        }
    }
    false
}

impl<L: Link> Connection<L> {
    /// What came on its line is noted, by what the broker answered.
    fn note(&mut self, out: &Outcome, moment: u64)
        ensures { self.new ≡ self.old }
    {
        if has_brought(out, self.number) {
            self.seen.bring(moment);
        }
        if has_acknowledged(out) {
            self.seen.acknowledge(moment);
        }
    }
}

impl<L: Link + Drop> Connection<HeldBack<L>> {
    /// The server looks how many copies there are for its session: whether others are to be held for it.
    fn look(&mut self, mark: usize, waits: Option<usize>, moment: u64) -> bool
        ensures { self.new ≡ self.old }
    {
        self.seen.look(mark, waits, moment);
        self.seen.is_pressing(moment)
    }

    /// It is left unread if it is held, and else read. Whether that changed.
    fn leave(&mut self, pressed: bool, moment: u64) -> bool
        ensures { self.new ≡ self.old }
    {
        let is_held = self.seen.is_held(pressed, moment);
        self.peer.leave_unread(is_held)
    }
}

/// What came on the line at a place is noted, by what the broker answered.
pub(crate) fn note_at<L: Link>(
    lines: &mut Connections<L>,
    place: usize,
    answer: &Result<Outcome, EngineError>,
    moment: u64,
)
    requires place { place < length lines.old }
    ensures same { lines.new ≡ lines.old }
{
    if let Ok(out) = answer {
        lines.all[place].note(out, moment);
    }
}

/// The server looks how many copies there are for the session at a place: whether others are to be held for it.
fn look_at<L: Link + Drop, K: Keep>(
    lines: &mut Connections<HeldBack<L>>,
    engine: &Engine<K>,
    place: usize,
    mark: usize,
    moment: u64,
) -> bool
    requires place { place < length lines.old }
    ensures same { lines.new ≡ lines.old }
{
    let waits = engine.queue_on(lines.numbers[place]);
    lines.all[place].look(mark, waits, moment)
}

/// The connection at a place is left unread if it is held.
fn leave_at<L: Link + Drop>(
    lines: &mut Connections<HeldBack<L>>,
    place: usize,
    pressed: bool,
    moment: u64,
)
    requires place { place < length lines.old }
    ensures same { lines.new ≡ lines.old }
{
    if lines.all[place].leave(pressed, moment) {
        lines.wake_at(place);
    }
}

/// The server looks how many copies there are for each session: whether others are to be held for one.
fn look_all<L: Link + Drop, K: Keep>(
    lines: &mut Connections<HeldBack<L>>,
    engine: &Engine<K>,
    moment: u64,
) -> bool
    ensures same { lines.new ≡ lines.old }
{
    let mark = mark_of(engine.inner().step().limits().queue);
    let mut pressed = false;
    for place in 0..lines.len() {
        pressed |= look_at(lines, engine, place, mark, moment);
    }
    pressed
}

/// Connections that are held are left unread, and the others are read.
fn leave_all<L: Link + Drop>(lines: &mut Connections<HeldBack<L>>, pressed: bool, moment: u64)
    ensures same { lines.new ≡ lines.old }
{
    for place in 0..lines.len() {
        leave_at(lines, place, pressed, moment);
    }
}

/// Chooses who is left unread.
fn choose<L: Link + Drop, K: Keep>(
    lines: &mut Connections<HeldBack<L>>,
    engine: &Engine<K>,
    moment: u64,
)
    ensures same { lines.new ≡ lines.old }
{
    let pressed = look_all(lines, engine, moment);
    leave_all(lines, pressed, moment);
}

/// How many connections make a choice of whom to leave unread hold for a millisecond longer (ours).
const CHOICE_SPAN: usize = 256;

/// Chooses who is left unread from the next turn on, as `mqtt_holding` says; once in a millisecond, or in up to four with 1,000
/// connections, since it looks at each.
pub(crate) fn hold<L: Link + Drop, K: Keep>(
    links: &mut Links<HeldBack<L>>,
    engine: &Engine<K>,
    moment: u64,
)
    ensures { links.new ≡ links.old }
{
    let milliseconds = 1 + (links.lines.len() / CHOICE_SPAN) as u64;
    let span = Some(moment / milliseconds);
    if links.chosen != span {
        links.chosen = span;
        choose(&mut links.lines, engine, moment);
    }
}
