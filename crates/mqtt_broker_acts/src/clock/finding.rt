//! What is due (MQTT 5.0, 3.1.2.10, 3.1.2.11.2, 3.1.3.2.2, 3.3.2.3.3).
ghost use Rattle.std.specs.Prelude.{◌≡◌, is_some, option_map, option_copied};
ghost use Rattle.mqtt_records.specs.lists.Order.{IsAscending};
ghost use Rattle.mqtt_records.specs.state.Session.{birth_of};
ghost use Rattle.mqtt_rules.specs.step.State.{Env};
ghost use Rattle.mqtt_rules.specs.step.Step.{Tick, deeds_of, is_again};
ghost use Rattle.mqtt_broker_step.specs.Lines.{line_number};
ghost use Rattle.mqtt_broker_step.specs.Undoing.{moment_of};
ghost use Rattle.mqtt_broker_acts.specs.closing.Ticking.{will_due_in, end_due_in, lapsed_in, stale_in};
ghost use Rattle.mqtt_broker_acts.specs.clock.Quiet.{AreQuietBefore};
ghost use Rattle.mqtt_broker_acts.specs.clock.Ticking.{silent_number_in, first_of, stored_in, due_in, does_first};

use crate::closing::silent_line;
use mqtt_broker_looks::decided::{has_due_end, has_due_will, has_lapsed, is_stale};
use mqtt_broker_step::Step;
use mqtt_records::{Boxed, Session};

/// What is due.
#[derive(Clone, Copy, Debug, PartialEq, Eq)]
pub enum Due {
    /// A line is silent for too long (3.1.2.10).
    Silence {
        /// The line's number.
        line: u64,
    },
    /// A Will is to be published (3.1.3.2.2).
    Will {
        /// The session's birth.
        birth: u64,
    },
    /// A session is to end (3.1.2.11.2).
    End {
        /// The session's birth.
        birth: u64,
    },
    /// A retained message has expired (3.3.2.3.3).
    Stale {
        /// The message's place.
        place: u64,
    },
    /// Copies that wait for a session have expired (3.3.2.3.3).
    Lapse {
        /// The session's birth.
        birth: u64,
    },
}

/// A session's birth, if there is one.
fn birth_of(session: Option<&Boxed<Session>>) -> Option<u64>
    ensures { result ≡ option_map birth_of (option_copied session.entry) }
{
    match session {
        Some(session) => Some(session.get().birth),
        None => None,
    }
}

/// The number of the first line that is silent for too long (3.1.2.10). Takes no memory.
pub fn silent_number(step: &Step) -> Option<u64>
    ensures { result ≡ silent_number_in step.now.broker }
{
    match silent_line(step) {
        Some(line) => Some(line.number()),
        None => None,
    }
}

/// The lowest birth of a session whose Will is due (3.1.3.2.2). Takes no memory.
pub fn due_will(step: &Step) -> Option<u64>
    ensures { result ≡ will_due_in (moment_of step.now.broker) step.now.broker.records }
{
    let moment = step.moment();
    let mut sessions = step.all_sessions().iter();
    birth_of(sessions.find(|session| has_due_will(moment, session.get())))
}

/// The lowest birth of a session whose end is due (3.1.2.11.2). Takes no memory.
pub fn due_end(step: &Step) -> Option<u64>
    ensures { result ≡ end_due_in (moment_of step.now.broker) step.now.broker.records }
{
    let moment = step.moment();
    let mut sessions = step.all_sessions().iter();
    birth_of(sessions.find(|session| has_due_end(moment, session.get())))
}

/// The place of the first retained message that has expired (3.3.2.3.3). Takes no memory.
pub fn stale_message(step: &Step) -> Option<u64>
    ensures { result ≡ stale_in (moment_of step.now.broker) step.now.broker.records }
{
    let moment = step.moment();
    let mut retained = step.all_retained().iter();
    match retained.find(|kept| is_stale(moment, kept.get())) {
        Some(kept) => Some(kept.get().place),
        None => None,
    }
}

/// The lowest birth of a session for which copies wait that have expired (3.3.2.3.3). Takes no memory.
pub fn lapsed_session(step: &Step) -> Option<u64>
    ensures { result ≡ lapsed_in (moment_of step.now.broker) step.now.broker.records }
{
    let moment = step.moment();
    let mut sessions = step.all_sessions().iter();
    birth_of(sessions.find(|session| has_lapsed(moment, session.get())))
}

/// What is so of sessions and lines: they are in order. Shows it to the prover.
pub(crate) fn in_order(step: &Step)
    ensures sessions { IsAscending birth_of step.now.broker.records.sessions }
    ensures lines { IsAscending line_number step.now.broker.lines }
{
    step.all_sessions();
    step.lines();
}

/// The first of these that is due: a Will; an end; a retained message has expired; copies that wait have expired. Each
/// is the first of its kind. It looks at all that is stored. Takes no memory.
fn stored_due(step: &Step) -> Option<Due>
    ensures { result ≡ first_of (stored_in (moment_of step.now.broker) step.now.broker.records) }
{
    if let Some(birth) = due_will(step) {
        return Some(Due::Will { birth });
    }
    if let Some(birth) = due_end(step) {
        return Some(Due::End { birth });
    }
    if let Some(place) = stale_message(step) {
        return Some(Due::Stale { place });
    }
    match lapsed_session(step) {
        Some(birth) => Some(Due::Lapse { birth }),
        None => None,
    }
}

/// The first of these that is due: a line is silent for too long; what is stored, which isn't looked at before the
/// moment `quiet`. Takes no memory.
fn first_due(step: &Step, quiet: u64) -> Option<Due>
    requires { AreQuietBefore quiet step.now.broker.records }
    ensures { result ≡ due_in step.now.broker }
{
    if let Some(line) = silent_number(step) {
        return Some(Due::Silence { line });
    }
    if step.moment() < quiet {
        None
    } else {
        stored_due(step)
    }
}

/// What is due, and nothing else is done in a turn of the clock: the first of these, where each is the first of its
/// kind: a line is silent for too long; a Will; an end; a retained message has expired; copies that wait have expired.
/// Before the moment `quiet` nothing that is stored is due, and only lines are looked at. Takes no memory.
pub fn next_due(step: &Step, quiet: u64) -> Option<Due>
    requires { AreQuietBefore quiet step.now.broker.records }
    ensures exact { result ≡ due_in step.now.broker }
    ensures deeds { (env : Env) → deeds_of env Tick step.now.broker
        ≡ does_first result env step.now.broker }
    ensures again { (env : Env) → is_again Tick (deeds_of env Tick step.now.broker)
        ≡ is_some result }
{
    in_order(step);
    first_due(step, quiet)
}
