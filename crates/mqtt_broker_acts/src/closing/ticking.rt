//! A turn of the clock: what is due, and lines that are silent (MQTT 5.0, 3.1.2.10, 3.1.2.11.2, 3.1.3.2.2,
//! 3.3.2.3.3).
ghost use Rattle.std.specs.Prelude.{◌≡◌, ℕ, List, Some, option_copied, OnOk, IfErr};
ghost use Rattle.mqtt_routes.specs.routing.Subscriptions.{Subscriber};
ghost use Rattle.mqtt_rules.specs.step.Contents.{IsWilled};
ghost use Rattle.mqtt_rules.specs.step.Routing.{subscribers};
ghost use Rattle.mqtt_rules.specs.step.State.{Line};
ghost use Rattle.mqtt_rules.specs.step.Tick.{is_silent, silence};
ghost use Rattle.mqtt_broker_queue.specs.publications.Choosing.{DoesSome, LeavesSome};
ghost use Rattle.mqtt_broker_acts.specs.closing.Ticking.{silent_in};
ghost use Rattle.mqtt_broker_acts.specs.closing.Wills.{will_at};
ghost use Rattle.mqtt_broker_step.specs.Undoing.{moment_of};

use crate::closing::closing::{close, drop_line};
use mqtt_base::Reason;
use mqtt_broker_looks::decided::is_silent;
use mqtt_broker_queue::publications::Router;
use mqtt_broker_step::{LineState, Step, StepFault};
use std::alloc::Global;

/// Whether a line is silent for too long (3.1.2.10).
fn is_line_silent(moment: u64, line: &LineState) -> bool
    ensures { result ≡ is_silent moment line.now.session line.now }
{
    let is_connected = line.session().is_some();
    is_silent(moment, line.heard(), line.keep_alive(), is_connected)
}

/// The first line that is silent for too long (3.1.2.10). Takes no memory.
pub fn silent_line(step: &Step) -> Option<&LineState>
    ensures { option_copied result ≡ silent_in (moment_of step.now.broker) step.now.broker.lines }
{
    let moment = step.moment();
    step.lines()
        .iter()
        .find(|line| is_line_silent(moment, line))
}

/// A line that is silent for too long closes, with DISCONNECT if a session is connected on it (3.1.2.10). `session`
/// is its birth.
pub fn close_silent<R: Router>(
    alloc: Global,
    router: &mut R,
    step: &mut Step,
    line: u64,
    session: Option<u64>,
) -> Result<(), StepFault>
    requires serves { R.serves router.old (subscribers step.old.broker.records) }
    requires lawful { (birth : ℕ) → session ≡ Some birth
        → IsWilled (will_at birth step.old.broker.records) }
    ensures ok { (l : Line) → l.number ≡ line → l.session ≡ session
        → OnOk result (DoesSome (λ env. silence env l.session l) step.old step.new) }
    ensures left { (l : Line) → l.number ≡ line → l.session ≡ session
        → IfErr result (λ fault. LeavesSome (λ env. silence env l.session l) fault
        step.old step.new) }
    ensures serves { (sessions : List Subscriber) → R.serves router.old sessions
        → R.serves router.new sessions }
{
    match session {
        Some(_) => drop_line(
            alloc,
            router,
            step,
            line,
            session,
            Reason::KEEP_ALIVE_TIMEOUT,
        ),
        None => close(alloc, router, step, line, session, true),
    }
}
