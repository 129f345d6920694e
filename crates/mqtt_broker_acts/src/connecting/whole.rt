//! CONNECT, whether its client has a session or not (MQTT 5.0, 3.1.4, 3.2.2.2).
ghost use Rattle.std.specs.Prelude.{◌≡◌, ℕ, List, None, Some, IfOk, IfErr};
ghost use Rattle.mqtt_routes.specs.routing.Subscriptions.{Subscriber};
ghost use Rattle.mqtt_rules.specs.step.Connect.{on_connect, refusal};
ghost use Rattle.mqtt_rules.specs.step.Contents.{IsWilled};
ghost use Rattle.mqtt_rules.specs.step.Laws.{IsCoherent};
ghost use Rattle.mqtt_rules.specs.step.Routing.{subscribers};
ghost use Rattle.mqtt_rules.specs.step.State.{Line, session_named};
ghost use Rattle.mqtt_broker_queue.specs.publications.Choosing.{LeavesSome};
ghost use Rattle.mqtt_broker_acts.specs.closing.Wills.{will_at};
ghost use Rattle.mqtt_broker_acts.specs.connecting.Preparing.{IsConnected};

use crate::connecting::connecting::{connect_new, connect_refused, refusal_of};
use crate::connecting::joining::{Joined, birth_named};
use crate::connecting::standing::connect_standing;
use mqtt_base::Reason;
use mqtt_broker_queue::publications::Router;
use mqtt_broker_step::{Step, StepFault};
use mqtt_packet::Connect;
use std::alloc::Global;

/// A CONNECT that is refused at once, by the code of that.
fn refuse_at_once(
    alloc: Global,
    step: &mut Step,
    line: u64,
    connect: &Connect,
    code: Reason,
) -> Result<Joined, StepFault>
    requires { refusal connect.now step.old.broker.records ≡ Some code.0 }
    ensures ok { (l : Line) → l.number ≡ line
        → IfOk result (λ joined. IsConnected l connect.now joined step.old step.new) }
    ensures left { (l : Line) → l.number ≡ line → IfErr result (λ fault.
        LeavesSome (λ env. on_connect env l connect.now) fault step.old step.new) }
{
    connect_refused(alloc, step, line, connect, code)?;
    Ok(Joined::Done)
}

/// A CONNECT of a client identifier that no session has, or of none.
fn connect_first(
    alloc: Global,
    step: &mut Step,
    line: u64,
    connect: &Connect,
) -> Result<Joined, StepFault>
    requires coherent { IsCoherent step.old.broker.records }
    requires new { session_named connect.now.client_identifier step.old.broker.records ≡ None }
    ensures ok { (l : Line) → l.number ≡ line
        → IfOk result (λ joined. IsConnected l connect.now joined step.old step.new) }
    ensures left { (l : Line) → l.number ≡ line → IfErr result (λ fault.
        LeavesSome (λ env. on_connect env l connect.now) fault step.old step.new) }
{
    connect_new(alloc, step, line, connect)?;
    Ok(Joined::Done)
}

/// A CONNECT: it is refused at once, or what comes before a new connection of a client whose session stands is done, and
/// the session is resumed, or a new one begins. `Done` if that is done. If the answer is `NoPlace`, which isn't while
/// the sessions are within their limit, the step is to be taken back, and the client refused with Quota exceeded
/// (3.1.4, 3.2.2.2). While more sessions stand than may, `Memory` (1) may stand for `Spent` (3) (ours).
pub fn on_connect<R: Router>(
    alloc: Global,
    router: &mut R,
    step: &mut Step,
    line: u64,
    connect: &Connect,
) -> Result<Joined, StepFault>
    requires coherent { IsCoherent step.old.broker.records }
    requires serves { R.serves router.old (subscribers step.old.broker.records) }
    requires lawful { (birth : ℕ) → IsWilled (will_at birth step.old.broker.records) }
    ensures ok { (l : Line) → l.number ≡ line
        → IfOk result (λ joined. IsConnected l connect.now joined step.old step.new) }
    ensures left { (l : Line) → l.number ≡ line → IfErr result (λ fault.
        LeavesSome (λ env. on_connect env l connect.now) fault step.old step.new) }
    ensures serves { (sessions : List Subscriber) → R.serves router.old sessions
        → R.serves router.new sessions }
{
    if let Some(code) = refusal_of(step, connect) {
        return refuse_at_once(alloc, step, line, connect, code);
    }
    match birth_named(step, connect.client_identifier.as_str()) {
        Some(birth) => connect_standing(alloc, router, step, line, birth, connect),
        None => connect_first(alloc, step, line, connect),
    }
}
