//! CONNECT of a client whose session stands (MQTT 5.0, 3.1.2.4, 3.1.4, 3.2.2.2).
ghost use Rattle.std.specs.Prelude.{◌≡◌, ◌≤◌, List, None, length, IfOk, IfErr};
ghost use Rattle.mqtt_routes.specs.routing.Subscriptions.{Subscriber};
ghost use Rattle.mqtt_rules.specs.step.Connect.{on_connect, refusal};
ghost use Rattle.mqtt_rules.specs.step.Contents.{IsWilled};
ghost use Rattle.mqtt_rules.specs.step.Numbers.{HasGivenBirths};
ghost use Rattle.mqtt_rules.specs.step.Routing.{subscribers};
ghost use Rattle.mqtt_rules.specs.step.State.{Line};
ghost use Rattle.mqtt_broker_queue.specs.publications.Choosing.{LeavesSome};
ghost use Rattle.mqtt_broker_acts.specs.closing.Wills.{will_at};
ghost use Rattle.mqtt_broker_acts.specs.connecting.Joining.{IsNamedAt};
ghost use Rattle.mqtt_broker_acts.specs.connecting.Preparing.{IsConnected, IsOnly};

use crate::connecting::joining::{Joined, join};
use crate::connecting::preparing::prepare;
use mqtt_broker_queue::publications::Router;
use mqtt_broker_step::{Step, StepFault};
use mqtt_packet::Connect;
use std::alloc::Global;

/// Such a CONNECT while the sessions are within their limit: what comes before its new connection, then that.
fn connect_within<R: Router>(
    alloc: Global,
    router: &mut R,
    step: &mut Step,
    line: u64,
    birth: u64,
    connect: &Connect,
) -> Result<Joined, StepFault>
    requires unrefused { refusal connect.now step.old.broker.records ≡ None }
    requires named { IsNamedAt connect.now.client_identifier birth step.old.broker.records }
    requires only { IsOnly connect.now.client_identifier birth step.old.broker.records }
    requires given { HasGivenBirths step.old.broker.records }
    requires serves { R.serves router.old (subscribers step.old.broker.records) }
    requires lawful { IsWilled (will_at birth step.old.broker.records) }
    requires within { length step.old.broker.records.sessions ≤ step.old.limits.sessions }
    ensures ok { (l : Line) → l.number ≡ line
        → IfOk result (λ joined. IsConnected l connect.now joined step.old step.new) }
    ensures left { (l : Line) → l.number ≡ line → IfErr result (λ fault. LeavesSome
        (λ env. on_connect env l connect.now) fault step.old step.new) }
    ensures serves { (sessions : List Subscriber) → R.serves router.old sessions
        → R.serves router.new sessions }
{
    prepare(alloc, router, step, birth, connect)?;
    join(alloc, step, line, connect)
}

/// The same while more sessions stand than may, as after an opening under lower limits. If what comes before its new
/// connection needs a number above 2^62, the answer is `Memory` (1), and not `Spent` (3): the session may have to go
/// without a place for the next one, so that no number is spent (ours).
fn connect_crowded<R: Router>(
    alloc: Global,
    router: &mut R,
    step: &mut Step,
    line: u64,
    birth: u64,
    connect: &Connect,
) -> Result<Joined, StepFault>
    requires unrefused { refusal connect.now step.old.broker.records ≡ None }
    requires named { IsNamedAt connect.now.client_identifier birth step.old.broker.records }
    requires only { IsOnly connect.now.client_identifier birth step.old.broker.records }
    requires given { HasGivenBirths step.old.broker.records }
    requires serves { R.serves router.old (subscribers step.old.broker.records) }
    requires lawful { IsWilled (will_at birth step.old.broker.records) }
    ensures ok { (l : Line) → l.number ≡ line
        → IfOk result (λ joined. IsConnected l connect.now joined step.old step.new) }
    ensures left { (l : Line) → l.number ≡ line → IfErr result (λ fault. LeavesSome
        (λ env. on_connect env l connect.now) fault step.old step.new) }
    ensures serves { (sessions : List Subscriber) → R.serves router.old sessions
        → R.serves router.new sessions }
{
    match prepare(alloc, router, step, birth, connect) {
        Ok(()) => join(alloc, step, line, connect),
        Err(_) => Err(StepFault::Memory),
    }
}

/// A CONNECT that isn't refused at once, of a client whose session stands and is the only one of its client identifier:
/// what comes before its new connection, then the session is resumed, or a new one begins. If the answer is `NoPlace`,
/// which isn't while the sessions are within their limit, the step is to be taken back, and the client refused with
/// Quota exceeded (3.1.2.4, 3.1.4). While more sessions stand than may, `Memory` (1) may stand for `Spent` (3) (ours).
pub(crate) fn connect_standing<R: Router>(
    alloc: Global,
    router: &mut R,
    step: &mut Step,
    line: u64,
    birth: u64,
    connect: &Connect,
) -> Result<Joined, StepFault>
    requires unrefused { refusal connect.now step.old.broker.records ≡ None }
    requires named { IsNamedAt connect.now.client_identifier birth step.old.broker.records }
    requires only { IsOnly connect.now.client_identifier birth step.old.broker.records }
    requires given { HasGivenBirths step.old.broker.records }
    requires serves { R.serves router.old (subscribers step.old.broker.records) }
    requires lawful { IsWilled (will_at birth step.old.broker.records) }
    ensures ok { (l : Line) → l.number ≡ line
        → IfOk result (λ joined. IsConnected l connect.now joined step.old step.new) }
    ensures left { (l : Line) → l.number ≡ line → IfErr result (λ fault. LeavesSome
        (λ env. on_connect env l connect.now) fault step.old step.new) }
    ensures serves { (sessions : List Subscriber) → R.serves router.old sessions
        → R.serves router.new sessions }
{
    if step.sessions_len() > step.session_limit() {
        return connect_crowded(alloc, router, step, line, birth, connect);
    }
    connect_within(alloc, router, step, line, birth, connect)
}
