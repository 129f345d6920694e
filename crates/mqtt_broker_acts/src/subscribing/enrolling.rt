//! A filter is granted: it gets its number, and the session has its subscription (MQTT 5.0, 3.8.4).
ghost use Rattle.std.specs.Prelude.{◌≡◌, Some, IfOk, IfErr, OnOk};
ghost use Rattle.mqtt_records.specs.declared.state.session.Session.{Session};
ghost use Rattle.mqtt_rules.specs.step.State.{session_at};
ghost use Rattle.mqtt_rules.specs.step.Subscribe.{Wish, next_number};
ghost use Rattle.mqtt_broker_step.specs.Stepping.{Did, IsLeft};
ghost use Rattle.mqtt_broker_step.specs.Subscribing.{HaveFiltersOnce};
ghost use Rattle.mqtt_broker_acts.specs.subscribing.Enrolling.{enrolls};

use mqtt_base::{SubscriptionOptions, Text};
use mqtt_broker_looks::decided::subscription_of;
use mqtt_broker_step::{Step, StepFault};

/// Gives a filter its number, and the session its subscription, instead of one to the same filter, whose place
/// it keeps (3.8.4). The number is answered.
pub fn enroll(
    step: &mut Step,
    birth: u64,
    text: Text,
    options: SubscriptionOptions,
    identifier: Option<u32>,
) -> Result<u64, StepFault>
    requires { HaveFiltersOnce step.old.broker.records }
    ensures number { IfOk result (λ number. number ≡ next_number step.old.broker.records) }
    ensures ok { (s : Session) (w : Wish) → session_at birth step.old.broker.records ≡ Some s
        → w.filter ≡ text → w.options ≡ options → w.identifier ≡ identifier
        → OnOk result (Did (enrolls s w) step.old step.new) }
    ensures left { (s : Session) (w : Wish) → session_at birth step.old.broker.records ≡ Some s
        → w.filter ≡ text → w.options ≡ options → w.identifier ≡ identifier
        → IfErr result (λ fault. IsLeft (enrolls s w) fault step.old step.new) }
{
    let number = match step.count() {
        Ok(number) => number,
        Err(fault) => {
            drop(text);
            return Err(fault);
        }
    };
    let Some(session) = step.session(birth) else {
        drop(text);
        return Ok(number);
    };
    let subscription = subscription_of(number, session, text, options, identifier);
    match step.subscribe(birth, subscription) {
        Ok(()) => Ok(number),
        Err(fault) => Err(fault),
    }
}
