//! Deeds that give a number: a publication is accepted, a filter granted, a client identifier assigned
//! (MQTT 5.0, 3.1.3.1, 3.3.4).
ghost use Rattle.std.specs.Prelude.{◌≡◌, ◌≤◌, suc, IfOk, IfErr, OnOk};
ghost use Rattle.mqtt_rules.specs.step.Deeds.{Message, Origin};
ghost use Rattle.mqtt_rules.specs.step.Routing.{next_publication};
ghost use Rattle.mqtt_broker_step.specs.Stepping.{Did, IsLeft};
ghost use Rattle.mqtt_broker_step.specs.Doing.{accepts, names, counts};

use crate::fault::StepFault;
use crate::step::Step;
use mqtt_base::LAST_NUMBER;
use mqtt_records::{Change, Counter};
use mqtt_rules::Report;

/// The number after the last one that was given.
pub(crate) fn next(last: u64) -> Result<u64, StepFault>
    ensures next { IfOk result (λ number. number ≡ suc last) }
    ensures within { IfOk result (λ number. number ≤ LAST_NUMBER) }
    ensures spent { IfErr result (λ fault. (fault ≡ StepFault.Spent) × (LAST_NUMBER ≤ last)) }
{
    if last >= LAST_NUMBER {
        return Err(StepFault::Spent);
    }
    Ok(last + 1)
}

/// The change of a number, and the change that takes it back.
pub(crate) fn count(counter: Counter, value: u64) -> Change
    ensures { result ≡ Change.SetCounter counter value }
{
    Change::SetCounter { counter, value }
}

impl Step {
    /// A publication is accepted, and gets the next number (3.3.4).
    pub fn accept(&mut self) -> Result<u64, StepFault>
        ensures number { IfOk result (λ number. number
            ≡ next_publication self.old.broker.records) }
        ensures ok { (origin : Origin) (m : Message) → OnOk result (Did (accepts origin m)
            self.old self.new) }
        ensures left { (origin : Origin) (m : Message) → IfErr result (λ fault.
            IsLeft (accepts origin m) fault self.old self.new) }
    {
        let last = self.publications();
        let number = next(last)?;
        self.make_told(
            count(Counter::Publications, number),
            count(Counter::Publications, last),
            Report::Accepted {
                publication: number,
            },
        )?;
        Ok(number)
    }

    /// A client identifier is assigned, with the next number in it (3.1.3.1).
    pub fn name(&mut self) -> Result<u64, StepFault>
        ensures number { IfOk result (λ number. number ≡ suc self.old.broker.records.autos) }
        ensures ok { OnOk result (Did names self.old self.new) }
        ensures left { IfErr result (λ fault. IsLeft names fault self.old self.new) }
    {
        let last = self.autos();
        let number = next(last)?;
        self.make(count(Counter::Autos, number), count(Counter::Autos, last))?;
        Ok(number)
    }

    /// A filter is granted, and gets the next number (3.8.4).
    pub fn count(&mut self) -> Result<u64, StepFault>
        ensures number { IfOk result (λ number. number
            ≡ suc self.old.broker.records.subscribes) }
        ensures ok { OnOk result (Did counts self.old self.new) }
        ensures left { IfErr result (λ fault. IsLeft counts fault self.old self.new) }
    {
        let last = self.subscribes();
        let number = next(last)?;
        self.make(
            count(Counter::Subscribes, number),
            count(Counter::Subscribes, last),
        )?;
        Ok(number)
    }
}
