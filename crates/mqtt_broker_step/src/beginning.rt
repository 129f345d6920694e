//! A session begins, with its first CONNECT (MQTT 5.0, 3.1.2.4).
ghost use Rattle.std.specs.Prelude.{◌≡◌, suc, None, IfOk, IfErr, OnOk};
ghost use Rattle.mqtt_records.specs.lists.Order.{IsAscending};
ghost use Rattle.mqtt_records.specs.declared.state.change.Change.TheVariants.{PutSession, SetCounter};
ghost use Rattle.mqtt_records.specs.declared.state.change.Counter.TheVariants.{Births};
ghost use Rattle.mqtt_records.specs.state.Session.{birth_of};
ghost use Rattle.mqtt_rules.specs.step.State.{session_at};
ghost use Rattle.mqtt_rules.specs.step.Numbers.{HasGivenBirths};
ghost use Rattle.mqtt_broker_step.specs.Doing.{begins, new_columns};
ghost use Rattle.mqtt_broker_step.specs.Stepping.{Did, IsLeft, IsLeftRow, written};

use crate::fault::StepFault;
use crate::numbers::{count, next};
use crate::step::Step;
use mqtt_base::{SESSION_LIMIT, Text};
use mqtt_records::{Boxed, Change, Columns, Counter, Rows, Session, SessionRow, Will};

/// What is so of sessions: they are in the order of their births. Shows it to the prover.
fn by_birth(sessions: &Rows<Boxed<Session>, SESSION_LIMIT>)
    ensures { IsAscending birth_of sessions.now }
{
    sessions.as_slice();
}

impl Step {
    /// A session that is new has this row.
    fn new_row(&mut self, columns: Columns) -> Result<(), StepFault>
        requires { session_at columns.birth self.old.broker.records ≡ None }
        ensures ok { OnOk result (self.new ≡ written (PutSession columns) self.old) }
        ensures left { IfErr result (λ fault.
            IsLeftRow (PutSession columns) fault self.old self.new) }
    {
        by_birth(&self.tables.records().sessions);
        let birth = columns.birth;
        let row = SessionRow::new(self.alloc, columns)?;
        self.make(Change::PutSession { row }, Change::RemoveSession { birth })
    }

    /// The next birth is given.
    fn give_birth(&mut self) -> Result<(), StepFault>
        ensures ok { OnOk result (self.new
            ≡ written (SetCounter Births (suc self.old.broker.records.births)) self.old) }
        ensures left { IfErr result (λ fault. IsLeftRow
            (SetCounter Births (suc self.old.broker.records.births)) fault self.old self.new) }
    {
        let last = self.tables.records().births;
        let birth = next(last)?;
        self.make(count(Counter::Births, birth), count(Counter::Births, last))
    }

    /// A session's rows but its Will.
    fn first_rows(&mut self, client: Text, expiry: u32) -> Result<u64, StepFault>
        requires { HasGivenBirths self.old.broker.records }
        ensures birth { IfOk result (λ birth. birth ≡ suc self.old.broker.records.births) }
        ensures ok { OnOk result (self.new
            ≡ written (SetCounter Births (suc self.old.broker.records.births))
            (written (PutSession (new_columns self.old.broker client expiry)) self.old)) }
        ensures left { IfErr result (λ fault. IsLeftRow
            (PutSession (new_columns self.old.broker client expiry)) fault self.old self.new) }
    {
        let birth = match next(self.tables.records().births) {
            Ok(birth) => birth,
            Err(fault) => {
                drop(client);
                return Err(fault);
            }
        };
        let columns = Columns {
            birth,
            client,
            expiry,
            closed: None,
        };
        self.new_row(columns)?;
        self.give_birth()?;
        Ok(birth)
    }

    /// A session begins, with a client identifier, a Session Expiry Interval in seconds and a Will, or none (3.1.2.4).
    /// Its birth is answered.
    pub fn begin_session(
        &mut self,
        client: Text,
        expiry: u32,
        will: Option<Will>,
    ) -> Result<u64, StepFault>
        requires { HasGivenBirths self.old.broker.records }
        ensures birth { IfOk result (λ birth. birth ≡ suc self.old.broker.records.births) }
        ensures ok { OnOk result (Did (begins client expiry will) self.old self.new) }
        ensures left { IfErr result (λ fault.
            IsLeft (begins client expiry will) fault self.old self.new) }
    {
        let birth = match self.first_rows(client, expiry) {
            Ok(birth) => birth,
            Err(fault) => {
                drop(will);
                return Err(fault);
            }
        };
        if let Some(will) = will {
            self.put_will(birth, Some(will))?;
        }
        Ok(birth)
    }
}
