//! A copy enters a session's queue (MQTT 5.0, 4.6).
ghost use Rattle.std.specs.Prelude.{◌≡◌, IfOk, IfErr, OnOk, map};
ghost use Rattle.mqtt_base.specs.declared.session.Phase.TheVariants.{Waiting};
ghost use Rattle.mqtt_records.specs.messages.Queue.{IsSpelled};
ghost use Rattle.mqtt_records.specs.state.Session.{copy_place};
ghost use Rattle.mqtt_routes.specs.routing.Intended.{greatest};
ghost use Rattle.mqtt_rules.specs.declared.step.Report.TheVariants as reports;
ghost use Rattle.mqtt_rules.specs.step.Deeds.{Enter};
ghost use Rattle.mqtt_rules.specs.step.Laws.{HasTables};
ghost use Rattle.mqtt_broker_step.specs.Stepping.{Did, IsLeft, to_session};

use crate::fault::StepFault;
use crate::handshakes::has_tables;
use crate::numbers::next;
use crate::step::Step;
use mqtt_base::Phase;
use mqtt_records::{Boxed, Change, CopyRow, MessageCopy, Session};
use mqtt_rules::Report;
use std::alloc::{AllocError, Global};

/// The greatest place in a session's queue; 0 if it is empty.
fn last_place(session: &Session) -> u64
    ensures place { result ≡ greatest (map copy_place session.now.queue) }
    ensures tables { HasTables session.now }
{
    has_tables(session);
    match session.queue.last() {
        Some(row) => row.get().place(),
        None => 0,
    }
}

/// A copy as it stands in a queue before its PUBLISH is sent.
fn waiting(alloc: Global, place: u64, copy: MessageCopy) -> Result<Boxed<CopyRow>, StepFault>
    requires { IsSpelled copy }
    ensures row { IfOk result (λ row. row
        ≡ record { place = place; phase = Waiting; copy = copy }) }
    ensures fault { IfErr result (λ fault. fault ≡ StepFault.Memory) }
{
    match CopyRow::new(alloc, place, Phase::Waiting, copy) {
        Ok(row) => Ok(Boxed::new(alloc, row)?),
        Err(_) => Err(StepFault::Memory),
    }
}

/// That a copy entered the queue of a session.
fn entered(session: &Session, copy: &MessageCopy) -> Result<Report, AllocError>
    ensures { IfOk result (λ report. report
        ≡ reports.Entered copy.now.id session.now.client) }
{
    let client = session.client.clone()?;
    match copy.id.clone() {
        Ok(copy) => Ok(Report::Entered { copy, client }),
        Err(fault) => {
            drop(client);
            Err(fault)
        }
    }
}

impl Step {
    /// A copy, whose PUBLISH has a spelling, enters a session's queue at the next place (4.6).
    pub fn enter(&mut self, birth: u64, copy: MessageCopy) -> Result<(), StepFault>
        requires { IsSpelled copy }
        ensures ok { OnOk result (Did (to_session birth (Enter copy)) self.old self.new) }
        ensures left { IfErr result (λ fault.
            IsLeft (to_session birth (Enter copy)) fault self.old self.new) }
    {
        let Some(session) = self.session(birth) else {
            drop(copy);
            return Ok(());
        };
        let birth = session.birth;
        let place = match next(last_place(session)) {
            Ok(place) => place,
            Err(fault) => {
                drop(copy);
                return Err(fault);
            }
        };
        let report = match entered(session, &copy) {
            Ok(report) => report,
            Err(_) => {
                drop(copy);
                return Err(StepFault::Memory);
            }
        };
        let row = match waiting(self.alloc, place, copy) {
            Ok(row) => row,
            Err(fault) => {
                drop(report);
                return Err(fault);
            }
        };
        let undo = Change::RemoveCopy { birth, place };
        self.make_told(Change::PutCopy { birth, row }, undo, report)
    }
}
