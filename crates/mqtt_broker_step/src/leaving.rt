//! A copy leaves a session's queue, and the places that went out on the session's line (MQTT 5.0, 4.3, 4.4).
ghost use Rattle.std.specs.Prelude.{◌≡◌, ◌≤◌, ℕ, Some, map, IfOk, IfErr, OnOk};
ghost use Rattle.mqtt_records.specs.lists.Order.{change_row};
ghost use Rattle.mqtt_records.specs.declared.state.session.Session.{Session as TheSession};
ghost use Rattle.mqtt_records.specs.declared.state.change.Change.TheVariants.{RemoveCopy};
ghost use Rattle.mqtt_rules.specs.declared.step.Report.TheVariants as reports;
ghost use Rattle.mqtt_rules.specs.step.State.{session_at};
ghost use Rattle.mqtt_rules.specs.step.Deeds.{without_place};
ghost use Rattle.mqtt_rules.specs.step.Laws.{HasTables};
ghost use Rattle.mqtt_broker_step.specs.Lines.{changed_from, line_number, without_went, nth_changed};
ghost use Rattle.mqtt_broker_step.specs.Backs.{Makes, Unmakes};
ghost use Rattle.mqtt_broker_step.specs.Undoing.{with_lines};
ghost use Rattle.mqtt_broker_step.specs.Doing.{leaves};
ghost use Rattle.mqtt_broker_step.specs.Stepping.{Did, IsLeft, IsKept, written, with_broker};

use crate::fault::StepFault;
use crate::handshakes::has_tables;
use crate::line::{LineChange, LineState};
use crate::places::Places;
use crate::step::Step;
use mqtt_base::Ending;
use mqtt_records::{Change, CopyRow, Session};
use mqtt_rules::Report;
use std::alloc::{AllocError, Global};

/// The change of a line by which a place leaves those that went out. It takes memory if they don't ascend.
fn parting(alloc: Global, went: &Places, place: u64) -> Result<LineChange, AllocError>
    ensures { IfOk result (Makes (without_went place) went.now) }
{
    if let Some(index) = went.index_of(place) {
        return Ok(LineChange::RemoveWent { index });
    }
    Ok(LineChange::SetWent {
        went: went.without(alloc, place)?,
    })
}

/// The change of a line by which that place is back. It takes memory if there would be no room for it.
fn returning(alloc: Global, went: &Places, place: u64) -> Result<LineChange, AllocError>
    ensures { IfOk result (Unmakes (without_went place) went.now) }
{
    if let Some(index) = went.index_of(place) {
        if went.may_put_back() {
            return Ok(LineChange::PutWentBack { index, place });
        }
    }
    Ok(LineChange::SetWent {
        went: went.copied(alloc)?,
    })
}

/// That a copy left the queue of a session.
fn ended(session: &Session, row: &CopyRow, ending: Ending) -> Result<Report, AllocError>
    ensures { IfOk result (λ report. report
        ≡ reports.Ended row.now.copy.id session.now.client ending) }
{
    let client = session.client.clone()?;
    match row.id().clone() {
        Ok(copy) => Ok(Report::Ended {
            copy,
            client,
            ending,
        }),
        Err(fault) => {
            drop(client);
            Err(fault)
        }
    }
}

/// The index of the first line, from one on, that a session is connected on; if there is none, one behind the last.
fn next_of(lines: &[LineState], from: usize, birth: u64) -> usize
    ensures next { (place : ℕ) → changed_from from (without_place birth place) lines.now
        ≡ changed_from result (without_place birth place) lines.now }
    ensures behind { from ≤ result }
{
    let mut at = from;
    while at < lines.len() && !lines[at].is_of(birth) {
        at += 1;
    }
    at
}

impl Step {
    /// A place leaves those that went out on a line.
    fn drop_went(&mut self, line: u64, place: u64) -> Result<(), StepFault>
        ensures ok { OnOk result (self.new ≡ with_broker (with_lines (change_row line_number line
            (without_went place) self.old.broker.lines) self.old.broker) self.old) }
        ensures left { IfErr result (λ fault. IsKept fault self.old self.new) }
    {
        let Some(state) = self.line(line) else {
            return Ok(());
        };
        if !state.went().contains(place) {
            return Ok(());
        }
        let undo = returning(self.alloc, state.went(), place)?;
        match parting(self.alloc, state.went(), place) {
            Ok(change) => self.edit_line(line, change, undo),
            Err(_) => {
                drop(undo);
                Err(StepFault::Memory)
            }
        }
    }

    /// A session's place leaves those that went out on the line at an index, if the session is connected on it.
    fn drop_at(&mut self, at: usize, birth: u64, place: u64) -> Result<(), StepFault>
        ensures ok { OnOk result (self.new ≡ with_broker (with_lines (nth_changed at
            (without_place birth place) self.old.broker.lines) self.old.broker) self.old) }
        ensures left { IfErr result (λ fault. IsKept fault self.old self.new) }
    {
        let Some(line) = self.lines().get(at) else {
            return Ok(());
        };
        if !line.is_of(birth) {
            return Ok(());
        }
        let number = line.number();
        self.drop_went(number, place)
    }

    /// A session's place leaves those that went out on its line.
    fn drop_places(&mut self, birth: u64, place: u64) -> Result<(), StepFault>
        ensures ok { OnOk result (self.new ≡ with_broker (with_lines (map
            (without_place birth place) self.old.broker.lines) self.old.broker) self.old) }
        ensures left { IfErr result (λ fault. IsKept fault self.old self.new) }
    {
        let count = self.lines().len();
        let mut at = next_of(self.lines(), 0, birth);
        while at < count {
            self.drop_at(at, birth, place)?;
            at = next_of(self.lines(), at + 1, birth);
        }
        Ok(())
    }

    /// A copy's row leaves a queue.
    fn drop_row(&mut self, birth: u64, place: u64) -> Result<(), StepFault>
        requires { (s : TheSession) → session_at birth self.old.broker.records ≡ Some s → HasTables s }
        ensures ok { OnOk result (self.new ≡ written (RemoveCopy birth place) self.old) }
        ensures left { IfErr result (λ fault. IsKept fault self.old self.new) }
    {
        self.rows.reserve(1)?;
        self.tables.take_copy(birth, place)?;
        self.rows.push(Change::RemoveCopy { birth, place }).unwrap();
        Ok(())
    }

    /// The copy at a place of a session's queue leaves it, if it stands there (4.3, 4.4).
    pub fn leave(&mut self, birth: u64, place: u64, ending: Ending) -> Result<(), StepFault>
        ensures ok { OnOk result (Did (leaves birth place ending) self.old self.new) }
        ensures left { IfErr result (λ fault.
            IsLeft (leaves birth place ending) fault self.old self.new) }
    {
        let Some(session) = self.session(birth) else {
            return Ok(());
        };
        let Some(row) = session.queue.get(place) else {
            return Ok(());
        };
        has_tables(session);
        let report = ended(session, row.get(), ending)?;
        self.tell(report)?;
        self.drop_row(birth, place)?;
        self.drop_places(birth, place)
    }
}
