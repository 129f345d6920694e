//! A step under way: deeds are done in place and noted for the store, and can be taken back.
ghost use Rattle.std.specs.Prelude.{◌≡◌, ◌≤◌, ◌<◌, [], ◌∷◌, ◌++◌, option_copied, IfOk, IfErr, OnOk, OnErr, vec_len, vec_capacity};
ghost use Rattle.mqtt_base.specs.declared.limits.TheConstants.{LAST_NUMBER as last_number};
ghost use Rattle.mqtt_records.specs.state.Records.{changed};
ghost use Rattle.mqtt_rules.specs.step.State.{session_at};
ghost use Rattle.mqtt_rules.specs.step.Step.{count_given, number_given};
ghost use Rattle.mqtt_broker_step.specs.Undoing.{become, broker_of, with_change};
ghost use Rattle.mqtt_broker_step.specs.Stepping.{at_rest, written, told, shut, sent, IsLeftRow, IsRefusedRow};

use crate::fault::StepFault;
use crate::tables::Tables;
use bytes::Bytes;
use mqtt_base::LAST_NUMBER;
use mqtt_records::{Change, Counter, Records, Session};
use mqtt_rules::{Capacity, Report};
use std::alloc::{AllocError, Global};
use std::marker::Model;

/// The broker's tables, and the step that is under way on them.
#[derive(Drop)]
pub struct Step {
    pub(crate) alloc: Global,
    pub(crate) limits: Capacity,
    pub(crate) tables: Tables,
    pub(crate) rows: Vec<Change>,
    pub(crate) outputs: Vec<(u64, Bytes)>,
    pub(crate) closed: Vec<u64>,
    pub(crate) reports: Vec<Report>,
}

impl Model for Step {
    ghost use Rattle.mqtt_broker_step.specs.Stepping.{Stepping, IsStep};

    ghost Value = { Stepping };

    ghost view = { λ a. record {
      limits = a.limits;
      start = a.tables.start;
      broker = a.tables.broker;
      rows = a.rows.items;
      outputs = a.outputs.items;
      closed = a.closed.items;
      reports = a.reports.items;
    } };

    ghost invariant = { λ a. IsStep a.tables.start a.tables.broker a.rows.items };
}

/// The number that a change of a counter gives.
fn count_given(counter: Counter, value: u64) -> u64
    ensures { result ≡ count_given counter value }
{
    match counter {
        Counter::Births | Counter::Publications | Counter::Subscribes | Counter::Autos => value,
        Counter::Moment => 0,
    }
}

/// The number that a row gives; 0 for none.
fn number_given(row: &Change) -> u64
    ensures { result ≡ number_given row.now }
{
    match row {
        Change::SetCounter { counter, value } => count_given(*counter, *value),
        Change::PutSession { row } => row.birth(),
        Change::SetSession { row } => row.birth,
        Change::PutSubscription { subscription, .. } => subscription.get().place,
        Change::PutInbound { .. }
        | Change::RemoveSession { .. }
        | Change::PutWill { .. }
        | Change::RemoveWill { .. }
        | Change::RemoveSubscription { .. }
        | Change::RemoveInbound { .. }
        | Change::RemoveCopy { .. }
        | Change::RemoveRetained { .. } => 0,
        Change::PutCopy { row, .. } => row.get().place(),
        Change::SetCopy { phase, .. } => phase.order(),
        Change::PutRetained { kept } => kept.get().place,
    }
}

/// A row as it is noted for the store, for which there is room then. Spent (3) if it gives a number above the last.
fn row_noted(rows: &mut Vec<Change>, row: &Change) -> Result<Change, StepFault>
    ensures noted { IfOk result (λ noted. noted ≡ row.now) }
    ensures within { OnOk result (number_given row.now ≤ last_number) }
    ensures same { rows.new.items ≡ rows.old.items }
    ensures room { OnOk result (vec_len rows.new < vec_capacity rows.new) }
    ensures fault { IfErr result (IsRefusedRow row.now) }
{
    if number_given(row) > LAST_NUMBER {
        return Err(StepFault::Spent);
    }
    rows.reserve(1)?;
    Ok(row.clone()?)
}

/// Makes a change that another takes back, and notes its row, for which there is room. A refusal changes nothing.
fn make_noted(
    tables: &mut Tables,
    rows: &mut Vec<Change>,
    change: Change,
    undo: Change,
    noted: Change,
) -> Result<(), StepFault>
    requires back { changed undo (changed change tables.old.broker.records)
        ≡ tables.old.broker.records }
    requires room { vec_len rows.old < vec_capacity rows.old }
    ensures made { OnOk result (tables.new
        ≡ become (with_change change tables.old.broker) tables.old) }
    ensures rows { OnOk result (rows.new.items ≡ rows.old.items ++ noted ∷ []) }
    ensures tables { OnErr result (tables.new ≡ tables.old) }
    ensures same { OnErr result (rows.new.items ≡ rows.old.items) }
    ensures fault { IfErr result (λ fault. fault ≡ StepFault.Memory) }
{
    match tables.make(change, undo) {
        Ok(()) => {
            rows.push(noted).unwrap();
            Ok(())
        }
        Err(_) => {
            drop(noted);
            Err(StepFault::Memory)
        }
    }
}

impl Step {
    /// A broker at rest with these records and no lines.
    pub fn new(
        alloc: Global,
        limits: Capacity,
        records: Records,
        moment: u64,
    ) -> Result<Step, AllocError>
        ensures { IfOk result (λ step. step
            ≡ at_rest limits (broker_of records [] [] 0 moment)) }
    {
        Ok(Step {
            alloc,
            limits,
            tables: Tables::new(alloc, records, moment)?,
            rows: Vec::new(alloc),
            outputs: Vec::new(alloc),
            closed: Vec::new(alloc),
            reports: Vec::new(alloc),
        })
    }

    /// Makes a change that another takes back, and notes its row. A refusal changes nothing.
    pub(crate) fn make(&mut self, row: Change, undo: Change) -> Result<(), StepFault>
        requires { changed undo (changed row self.old.broker.records)
            ≡ self.old.broker.records }
        ensures ok { OnOk result (self.new ≡ written row self.old) }
        ensures err { OnErr result (self.new ≡ self.old) }
        ensures fault { IfErr result (IsRefusedRow row) }
    {
        match row_noted(&mut self.rows, &row) {
            Ok(noted) => make_noted(&mut self.tables, &mut self.rows, row, undo, noted),
            Err(fault) => {
                drop(row);
                drop(undo);
                Err(fault)
            }
        }
    }

    /// Tells something.
    pub(crate) fn tell(&mut self, report: Report) -> Result<(), StepFault>
        ensures ok { OnOk result (self.new ≡ told report self.old) }
        ensures err { OnErr result (self.new ≡ self.old) }
        ensures fault { IfErr result (λ fault. fault ≡ StepFault.Memory) }
    {
        self.reports.push(report)?;
        Ok(())
    }

    /// Makes a change that another takes back, notes its row, and tells of it.
    pub(crate) fn make_told(
        &mut self,
        row: Change,
        undo: Change,
        report: Report,
    ) -> Result<(), StepFault>
        requires { changed undo (changed row self.old.broker.records)
            ≡ self.old.broker.records }
        ensures ok { OnOk result (self.new ≡ told report (written row self.old)) }
        ensures left { IfErr result (λ fault. IsLeftRow row fault self.old self.new) }
    {
        match self.make(row, undo) {
            Ok(()) => self.tell(report),
            Err(fault) => {
                drop(report);
                Err(fault)
            }
        }
    }

    /// A line closed.
    pub(crate) fn shut(&mut self, line: u64) -> Result<(), StepFault>
        ensures ok { OnOk result (self.new ≡ shut line self.old) }
        ensures err { OnErr result (self.new ≡ self.old) }
        ensures fault { IfErr result (λ fault. fault ≡ StepFault.Memory) }
    {
        self.closed.push(line)?;
        Ok(())
    }

    /// Bytes go out on a line.
    pub(crate) fn put_out(&mut self, line: u64, bytes: Bytes) -> Result<(), StepFault>
        ensures ok { OnOk result (self.new ≡ sent line bytes self.old) }
        ensures err { OnErr result (self.new ≡ self.old) }
        ensures fault { IfErr result (λ fault. fault ≡ StepFault.Memory) }
    {
        self.outputs.push((line, bytes))?;
        Ok(())
    }

    /// Makes room for so many packets that go out, and for as much to tell.
    pub fn make_room(&mut self, count: usize) -> Result<(), StepFault>
        ensures same { self.new ≡ self.old }
        ensures fault { IfErr result (λ fault. fault ≡ StepFault.Memory) }
    {
        self.outputs.reserve(count)?;
        self.reports.reserve(count)?;
        Ok(())
    }

    /// A session that stands. Takes no memory.
    pub fn session(&self, birth: u64) -> Option<&Session>
        ensures { option_copied result ≡ session_at birth self.now.broker.records }
    {
        self.tables.session(birth)
    }

    /// The number of the last publication. Takes no memory.
    pub fn publications(&self) -> u64
        ensures { result ≡ self.now.broker.records.publications }
    {
        self.tables.records().publications
    }

    /// The number of the last session that began. Takes no memory.
    pub fn births(&self) -> u64
        ensures { result ≡ self.now.broker.records.births }
    {
        self.tables.records().births
    }

    /// The number in the last client identifier that was assigned. Takes no memory.
    pub fn autos(&self) -> u64
        ensures { result ≡ self.now.broker.records.autos }
    {
        self.tables.records().autos
    }

    /// The number of the last granted filter. Takes no memory.
    pub fn subscribes(&self) -> u64
        ensures { result ≡ self.now.broker.records.subscribes }
    {
        self.tables.records().subscribes
    }

    /// Takes the whole step back. Takes no memory.
    pub fn take_back(&mut self)
        ensures { self.new ≡ at_rest self.old.limits self.old.start }
    {
        self.tables.take_back();
        self.rows.clear();
        self.outputs.clear();
        self.closed.clear();
        self.reports.clear();
    }
}
