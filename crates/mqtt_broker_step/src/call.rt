//! A step begins at a moment, and ends: the store is told, and it is done or taken back (MQTT 5.0, 4.1).
ghost use Rattle.std.specs.Prelude.{◌≡◌, ◌≢◌, ◌⊎◌, [], false, IfOk, IfErr, OnOk, OnErr, IsErrOf};
ghost use Rattle.mqtt_records.specs.declared.state.records.Records.{Records};
ghost use Rattle.mqtt_records.specs.state.Records.{changed_all};
ghost use Rattle.mqtt_rules.specs.step.Step.{at_moment, is_spent};
ghost use Rattle.mqtt_broker_step.specs.Undoing.{moment_of};
ghost use Rattle.mqtt_broker_step.specs.Stepping.{CanStore, at_rest, with_broker, with_stamp};

use crate::fault::StepFault;
use crate::step::Step;
use bytes::Bytes;
use mqtt_base::LAST_NUMBER;
use mqtt_keep::{Keep, KeepError};
use mqtt_records::{Change, Counter};
use mqtt_rules::Report;
use std::alloc::Global;
use std::mem;
use thiserror::Error;

/// Why a call of the engine did nothing.
#[derive(Clone, Copy, Debug, PartialEq, Eq, Error)]
pub enum EngineError {
    /// 1: want of memory. Nothing changed.
    #[error("want of memory")]
    Memory = 1,
    /// 2: the store failed. Open the engine again.
    #[error("the store failed")]
    Stopped = 2,
    /// 3: the next number would be above 2^62. Nothing changed.
    #[error("numbers are spent")]
    Spent = 3,
}

/// What a step tells, each in the order in which it came about.
#[derive(Drop)]
pub struct Outcome {
    /// Packets as they go out, each with its line.
    pub outputs: Vec<(u64, Bytes)>,
    /// Lines that closed.
    pub closed: Vec<u64>,
    /// What came about.
    pub reports: Vec<Report>,
}

/// Takes out what a step told. Takes no memory.
pub(crate) fn take_told(
    alloc: Global,
    outputs: &mut Vec<(u64, Bytes)>,
    closed: &mut Vec<u64>,
    reports: &mut Vec<Report>,
) -> Outcome
    ensures outputs { (result.outputs.items ≡ outputs.old.items) × (outputs.new.items ≡ []) }
    ensures closed { (result.closed.items ≡ closed.old.items) × (closed.new.items ≡ []) }
    ensures reports { (result.reports.items ≡ reports.old.items) × (reports.new.items ≡ []) }
{
    Outcome {
        outputs: mem::replace(outputs, Vec::new(alloc)),
        closed: mem::replace(closed, Vec::new(alloc)),
        reports: mem::replace(reports, Vec::new(alloc)),
    }
}

impl Step {
    /// The moment. Takes no memory.
    pub fn moment(&self) -> u64
        ensures { result ≡ moment_of self.now.broker }
    {
        self.tables.moment()
    }

    /// A step begins at a moment, or at the last one if that is later (ours).
    pub fn begin(&mut self, moment: u64) -> Result<(), StepFault>
        ensures ok { OnOk result (self.new
            ≡ with_broker (at_moment moment self.old.broker) self.old) }
        ensures err { OnErr result (self.new ≡ self.old) }
        ensures fault { IfErr result (λ fault. fault ≡ StepFault.Memory) }
    {
        let moment = self.tables.moment().max(moment.min(LAST_NUMBER));
        self.tables.set_moment(moment)?;
        Ok(())
    }

    /// The moment is stored with what else is, unless it is stored already. If nothing else is, it isn't.
    pub fn stamp(&mut self) -> Result<(), StepFault>
        ensures ok { OnOk result (self.new ≡ with_stamp self.old) }
        ensures err { OnErr result (self.new ≡ self.old) }
        ensures fault { IfErr result (λ fault. fault ≡ StepFault.Memory) }
    {
        if self.rows.is_empty() {
            return Ok(());
        }
        let before = self.tables.records().moment;
        let value = self.tables.moment();
        if value == before {
            return Ok(());
        }
        let counter = Counter::Moment;
        let row = Change::SetCounter { counter, value };
        let undo = Change::SetCounter {
            counter,
            value: before,
        };
        self.make(row, undo)
    }

    /// The rows that the step has written, for the store and for what goes along with it. Takes no memory.
    pub fn rows(&self) -> &[Change]
        ensures rows { result.now ≡ self.now.rows }
        ensures made { changed_all self.now.rows self.now.start.records
            ≡ self.now.broker.records }
        ensures unspent { is_spent self.now.rows ≡ false }
    {
        &self.rows
    }

    /// The step is done. Takes no memory.
    fn settle(&mut self) -> Outcome
        ensures step { self.new ≡ at_rest self.old.limits self.old.broker }
        ensures outputs { result.outputs.items ≡ self.old.outputs }
        ensures closed { result.closed.items ≡ self.old.closed }
        ensures reports { result.reports.items ≡ self.old.reports }
    {
        self.tables.settle();
        self.rows.clear();
        take_told(
            self.alloc,
            &mut self.outputs,
            &mut self.closed,
            &mut self.reports,
        )
    }
}

/// Tells the store of a step that was done in place. The store may hold more than the tables say: what it holds then is
/// promised if the step's rows can be stored over what it held. If it refuses, the step is taken back, and its own refusal
/// is answered. Copies stay as they are: nothing of a step is made slim here (`Step::settle_slim`). `Memory` (1) and
/// `Size` (3): nothing changed, here or there. `Disk` (2): the device failed.
pub fn commit_kept<K: Keep>(keep: &mut K, step: &mut Step) -> Result<Outcome, KeepError>
    requires loaded { K.is_loaded keep.old }

    // The rows make of the start what is stored now, and none gives a number above the last.
    ensures made { changed_all step.old.rows step.old.start.records
        ≡ step.old.broker.records }
    ensures unspent { is_spent step.old.rows ≡ false }
    ensures outputs { IfOk result (λ out. out.outputs.items ≡ step.old.outputs) }
    ensures closed { IfOk result (λ out. out.closed.items ≡ step.old.closed) }
    ensures reports { IfOk result (λ out. out.reports.items ≡ step.old.reports) }
    ensures done { OnOk result (step.new ≡ at_rest step.old.limits step.old.broker) }

    // Whatever the store held, if the rows can be stored over it, it holds what they make of it.
    ensures stored { (r : Records) → K.holds keep.old r → CanStore step.old.rows r
        → OnOk result (K.is_loaded keep.new
        × K.holds keep.new (changed_all step.old.rows r)) }

    // Without the store's Ok nothing changed here, and after want of memory or of room nothing there.
    ensures same { OnErr result (step.new ≡ at_rest step.old.limits step.old.start) }
    ensures memory { (r : Records) → K.holds keep.old r → CanStore step.old.rows r
        → IsErrOf result KeepError.Memory ⊎ IsErrOf result KeepError.Size
        → K.is_loaded keep.new × K.holds keep.new r }
    ensures refused { (IsErrOf result KeepError.Corrupt → ⊥)
        × (IsErrOf result KeepError.Schema → ⊥) }

    // The device is at fault only if the store counted a failure.
    ensures cause { IsErrOf result KeepError.Disk ⊎ IsErrOf result KeepError.Size
        → K.counted keep.new ≢ K.counted keep.old }

    // A crash leaves what it left before the step, or what the store holds after it.
    ensures crash { (r left : Records) → K.holds keep.old r → CanStore step.old.rows r
        → K.leaves keep.new left → K.leaves keep.old left ⊎ (left ≡ changed_all step.old.rows r) }
    ensures sound { K.is_sound keep.new → K.is_sound keep.old }

    // The store isn't asked what copies say.
    ensures reads { K.read_so_far keep.new ≡ K.read_so_far keep.old }
{
    match keep.apply(step.rows()) {
        Ok(()) => Ok(step.settle()),
        Err(error) => {
            step.take_back();
            Err(error)
        }
    }
}
