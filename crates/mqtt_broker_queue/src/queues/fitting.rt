//! Which rows of a queue are too large with their whole topic, and not in the form in which they go out
//! (MQTT 5.0, 3.1.2.11.4, 3.3.2.3.4).
ghost use Rattle.std.specs.Prelude.{◌≡◌, ◌++◌, IfErr, IfOk, IfSome, OnOk};
ghost use Rattle.std.specs.List.{AllByRecursion};
ghost use Rattle.mqtt_records.specs.messages.Queue.{IsSpelled};
ghost use Rattle.mqtt_rules.specs.step.Fitting.{form_of, is_due, told_behind};
ghost use Rattle.mqtt_rules.specs.step.State.{told_on};
ghost use Rattle.mqtt_broker_looks.specs.sent.Frames.{IsSpelledIn};
ghost use Rattle.mqtt_broker_queue.specs.queues.Fitting.{fitting, listed};

use mqtt_base::Phase;
use mqtt_broker_looks::decided::is_past;
use mqtt_broker_looks::sent::{row_in_len, row_len, row_other_bytes};
use mqtt_broker_step::{LineState, Places, Step, StepFault};
use mqtt_records::{Boxed, CopyRow};
use mqtt_topic::{Form, OutAliases};
use std::alloc::Global;

/// No packet has more bytes, fixed header included (2.1.4).
const LARGEST_PACKET: u32 = 268_435_460;

/// Whether a pump has a PUBLISH for a row if there is room: it waits and has not expired, or was sent and not on this
/// line (4.4, 4.6).
fn is_due(now: u64, went: &Places, row: &CopyRow) -> bool
    ensures { result ≡ is_due now went.now row.now }
{
    match row.phase() {
        Phase::Waiting => !is_past(now, row.arrived(), row.expiry()),
        Phase::Sent { .. } => !went.contains(row.place()),
        Phase::Released { .. } | Phase::Oversize { .. } => false,
    }
}

/// The form of a row's PUBLISH on a line whose client was told this; none if it is too large in each. What is sent tells
/// its topic to those behind it.
fn form_behind(
    told: &mut OutAliases,
    now: u64,
    state: &LineState,
    row: &CopyRow,
) -> Result<Option<Form>, StepFault>
    ensures form { IfOk result (λ form. form ≡ form_of state.now.largest told.old row.now.copy) }
    ensures spelled { IfOk result (λ form. IfSome form (λ f. IsSpelledIn f row.now.copy)) }
    ensures told { OnOk result (told.new ≡ told_behind (is_due now state.now.went row.now)
        (form_of state.now.largest told.old row.now.copy) row.now.copy.content.topic told.old) }
    ensures fault { IfErr result (λ fault. fault ≡ StepFault.Memory) }
{
    // This shows that the copy's PUBLISH has a spelling.
    let _spelled = row.size();
    let topic = row.topic();
    let other = row_other_bytes(row);
    if !is_due(now, state.went(), row) {
        return Ok(told.form_for(state.largest(), topic, other));
    }
    match told.send(state.largest(), topic, other) {
        Ok(form) => Ok(form),
        Err(_) => Err(StepFault::Memory),
    }
}

/// Lists a row that is too large with its whole topic, with the bytes of its form, if it has one.
fn push_listed(
    sizes: &mut Vec<(u64, u32)>,
    largest: u32,
    form: Option<Form>,
    row: &CopyRow,
) -> Result<(), StepFault>
    requires { IfSome form (λ f. IsSpelledIn f row.now.copy) }
    ensures ok { OnOk result (sizes.new.items ≡ sizes.old.items ++ listed largest form row.now) }
    ensures fault { IfErr result (λ fault. fault ≡ StepFault.Memory) }
{
    let Some(form) = form else {
        return Ok(());
    };
    if row_len(row) <= largest {
        return Ok(());
    }
    let Some(size) = row_in_len(form, row) else {
        unreachable!();
    };
    sizes.push((row.place(), size as u32))?;
    Ok(())
}

/// The rows that are listed, with their bytes, on a line whose client was told this.
fn fitting(
    alloc: Global,
    told: &mut OutAliases,
    now: u64,
    state: &LineState,
    rows: &[Boxed<CopyRow>],
) -> Result<Vec<(u64, u32)>, StepFault>
    ensures sizes { IfOk result (λ sizes. sizes.items ≡ fitting state.now now told.old rows.now) }
    ensures fault { IfErr result (λ fault. fault ≡ StepFault.Memory) }
{
    let mut sizes = Vec::new(alloc);
    for row in rows {
        let row = row.get();
        let form = form_behind(told, now, state, row)?;
        push_listed(&mut sizes, state.largest(), form, row)?;
    }
    Ok(sizes)
}

/// Shows that each row's PUBLISH has a spelling. It has no effect, so that a compiler leaves the loop out.
fn show_spelled(rows: &[Boxed<CopyRow>])
    ensures { AllByRecursion (λ e. IsSpelled e.copy) rows.now }
{
    for row in rows {
        let _spelled = row.get().size();
    }
}

/// The places of the rows that are too large with their whole topic and have a form that is within, with the bytes of
/// that form, at a moment. There is none, without a look at a row, if the client takes no aliases, or each packet.
pub(crate) fn fitting_sizes(
    alloc: Global,
    step: &Step,
    state: &LineState,
    now: u64,
    rows: &[Boxed<CopyRow>],
) -> Result<Vec<(u64, u32)>, StepFault>
    ensures sizes { IfOk result (λ sizes. sizes.items ≡ fitting state.now now
        (told_on state.now.number step.now.broker.tellings) rows.now) }
    ensures fault { IfErr result (λ fault. fault ≡ StepFault.Memory) }
{
    if !step.takes_aliases(state.number()) {
        return Ok(Vec::new(alloc));
    }
    if state.largest() >= LARGEST_PACKET {
        show_spelled(rows);
        return Ok(Vec::new(alloc));
    }
    let mut told = step.told_topics(state.number())?;
    fitting(alloc, &mut told, now, state, rows)
}
