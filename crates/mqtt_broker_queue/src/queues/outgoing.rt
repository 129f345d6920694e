//! A copy's PUBLISH as it goes out on a line (MQTT 5.0, 3.1.2.11.4, 3.3, 3.3.2.3.4).
ghost use Rattle.std.specs.Prelude.{◌≡◌, ℕ, Bool, IfErr, IfOk, OnOk};
ghost use Rattle.mqtt_records.specs.messages.Queue.{IsSpelled};
ghost use Rattle.mqtt_rules.specs.step.Fitting.{form_of};
ghost use Rattle.mqtt_rules.specs.step.Forms.{published_of};
ghost use Rattle.mqtt_rules.specs.step.State.{told_on};
ghost use Rattle.mqtt_broker_looks.specs.sent.Frames.{IsSpelledIn};
ghost use Rattle.mqtt_broker_step.specs.Stepping.{Did, IsLeft};
ghost use Rattle.mqtt_broker_step.specs.Tellings.{IsOutgoing, form_on, told_by};
ghost use Rattle.mqtt_broker_step.specs.Undoing.{moment_of};
ghost use Rattle.mqtt_broker_queue.specs.queues.Fitting.{IsOutgoingIn, offers};

use mqtt_base::Text;
use mqtt_broker_looks::sent::{other_bytes, publish_in, row_other_bytes};
use mqtt_broker_step::{Outgoing, Step, StepFault};
use mqtt_records::{CopyRef, CopyRow, MessageCopy};
use mqtt_topic::Form;
use std::alloc::{AllocError, Global};

/// The topic, if a packet in a form tells the client an alias for it.
fn told_by(form: Form, topic: &Text) -> Result<Option<Text>, AllocError>
    ensures { IfOk result (λ told. told ≡ told_by form topic.now) }
{
    match form {
        Form::Named(_) => Ok(Some(topic.clone()?)),
        Form::Plain | Form::Short(_) => Ok(None),
    }
}

/// The form in which the PUBLISH of a row's copy goes out on a line: plain, without a look at its bytes, to a client
/// that takes no aliases (3.3.2.3.4). Takes no memory.
fn form_on(step: &Step, line: u64, row: &CopyRow) -> Form
    ensures { (moment id : ℕ) (dup : Bool)
        → result ≡ form_on line (published_of moment dup id row.now.copy) step.now.broker }
{
    if !step.takes_aliases(line) {
        return Form::Plain;
    }
    step.form_of(line, row.topic(), row_other_bytes(row))
}

/// The form in which the PUBLISH of a copy, which has a spelling, goes out on a line whose client takes so many bytes;
/// none if it is too large in each (3.1.2.11.4). Takes no memory.
fn form_within(step: &Step, line: u64, largest: u32, copy: &MessageCopy) -> Option<Form>
    requires { IsSpelled copy.now }
    ensures { result ≡ form_of largest (told_on line step.now.broker.tellings) copy.now }
{
    let Some(other) = other_bytes(&copy.lend()) else {
        unreachable!();
    };
    step.form_within(line, largest, &copy.content.topic, other)
}

/// A copy's PUBLISH in a form, in which it has a spelling, at a moment in milliseconds, with its DUP flag and its packet
/// identifier; at QoS 0 it has neither (3.3).
fn outgoing(
    alloc: Global,
    moment: u64,
    dup: bool,
    identifier: u16,
    form: Form,
    copy: &CopyRef<'_>,
) -> Result<Outgoing, AllocError>
    requires { IsSpelledIn form copy.now }
    ensures { IfOk result (IsOutgoingIn form (published_of moment dup identifier copy.now)) }
{
    let bytes = publish_in(alloc, moment, dup, identifier, form, copy)?;
    Ok(Outgoing {
        told: told_by(form, copy.content.topic)?,
        bytes,
    })
}

/// The PUBLISH of a copy in a queue as it goes out on a line at the moment of the step. A row that doesn't have what is
/// sent is refused as for want of memory.
pub(crate) fn outgoing_row(
    alloc: Global,
    step: &Step,
    line: u64,
    dup: bool,
    identifier: u16,
    row: &CopyRow,
) -> Result<Outgoing, AllocError>
    ensures { IfOk result (IsOutgoing line
        (published_of (moment_of step.now.broker) dup identifier row.now.copy) step.now.broker) }
{
    // This shows that the copy's PUBLISH has a spelling.
    let _spelled = row.size();
    let Some(copy) = row.whole() else {
        return Err(AllocError);
    };
    let form = form_on(step, line, row);
    outgoing(alloc, step.moment(), dup, identifier, form, &copy)
}

/// A copy of QoS 0, whose PUBLISH has a spelling, goes out on a line in the first of its forms that is within what the
/// client takes; it is left out if none is (3.1.2.11.4, 4.3.1).
pub fn offer_publish(
    alloc: Global,
    step: &mut Step,
    line: u64,
    copy: &MessageCopy,
) -> Result<(), StepFault>
    requires { IsSpelled copy.now }
    ensures ok { OnOk result (Did (offers line copy.now) step.old step.new) }
    ensures left { IfErr result (λ fault. IsLeft (offers line copy.now) fault step.old step.new) }
{
    let Some(state) = step.line(line) else {
        return Ok(());
    };
    let Some(form) = form_within(step, line, state.largest(), copy) else {
        return Ok(());
    };
    let out = outgoing(alloc, step.moment(), false, 0, form, &copy.lend())?;
    step.send_publish(line, out)
}
