//! The filters of an UNSUBSCRIBE: their codes, and that the session's are removed (MQTT 5.0, 3.10.4, 3.11.3).
ghost use Rattle.std.specs.Prelude.{◌≡◌, [], ◌∷◌, ◌++◌, IfOk, IfErr, OnOk, bytes_eq};
ghost use Rattle.std.specs.List.{list_any};
ghost use Rattle.mqtt_topic.specs.names.Filters.{is_filter};
ghost use Rattle.mqtt_rules.specs.step.Subscribe.{drop_code, drop_codes};
ghost use Rattle.mqtt_broker_step.specs.Stepping.{Did, IsLeft};
ghost use Rattle.mqtt_broker_step.specs.Subscribing.{HaveFiltersOnce};
ghost use Rattle.mqtt_broker_acts.specs.subscribing.Dropping.{drops, gone_after, held, is_left, removes_all};

use mqtt_base::Text;
use mqtt_broker_looks::decided::drop_code;
use mqtt_broker_step::{Step, StepFault, subscription_to};
use mqtt_packet::Filters;
use mqtt_records::Session;
use mqtt_topic::{SubFilter, TopicFault};
use std::alloc::{AllocError, Global};

/// Whether a text is a filter (4.7.1, 4.7.3, 4.8.2).
fn is_valid(alloc: Global, text: &str) -> Result<bool, StepFault>
    ensures valid { IfOk result (λ valid. valid ≡ is_filter text.now) }
    ensures fault { IfErr result (λ fault. fault ≡ StepFault.Memory) }
{
    match SubFilter::parse(alloc, text) {
        Ok(filter) => {
            drop(filter);
            Ok(true)
        }
        Err(TopicFault::Memory) => Err(StepFault::Memory),
        Err(TopicFault::NotText) => Ok(true),
        Err(_) => Ok(false),
    }
}

/// Whether a filter is among texts.
fn is_among(texts: &[Text], filter: &str) -> bool
    ensures { result ≡ list_any (bytes_eq filter.now) texts.now }
{
    texts.iter().any(|text| filter == text.as_str())
}

/// Whether the session has a filter that isn't gone; it is then gone.
fn goes(session: &Session, gone: &mut Vec<Text>, filter: &str) -> Result<bool, AllocError>
    ensures left { IfOk result (λ left. left ≡ is_left filter.now gone.old.items session.now) }
    ensures gone { OnOk result (gone.new.items
        ≡ gone_after filter.now gone.old.items session.now) }
{
    let Some(subscription) = subscription_to(session, filter) else {
        return Ok(false);
    };
    if is_among(gone, filter) {
        return Ok(false);
    }
    gone.push(subscription.filter.clone()?)?;
    Ok(true)
}

/// The code of a filter behind those that are gone (3.11.3).
fn code_of(
    alloc: Global,
    session: &Session,
    gone: &mut Vec<Text>,
    filter: &str,
) -> Result<u8, StepFault>
    ensures code { IfOk result (λ code. code ≡ drop_code (is_filter filter.now)
        (is_left filter.now gone.old.items session.now)) }
    ensures gone { OnOk result (gone.new.items
        ≡ gone_after filter.now gone.old.items session.now) }
    ensures fault { IfErr result (λ fault. fault ≡ StepFault.Memory) }
{
    let is_valid = is_valid(alloc, filter)?;
    let was_there = goes(session, gone, filter)?;
    Ok(drop_code(is_valid, was_there).0)
}

/// Writes the codes of filters behind those that are gone (3.11.3).
fn codes_push(
    alloc: Global,
    session: &Session,
    filters: &Filters,
    gone: &mut Vec<Text>,
    codes: &mut Vec<u8>,
) -> Result<(), StepFault>
    requires gone { gone.old.items ≡ [] }
    requires codes { codes.old.items ≡ [] }
    ensures ok { OnOk result (codes.new.items ≡ drop_codes session.now [] filters.now) }
    ensures fault { IfErr result (λ fault. fault ≡ StepFault.Memory) }
{
    let mut rest = filters.lend();
    while let Some((filter, after)) = rest.split_first() {
        let code = code_of(alloc, session, gone, filter)?;
        codes.push(code)?;
        rest = after;
    }
    Ok(())
}

/// The codes of the filters of an UNSUBSCRIBE, in order: a filter that stands twice is gone at the second
/// time (3.11.3).
pub(crate) fn drop_codes(
    alloc: Global,
    session: &Session,
    filters: &Filters,
) -> Result<Vec<u8>, StepFault>
    ensures codes { IfOk result (λ codes. codes.items ≡ drop_codes session.now [] filters.now) }
    ensures fault { IfErr result (λ fault. fault ≡ StepFault.Memory) }
{
    let mut codes = Vec::new(alloc);
    let mut gone = Vec::new(alloc);
    match codes_push(alloc, session, filters, &mut gone, &mut codes) {
        Ok(()) => {
            drop(gone);
            Ok(codes)
        }
        Err(fault) => {
            drop(gone);
            drop(codes);
            Err(fault)
        }
    }
}

/// Adds a filter at the end if the session has it.
fn held_push(all: &mut Vec<Text>, session: &Session, filter: &str) -> Result<(), AllocError>
    ensures { OnOk result (all.new.items ≡ all.old.items ++ held (filter.now ∷ []) session.now) }
{
    if let Some(subscription) = subscription_to(session, filter) {
        all.push(subscription.filter.clone()?)?;
    }
    Ok(())
}

/// The filters that the session has, in order.
fn held(alloc: Global, session: &Session, filters: &Filters) -> Result<Vec<Text>, AllocError>
    ensures { IfOk result (λ all. all.items ≡ held filters.now session.now) }
{
    let mut all = Vec::new(alloc);
    let mut rest = filters.lend();
    while let Some((filter, after)) = rest.split_first() {
        held_push(&mut all, session, filter)?;
        rest = after;
    }
    Ok(all)
}

/// Removes filters of a session, one after the other (3.10.4).
fn remove_all(step: &mut Step, birth: u64, filters: Vec<Text>) -> Result<(), StepFault>
    requires { HaveFiltersOnce step.old.broker.records }
    ensures ok { OnOk result (Did (removes_all birth filters.items) step.old step.new) }
    ensures left { IfErr result (λ fault.
        IsLeft (removes_all birth filters.items) fault step.old step.new) }
{
    for filter in filters {
        step.unsubscribe(birth, filter)?;
    }
    Ok(())
}

/// Removes those of the filters that the session has; one that stands twice is removed twice (3.10.4).
pub(crate) fn drop_held(
    alloc: Global,
    step: &mut Step,
    birth: u64,
    filters: &Filters,
) -> Result<(), StepFault>
    requires { HaveFiltersOnce step.old.broker.records }
    ensures ok { OnOk result (Did (drops birth filters.now) step.old step.new) }
    ensures left { IfErr result (λ fault. IsLeft (drops birth filters.now) fault step.old step.new) }
{
    let Some(session) = step.session(birth) else {
        return Ok(());
    };
    let all = held(alloc, session, filters)?;
    remove_all(step, birth, all)
}
