//! Copies that a queue may have (4.3, 4.6).
ghost use Rattle.std.specs.Prelude.{◌↔◌, IfOk, IsTrue};
ghost use Rattle.mqtt_props.specs.declared.place.Place.TheVariants.{Publish};
ghost use Rattle.mqtt_records.specs.messages.Queue.{first_sent};
ghost use Rattle.mqtt_keep.specs.lawful.Lawful.{IsCause, IsCopyFor, IsGroup, IsMessage, IsPhase};

use crate::lawful::message::{are_properties, is_message};
use crate::lawful::rows::{Last, Lawful, is_up_to};
use mqtt_base::{Cause, LAST_NUMBER, Phase, Qos, Text};
use mqtt_props::Place;
use mqtt_records::{CopyRef, CopyRow};
use mqtt_topic::{Shared, TopicFault};
use std::alloc::{AllocError, Global};

/// Whether a text is NAME/FILTER of a shared filter that packets can carry.
fn is_group(alloc: Global, group: &Text) -> Result<bool, AllocError>
    ensures { IfOk result (λ lawful. IsTrue lawful ↔ IsGroup group.now) }
{
    let text = format!(in alloc; "$share/{}", group.as_str())?;
    let read = Shared::parse(alloc, text.as_str());
    drop(text);
    match read {
        Ok(shared) => {
            drop(shared);
            Ok(true)
        }
        Err(TopicFault::Memory) => Err(AllocError),
        Err(_) => Ok(false),
    }
}

/// Whether a copy may have this cause.
fn is_cause(alloc: Global, cause: &Cause, subscribes: u64) -> Result<bool, AllocError>
    ensures { IfOk result (λ lawful. IsTrue lawful ↔ IsCause subscribes cause.now) }
{
    match cause {
        Cause::Direct => Ok(true),
        Cause::Share { group } => is_group(alloc, group),
        Cause::Retained { subscribe } => Ok(is_up_to(subscribes, *subscribe)),
    }
}

/// Whether a copy of this quality of service may be in this phase.
fn is_phase(qos: Qos, phase: Phase) -> bool
    ensures { IsTrue result ↔ IsPhase qos phase }
{
    match qos {
        Qos::AtMostOnce => false,
        Qos::AtLeastOnce => match phase {
            Phase::Waiting => true,
            Phase::Sent { identifier } => 1 <= identifier,
            Phase::Released { .. } | Phase::Oversize { .. } => false,
        },
        Qos::ExactlyOnce => match phase {
            Phase::Waiting => true,
            Phase::Sent { identifier } => 1 <= identifier,
            Phase::Released { identifier, order } | Phase::Oversize { identifier, order } => {
                1 <= identifier && is_up_to(LAST_NUMBER, order)
            }
        },
    }
}

/// Whether what is sent of a copy keeps its rules.
fn is_sent(alloc: Global, copy: &CopyRef<'_>) -> Result<bool, AllocError>
    ensures { IfOk result (λ lawful. IsTrue lawful
        ↔ IsMessage Publish copy.now.content.topic (first_sent copy.now) copy.now.content.payload) }
{
    let content = &copy.content;
    let sent = content
        .properties
        .sent(alloc, 0, copy.identifiers.as_slice());
    match sent {
        Ok(list) => {
            let is_lawful = is_message(
                Place::Publish,
                content.topic,
                &list.lend(),
                content.payload,
            );
            drop(list);
            is_lawful
        }
        // The PUBLISH of a row has a spelling: memory alone is wanting.
        Err(_) => Err(AllocError),
    }
}

/// Whether a copy is for the session with this birth, of a publication that was accepted by now.
fn is_copy_for(row: &CopyRow, last: Last, birth: u64) -> bool
    ensures { IsTrue result ↔ IsCopyFor last birth row.now }
{
    let id = row.id();
    id.birth == birth
        && is_up_to(LAST_NUMBER, row.place())
        && is_up_to(last.publications, id.publication)
        && row.arrived() <= last.moment
}

impl Lawful for CopyRow {
    type Within = (Last, u64);

    ghost use Rattle.mqtt_keep.specs.lawful.Lawful.{IsLawfulCopy};

    ghost is_lawful_within = { λ within row. IsLawfulCopy within.0 within.1 row };

    fn is_lawful(&self, alloc: Global, within: (Last, u64)) -> Result<bool, AllocError> {
        let (last, birth) = within;
        // What a store is opened with is whole.
        let Some(copy) = self.whole() else {
            return Err(AllocError);
        };
        Ok(
            is_copy_for(self, last, birth)
                && is_phase(copy.qos, self.phase())
                && is_cause(alloc, &copy.id.cause, last.subscribes)?
                && are_properties(Place::Publish, &copy.content.properties.lend())
                && is_sent(alloc, &copy)?,
        )
    }
}
