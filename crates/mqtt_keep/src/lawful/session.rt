//! Sessions that there may be (4.1).
ghost use Rattle.std.specs.Prelude.{◌↔◌, ◌≡◌, ◌≤◌, ◌++◌, flat_map, map, IfOk, IsTrue, OnOk};
ghost use Rattle.std.specs.List.{AllByRecursion};
ghost use Rattle.mqtt_records.specs.lists.Distinct.{AllDiffer};
ghost use Rattle.mqtt_records.specs.state.Session.{place_of};
ghost use Rattle.mqtt_keep.specs.lawful.Lawful.{AreOpen, HasBeen};

use crate::lawful::client::is_client;
use crate::lawful::message::has_lawful_will;
use crate::lawful::queue::is_queue;
use crate::lawful::rows::{Last, Lawful, is_up_to};
use crate::lawful::subscription::are_subscriptions;
use mqtt_base::OPEN_LIMIT;
use mqtt_records::{Boxed, Rows, Session, Subscription, all_differ};
use std::alloc::{AllocError, Global};

/// Whether open identifiers keep their rules.
fn are_open(identifiers: &Rows<u16, OPEN_LIMIT>) -> bool
    ensures { IsTrue result ↔ AreOpen identifiers.now }
{
    let mut rest = identifiers.as_slice();
    while let Some((identifier, after)) = rest.split_first() {
        if *identifier < 1 {
            return false;
        }
        rest = after;
    }
    true
}

/// Whether the moment of a close has been, if there is one.
fn has_been(moment: Option<u64>, now: u64) -> bool
    ensures { IsTrue result ↔ HasBeen now moment }
{
    match moment {
        Some(moment) => moment <= now,
        None => true,
    }
}

impl Lawful for Session {
    type Within = Last;

    ghost use Rattle.mqtt_keep.specs.lawful.Lawful.{IsLawfulSession};

    ghost is_lawful_within = { λ last session. IsLawfulSession last session };

    fn is_lawful(&self, alloc: Global, last: Last) -> Result<bool, AllocError> {
        let is_numbered = is_up_to(last.births, self.birth)
            && has_been(self.closed, last.moment)
            && are_open(&self.inbound);
        Ok(
            is_numbered
                && is_client(alloc, &self.client, last.autos)?
                && has_lawful_will(&self.will)?
                && are_subscriptions(alloc, &self.subscriptions, last.subscribes)?
                && is_queue(alloc, &self.queue, last, self.birth)?,
        )
    }
}

/// Adds the places of subscriptions.
fn push_places(
    places: &mut Vec<u64>,
    subscriptions: &[Boxed<Subscription>],
) -> Result<(), AllocError>
    ensures { OnOk result (places.new.items ≡ places.old.items ++ map place_of subscriptions.now) }
{
    let mut rest = subscriptions;
    while let Some((subscription, after)) = rest.split_first() {
        places.push(subscription.get().place)?;
        rest = after;
    }
    Ok(())
}

/// Whether no two subscriptions of any sessions have the same place.
pub(crate) fn have_places_apart(
    alloc: Global,
    sessions: &[Boxed<Session>],
) -> Result<bool, AllocError>
    ensures { IfOk result (λ apart. IsTrue apart
        ↔ AllDiffer (flat_map (λ session. map place_of session.subscriptions) sessions.now)) }
{
    let mut places = Vec::new(alloc);
    let mut rest = sessions;
    while let Some((session, after)) = rest.split_first() {
        push_places(&mut places, session.get().subscriptions.as_slice())?;
        rest = after;
    }
    let apart = all_differ(&mut places);
    drop(places);
    Ok(apart)
}
