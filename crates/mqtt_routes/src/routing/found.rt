//! The subscriptions to a topic, and whom they serve (MQTT 5.0, 3.3.4, 4.8.2).
ghost use Rattle.std.specs.Prelude.{◌≡◌, List, IfErr, IfOk, OnOk};
ghost use Rattle.mqtt_routes.specs.routing.Subscriptions.{Subscriber, AreInOrder};
ghost use Rattle.mqtt_routes.specs.routing.Intended.{Publication, directs, members};
ghost use Rattle.mqtt_routes.specs.routing.Found.{found_in, with_direct};

use crate::routing::answers::Sessions;
use crate::routing::copy::RoutedCopy;
use crate::routing::fault::RoutesFault;
use crate::routing::member::{Member, insert_member};
use crate::routing::publication::Publication;
use crate::routing::row::Row;
use std::alloc::Global;
use std::marker::Model;

/// A subscription to the topic of a publication, and its session's birth.
#[derive(Drop)]
pub(crate) struct Found<'a> {
    pub(crate) birth: u64,
    pub(crate) row: &'a Row,
}

impl<'a> Model for Found<'a> {
    ghost use Rattle.mqtt_routes.specs.routing.Found.{Found};

    ghost Value = { Found };

    ghost view = { λ f. record { birth = f.birth; sub = f.row.now } };
}

/// Makes the copies serve one more subscription: the last copy, if that is its session's, or else a
/// further one.
fn add_direct(
    alloc: Global,
    publication: &Publication<'_>,
    copies: &mut Vec<RoutedCopy>,
    found: &Found<'_>,
) -> Result<(), RoutesFault>
    ensures ok { OnOk result (copies.new.items
        ≡ with_direct publication.now copies.old.items found.now) }
    ensures fault { IfErr result (λ fault. fault ≡ RoutesFault.Memory) }
{
    let row = found.row;
    if let Some(last) = copies.last_mut() {
        if last.birth() == found.birth {
            return last.add(publication, &row.subscription);
        }
    }
    let mut copy = RoutedCopy::new(alloc, found.birth);
    copy.add(publication, &row.subscription)?;
    copies.push(copy)?;
    Ok(())
}

/// The direct copies of a publication, by session birth, of all subscriptions to its topic.
pub(crate) fn directs<S: Sessions>(
    alloc: Global,
    publication: &Publication<'_>,
    at: &S,
    found: &[Found<'_>],
) -> Result<Vec<RoutedCopy>, RoutesFault>
    ensures copies { (sessions : List Subscriber) → AreInOrder sessions
        → found.now ≡ found_in publication.now sessions → IfOk result (λ all. all.items
        ≡ directs (S.answers at.now) publication.now sessions) }
    ensures fault { IfErr result (λ fault. fault ≡ RoutesFault.Memory) }
{
    let mut copies = Vec::with_capacity(alloc, found.len())?;
    for one in found {
        if publication.is_direct(at, one) {
            add_direct(alloc, publication, &mut copies, one)?;
        }
    }
    Ok(copies)
}

/// The members of all groups that match the topic of a publication, as they joined, of all
/// subscriptions to the topic.
pub(crate) fn members<'a>(
    alloc: Global,
    found: &[Found<'a>],
) -> Result<Vec<Member<'a>>, RoutesFault>
    ensures members { (p : Publication) (sessions : List Subscriber)
        → found.now ≡ found_in p sessions
        → IfOk result (λ all. all.items ≡ members p sessions) }
    ensures fault { IfErr result (λ fault. fault ≡ RoutesFault.Memory) }
{
    let mut members = Vec::new(alloc);
    for one in found {
        let birth = one.birth;
        let row = one.row;
        if row.is_shared() {
            insert_member(&mut members, Member { birth, row })?;
        }
    }
    Ok(members)
}
