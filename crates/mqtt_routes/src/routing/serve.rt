//! Which member of each group gets a publication (MQTT 5.0, 4.8.2, 4.9).
ghost use Rattle.std.specs.Prelude.{◌≡◌, [], IfErr, IfNone, IfOk, IfSome};
ghost use Rattle.std.specs.List.{list_all, list_any};
ghost use Rattle.mqtt_topic.specs.names.Filters.{group_of};
ghost use Rattle.mqtt_routes.specs.routing.Intended.{has_filter_among, in_group};
ghost use Rattle.mqtt_routes.specs.routing.Acceptance.{copies_of, served_by, has_room, has_room_beside, is_eligible, needs_room, shared_copy, uses, eligible_of, is_candidate, IsCandidateAt, IsServed, IsServing, RefusesOne, RefusesServing};

use crate::routing::answers::Sessions;
use crate::routing::copy::RoutedCopy;
use crate::routing::fault::RoutesFault;
use crate::routing::member::Member;
use crate::routing::publication::Publication;
use crate::routing::routed::{Served, Turn};
use mqtt_base::{Qos, Text};
use std::alloc::Global;

/// Whether each session has room for its direct copy.
pub(crate) fn has_room<S: Sessions>(at: &S, copies: &[RoutedCopy]) -> bool
    ensures { result ≡ list_all (has_room (S.answers at.now)) copies.now }
{
    for copy in copies {
        if copy.is_queued() && at.room(copy.birth()) == 0 {
            return false;
        }
    }
    true
}

/// How many of the copies enter the queue of a session.
fn uses(birth: u64, copies: &[RoutedCopy]) -> usize
    ensures { result ≡ uses birth copies.now }
{
    let mut count: usize = 0;
    for copy in copies {
        if copy.is_queued() && copy.birth() == birth {
            count += 1;
        }
    }
    count
}

/// How many of the copies of groups enter the queue of a session.
fn uses_served(birth: u64, served: &[Served]) -> usize
    ensures { result ≡ uses birth (copies_of served.now) }
{
    let mut count: usize = 0;
    for one in served {
        if let Some(copy) = one.copy() {
            if copy.is_queued() && copy.birth() == birth {
                count += 1;
            }
        }
    }
    count
}

/// Whether a session's queue has room beside copies.
fn has_room_beside<S: Sessions>(
    at: &S,
    direct: &[RoutedCopy],
    served: &[Served],
    birth: u64,
) -> bool
    ensures { result ≡ has_room_beside (S.answers at.now) direct.now served.now birth }
{
    let room = at.room(birth) as usize;
    let used = uses(birth, direct);
    used < room && uses_served(birth, served) < room - used
}

/// Whether a member's copy would be queued.
fn needs_room(publication: &Publication<'_>, member: &Member<'_>) -> bool
    ensures { result ≡ needs_room publication.now member.now }
{
    let row = member.row;
    match publication.granted_qos(&row.subscription) {
        Qos::AtMostOnce => false,
        Qos::AtLeastOnce => true,
        Qos::ExactlyOnce => true,
    }
}

/// Whether a member lacks nothing beside copies.
fn is_eligible<S: Sessions>(
    at: &S,
    publication: &Publication<'_>,
    direct: &[RoutedCopy],
    served: &[Served],
    member: &Member<'_>,
) -> bool
    ensures { result
        ≡ is_eligible (S.answers at.now) publication.now direct.now served.now member.now }
{
    if needs_room(publication, member) {
        has_room_beside(at, direct, served, member.birth)
    } else {
        at.connected(member.birth)
    }
}

/// NAME/FILTER of a shared filter.
pub(crate) fn group_of(filter: &str) -> &str
    ensures { result.now ≡ group_of filter.now }
{
    match filter.split_once('/') {
        Some((_, group)) => group,
        None => "",
    }
}

/// Whether a member has this filter.
fn has_filter_among(members: &[Member<'_>], filter: &str) -> bool
    ensures { result ≡ has_filter_among filter.now members.now }
{
    for member in members {
        let row = member.row;
        if row.subscription.filter.as_str() == filter {
            return true;
        }
    }
    false
}

/// A member's copy.
fn shared_copy(
    alloc: Global,
    publication: &Publication<'_>,
    member: &Member<'_>,
) -> Result<RoutedCopy, RoutesFault>
    ensures copy { IfOk result (λ copy. copy ≡ shared_copy publication.now member.now) }
    ensures fault { IfErr result (λ fault. fault ≡ RoutesFault.Memory) }
{
    let mut copy = RoutedCopy::new(alloc, member.birth);
    let row = member.row;
    copy.add(publication, &row.subscription)?;
    Ok(copy)
}

/// Whether a member of a group lacks nothing.
fn is_candidate<S: Sessions>(
    at: &S,
    publication: &Publication<'_>,
    direct: &[RoutedCopy],
    served: &[Served],
    filter: &str,
    member: &Member<'_>,
) -> bool
    ensures { result ≡ is_candidate (S.answers at.now) publication.now direct.now served.now
        filter.now member.now }
{
    let row = member.row;
    row.subscription.filter.as_str() == filter
        && is_eligible(at, publication, direct, served, member)
}

/// Where the first member of a group stands that lacks nothing.
fn first_candidate<S: Sessions>(
    at: &S,
    publication: &Publication<'_>,
    direct: &[RoutedCopy],
    served: &[Served],
    filter: &str,
    members: &[Member<'_>],
) -> Option<usize>
    ensures some { IfSome result (IsCandidateAt (S.answers at.now) publication.now direct.now
        served.now filter.now members.now) }
    ensures none { IfNone result (eligible_of (S.answers at.now) publication.now direct.now
        served.now filter.now members.now ≡ []) }
{
    for (i, member) in members.iter().enumerate() {
        if is_candidate(at, publication, direct, served, filter, member) {
            return Some(i);
        }
    }
    None
}

/// Where the first such member stands that joined after a place.
fn next_candidate<S: Sessions>(
    at: &S,
    publication: &Publication<'_>,
    direct: &[RoutedCopy],
    served: &[Served],
    filter: &str,
    members: &[Member<'_>],
    place: u64,
) -> Option<usize>
    ensures { IfSome result (IsCandidateAt (S.answers at.now) publication.now direct.now
        served.now filter.now members.now) }
{
    for (i, member) in members.iter().enumerate() {
        let row = member.row;
        if row.subscription.place > place
            && is_candidate(at, publication, direct, served, filter, member)
        {
            return Some(i);
        }
    }
    None
}

/// Whether a member of a group would need room.
fn group_needs_room(publication: &Publication<'_>, filter: &str, members: &[Member<'_>]) -> bool
    ensures { result
        ≡ list_any (needs_room publication.now) (in_group filter.now members.now) }
{
    for member in members {
        let row = member.row;
        if row.subscription.filter.as_str() == filter && needs_room(publication, member) {
            return true;
        }
    }
    false
}

/// Where a member of a group stands that lacks nothing: the next after the one chosen last, or
/// else the first.
fn candidate<S: Sessions>(
    at: &S,
    publication: &Publication<'_>,
    direct: &[RoutedCopy],
    served: &[Served],
    filter: &str,
    members: &[Member<'_>],
    turn: u64,
) -> Option<usize>
    ensures some { IfSome result (IsCandidateAt (S.answers at.now) publication.now direct.now
        served.now filter.now members.now) }
    ensures none { IfNone result (eligible_of (S.answers at.now) publication.now direct.now
        served.now filter.now members.now ≡ []) }
{
    match next_candidate(at, publication, direct, served, filter, members, turn) {
        Some(i) => Some(i),
        None => first_candidate(at, publication, direct, served, filter, members),
    }
}

/// The text of a group, NAME/FILTER of a shared filter.
fn group_text(alloc: Global, whole: &Text) -> Result<Text, RoutesFault>
    ensures group { IfOk result (λ text. text ≡ group_of whole.now) }
    ensures fault { IfErr result (λ fault. fault ≡ RoutesFault.Memory) }
{
    let group = group_of(whole.as_str());
    Ok(Text::new(alloc, group)?)
}

/// The births of the members of a group.
fn births_in(alloc: Global, filter: &str, members: &[Member<'_>]) -> Result<Vec<u64>, RoutesFault>
    ensures fault { IfErr result (λ fault. fault ≡ RoutesFault.Memory) }
{
    let mut births = Vec::new(alloc);
    for member in members {
        let row = member.row;
        if row.subscription.filter.as_str() == filter {
            births.push(member.birth)?;
        }
    }
    Ok(births)
}

/// What becomes of a group, with its texts and the turn that it took.
fn served(
    alloc: Global,
    whole: &Text,
    copy: Option<RoutedCopy>,
    members: &[Member<'_>],
    before: u64,
    chosen: u64,
) -> Result<Served, RoutesFault>
    ensures served { IfOk result (λ one. one ≡ served_by whole.now copy) }
    ensures fault { IfErr result (λ fault. fault ≡ RoutesFault.Memory) }
{
    let group = group_text(alloc, whole)?;
    let filter = whole.clone()?;
    let members = births_in(alloc, whole.as_str(), members)?;
    Ok(Served {
        filter,
        group,
        copy,
        turn: Turn {
            members,
            before,
            chosen,
        },
    })
}

/// Serves one group, named by its filter.
fn serve_one<S: Sessions>(
    alloc: Global,
    at: &S,
    publication: &Publication<'_>,
    direct: &[RoutedCopy],
    before: &[Served],
    members: &[Member<'_>],
    whole: &Text,
    turn: u64,
) -> Result<Served, RoutesFault>
    ensures served { IfOk result (IsServed (S.answers at.now) publication.now direct.now before.now
        whole.now members.now) }
    ensures refused { IfErr result (RefusesOne (S.answers at.now) publication.now direct.now
        before.now whole.now members.now) }
{
    let filter = whole.as_str();
    let Some(i) = candidate(at, publication, direct, before, filter, members, turn) else {
        if group_needs_room(publication, filter, members) {
            return Err(RoutesFault::Full);
        }
        return served(alloc, whole, None, &[], 0, 0);
    };
    let member = &members[i];
    let copy = shared_copy(alloc, publication, member)?;
    let row = member.row;
    let chosen = row.subscription.place;
    served(alloc, whole, Some(copy), members, turn, chosen)
}

/// Serves the groups in the order of their oldest members.
pub(crate) fn serve<S: Sessions>(
    alloc: Global,
    at: &S,
    publication: &Publication<'_>,
    direct: &[RoutedCopy],
    members: &[Member<'_>],
) -> Result<Vec<Served>, RoutesFault>
    ensures served { IfOk result (λ served. IsServing (S.answers at.now) publication.now
        members.now direct.now served.items) }
    ensures refused { IfErr result (RefusesServing (S.answers at.now) publication.now members.now
        direct.now) }
{
    let mut served = Vec::new(alloc);
    for (i, member) in members.iter().enumerate() {
        let row = member.row;
        let filter = row.subscription.filter.text();
        if !has_filter_among(&members[..i], filter.as_str()) {
            let one = serve_one(
                alloc,
                at,
                publication,
                direct,
                served.as_slice(),
                members,
                filter,
                row.turn.get(),
            )?;
            served.push(one)?;
        }
    }
    Ok(served)
}
