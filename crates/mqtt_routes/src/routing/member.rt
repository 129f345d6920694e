//! Members of groups of shared subscriptions, in the order in which they joined (MQTT 5.0, 4.8.2).
ghost use Rattle.std.specs.Prelude.{◌≡◌, IfErr, OnOk};
ghost use Rattle.mqtt_routes.specs.routing.Intended.{insert_member, insertion_spot};

use crate::routing::fault::RoutesFault;
use crate::routing::row::Row;
use std::marker::Model;

/// A session and its shared subscription.
#[derive(Drop)]
pub(crate) struct Member<'a> {
    pub(crate) birth: u64,
    pub(crate) row: &'a Row,
}

impl<'a> Model for Member<'a> {
    ghost use Rattle.mqtt_routes.specs.routing.Intended.{Member};

    ghost Value = { Member };

    ghost view = { λ m. record { birth = m.birth; sub = m.row.now } };
}

/// How many members stand before the first one that joined after a place.
fn insertion_spot(members: &[Member<'_>], place: u64) -> usize
    ensures { result ≡ insertion_spot place members.now }
{
    for (i, member) in members.iter().enumerate() {
        let row = member.row;
        if row.subscription.place > place {
            return i;
        }
    }
    members.len()
}

/// Puts a member before those that joined later.
pub(crate) fn insert_member<'a>(
    members: &mut Vec<Member<'a>>,
    member: Member<'a>,
) -> Result<(), RoutesFault>
    ensures ok { OnOk result (members.new.items ≡ insert_member member.entry members.old.items) }
    ensures fault { IfErr result (λ fault. fault ≡ RoutesFault.Memory) }
{
    let row = member.row;
    let i = insertion_spot(members, row.subscription.place);
    members.insert(i, member)?;
    Ok(())
}
