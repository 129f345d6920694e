//! A subscription in the table of its session, found by the text of its filter (MQTT 5.0, 3.8.4).
ghost use Rattle.std.proofs.Common.{◌≡◌, ap, sym, bytes_eq};
ghost use Rattle.std.specs.Cmp.{partial_equiv_from_equiv};
ghost use Rattle.std.specs.Cmp.Lexicographic.{bytes_decides};
ghost use Rattle.std.specs.Hash as fed;
ghost use Rattle.mqtt_topic.specs.names.Filters.{matching_part_of};
ghost use Rattle.mqtt_routes.specs.routing.Intended.{is_shared};
ghost use Rattle.mqtt_routes.specs.routing.Subscriptions.{is_to};
ghost use Rattle.mqtt_routes.specs.routing.Keys.{same_filter, same_filter_equiv};

use crate::routing::subscription::Subscription;
use indexmap::Equivalent;
use std::cell::Cell;
use std::hash::{Hash, Hasher};
use std::marker::Model;

/// A subscription in the table. Two with one filter are equal: a session has each filter once.
#[derive(Drop)]
pub(crate) struct Row {
    pub(crate) subscription: Subscription,
    /// Whether it is shared: each publication to its topic asks, so it is read from the filter once.
    shared: bool,
    /// For a shared one the place of the member that its group chose last; 0 before the first. It
    /// is noted through a `&`, since what stands in a set is only lent so.
    pub(crate) turn: Cell<u64>,
}

impl Model for Row {
    ghost use Rattle.std.specs.Prelude.{◌≡◌};
    ghost use Rattle.mqtt_routes.specs.routing.Intended.{is_shared};
    ghost use Rattle.mqtt_routes.specs.declared.routing.subscription.Subscription.{Subscription};

    ghost Value = { Subscription };

    ghost view = { λ row. row.subscription };

    ghost invariant = { λ row. row.shared ≡ is_shared row.subscription };
}

impl Row {
    /// A subscription, and the place of the member that its group chose last. Takes no memory.
    pub(crate) fn new(subscription: Subscription, turn: u64) -> Row
        ensures { result ≡ subscription }
    {
        let shared = subscription.filter.is_shared();
        let turn = Cell::new(turn);
        Row {
            subscription,
            shared,
            turn,
        }
    }

    /// Whether it is shared. Takes no memory.
    pub(crate) fn is_shared(&self) -> bool
        ensures { result ≡ is_shared self.now }
    {
        self.shared
    }

    /// The filter by which it is matched: FILTER of a shared one (4.8.2). Takes no memory.
    pub(crate) fn matched(&self) -> &str
        ensures { result.now ≡ matching_part_of self.now.filter }
    {
        let filter = &self.subscription.filter;
        if self.is_shared() {
            filter.filter()
        } else {
            filter.as_str()
        }
    }
}

impl PartialEq for Row {
    ghost eq = { same_filter };

    ghost laws = { partial_equiv_from_equiv same_filter_equiv };

    fn eq(&self, other: &Row) -> bool {
        other.subscription.filter.as_str() == self.subscription.filter.as_str()
    }
}

impl Eq for Row {
    ghost laws = { same_filter_equiv };
}

impl Hash for Row {
    ghost hash_input = { λ row. fed.str row.filter };

    ghost respects_eq = { λ x y h. ap fed.str (sym ((bytes_decides y.filter x.filter).0 h)) };

    fn hash<H: Hasher>(&self, state: &mut H) {
        self.subscription.filter.as_str().hash(state);
    }
}

impl Equivalent<Row> for &str {
    ghost equivalent = { λ text row. is_to text.now row };

    ghost respects_hash = { λ text row h. ap fed.str (sym ((bytes_decides row.filter text.now).0 h)) };

    ghost respects_eq = { λ text x y h. ap (λ t. bytes_eq y.filter t) (sym ((bytes_decides x.filter text.now).0 h)) };

    fn equivalent(&self, row: &Row) -> bool {
        row.subscription.filter.as_str() == *self
    }
}
