//! A retained message in the table, found by the text of its topic (MQTT 5.0, 3.3.1.3).
ghost use Rattle.std.proofs.Common.{ap, sym, bytes_eq};
ghost use Rattle.std.specs.Cmp.{partial_equiv_from_equiv};
ghost use Rattle.std.specs.Cmp.Lexicographic.{bytes_decides};
ghost use Rattle.std.specs.Hash as fed;
ghost use Rattle.mqtt_routes.specs.routing.Retained.{is_of};
ghost use Rattle.mqtt_routes.specs.routing.Keys.{same_topic, same_topic_equiv};

use crate::routing::retained::Kept;
use indexmap::Equivalent;
use std::hash::{Hash, Hasher};
use std::marker::Model;

/// A retained message in the table. Two of one topic are equal: a topic has one message.
#[derive(Drop)]
pub(crate) struct Slot<M> {
    pub(crate) kept: Kept<M>,
}

impl<M> Model for Slot<M> {
    ghost use Rattle.mqtt_routes.specs.declared.routing.retained.Kept.{Kept};

    ghost Value = { Kept M };

    ghost view = { λ slot. slot.kept };
}

impl<M> PartialEq for Slot<M> {
    ghost eq = { same_topic };

    ghost laws = { partial_equiv_from_equiv same_topic_equiv };

    fn eq(&self, other: &Slot<M>) -> bool {
        other.kept.topic.as_str() == self.kept.topic.as_str()
    }
}

impl<M> Eq for Slot<M> {
    ghost laws = { same_topic_equiv };
}

impl<M> Hash for Slot<M> {
    ghost hash_input = { λ slot. fed.str slot.topic };

    ghost respects_eq = { λ x y h. ap fed.str (sym ((bytes_decides y.topic x.topic).0 h)) };

    fn hash<H: Hasher>(&self, state: &mut H) {
        self.kept.topic.as_str().hash(state);
    }
}

impl<M> Equivalent<Slot<M>> for &str {
    ghost equivalent = { λ text slot. is_of text.now slot };

    ghost respects_hash = { λ text slot h. ap fed.str (sym ((bytes_decides slot.topic text.now).0 h)) };

    ghost respects_eq = { λ text x y h. ap (λ t. bytes_eq y.topic t) (sym ((bytes_decides x.topic text.now).0 h)) };

    fn equivalent(&self, slot: &Slot<M>) -> bool {
        slot.kept.topic.as_str() == *self
    }
}
