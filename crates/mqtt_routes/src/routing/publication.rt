//! What is published, and whom it concerns (MQTT 5.0, 3.3.4, 3.8.3.1, 4.8.2).
ghost use Rattle.std.specs.Prelude.{◌≡◌};
ghost use Rattle.mqtt_routes.specs.routing.Intended.{granted_qos, is_barred, is_shared};
ghost use Rattle.mqtt_routes.specs.routing.Found.{is_direct};
ghost use Rattle.mqtt_base.specs.Service.{qos_number};

use crate::routing::answers::Sessions;
use crate::routing::found::Found;
use crate::routing::service::lesser;
use crate::routing::subscription::Subscription;
use mqtt_base::Qos;
use mqtt_topic::TopicName;
use std::marker::Model;

/// A publication, as far as it decides who gets it.
#[derive(Drop)]
pub(crate) struct Publication<'a> {
    pub(crate) sender: &'a str,
    pub(crate) topic: &'a TopicName,
    pub(crate) qos: Qos,
    pub(crate) retain: bool,
}

impl<'a> Model for Publication<'a> {
    ghost use Rattle.mqtt_base.specs.Service.{qos_number};
    ghost use Rattle.mqtt_routes.specs.routing.Intended.{Publication};

    ghost Value = { Publication };

    ghost view = { λ p. record { sender = p.sender.now; topic = p.topic.now; qos = qos_number p.qos; retain = p.retain } };
}

impl<'a> Publication<'a> {
    /// The granted QoS.
    pub(crate) fn granted_qos(&self, subscription: &Subscription) -> Qos
        ensures { qos_number result ≡ granted_qos self.now subscription.now }
    {
        lesser(self.qos, subscription.options.qos)
    }

    /// Whether No Local bars a subscription.
    fn is_barred<S: Sessions>(&self, at: &S, birth: u64, subscription: &Subscription) -> bool
        ensures { result ≡ is_barred (S.answers at.now) self.now birth subscription.now }
    {
        subscription.options.no_local && at.is_named(birth, self.sender)
    }

    /// Whether a subscription to the topic makes a direct copy: it isn't shared, and No Local doesn't
    /// bar it.
    pub(crate) fn is_direct<S: Sessions>(&self, at: &S, found: &Found<'_>) -> bool
        ensures { result ≡ is_direct (S.answers at.now) self.now found.now }
    {
        let row = found.row;
        !row.is_shared() && !self.is_barred(at, found.birth, &row.subscription)
    }
}
