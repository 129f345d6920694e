//! Copies of a publication (MQTT 5.0, 3.3.4, 3.8.4).
ghost use Rattle.std.specs.Prelude.{◌≡◌, IfErr, OnOk};
ghost use Rattle.mqtt_routes.specs.routing.Intended.{add_to, empty_copy};
ghost use Rattle.mqtt_routes.specs.routing.Acceptance.{is_queued};
ghost use Rattle.mqtt_base.specs.Service.{qos_number};

use crate::routing::fault::RoutesFault;
use crate::routing::publication::Publication;
use crate::routing::service::greater;
use crate::routing::subscription::Subscription;
use mqtt_base::Qos;
use std::alloc::Global;
use std::marker::Model;

/// A copy of a publication for one session.
#[derive(Debug, Drop)]
pub struct RoutedCopy {
    birth: u64,
    qos: Qos,
    retain: bool,
    identifiers: Vec<u32>,
}

impl Model for RoutedCopy {
    ghost use Rattle.mqtt_base.specs.Service.{qos_number};
    ghost use Rattle.mqtt_routes.specs.routing.Intended.{Copy};

    ghost Value = { Copy };

    ghost view = { λ c. record { birth = c.birth; qos = qos_number c.qos; retain = c.retain; identifiers = c.identifiers.items } };
}

impl RoutedCopy {
    /// A copy for no subscription yet.
    pub(crate) fn new(alloc: Global, birth: u64) -> RoutedCopy
        ensures { result ≡ empty_copy birth }
    {
        RoutedCopy {
            birth,
            qos: Qos::AtMostOnce,
            retain: false,
            identifiers: Vec::new(alloc),
        }
    }

    /// Makes the copy serve one more subscription of the session.
    pub(crate) fn add(
        &mut self,
        publication: &Publication<'_>,
        subscription: &Subscription,
    ) -> Result<(), RoutesFault>
        ensures ok { OnOk result (self.new ≡ add_to publication.now self.old subscription.now) }
        ensures fault { IfErr result (λ fault. fault ≡ RoutesFault.Memory) }
    {
        if let Some(identifier) = subscription.identifier {
            self.identifiers.push(identifier)?;
        }
        let qos = publication.granted_qos(subscription);
        let retain = publication.retain && subscription.options.retain_as_published;
        (self.qos, self.retain) = (greater(self.qos, qos), self.retain || retain);
        Ok(())
    }

    /// The session's birth. Takes no memory.
    pub fn birth(&self) -> u64
        ensures { result ≡ self.now.birth }
    {
        self.birth
    }

    /// The granted QoS. Takes no memory.
    pub fn qos(&self) -> Qos
        ensures { qos_number result ≡ self.now.qos }
    {
        self.qos
    }

    /// Whether it enters its session's queue: its QoS is 1 or 2.
    pub(crate) fn is_queued(&self) -> bool
        ensures { result ≡ is_queued self.now }
    {
        match self.qos {
            Qos::AtMostOnce => false,
            Qos::AtLeastOnce => true,
            Qos::ExactlyOnce => true,
        }
    }

    /// RETAIN, as it is sent. Takes no memory.
    pub fn retain(&self) -> bool
        ensures { result ≡ self.now.retain }
    {
        self.retain
    }

    /// The Subscription Identifiers, in the order subscribed. Takes no memory.
    pub fn identifiers(&self) -> &[u32]
        ensures { result.now ≡ self.now.identifiers }
    {
        self.identifiers.as_slice()
    }
}
