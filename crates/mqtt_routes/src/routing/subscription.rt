//! What a client asked for (MQTT 5.0, 3.8.2.1.2, 3.8.3.1).
use mqtt_base::SubscriptionOptions;
use mqtt_topic::SubFilter;

/// A subscription of a session (3.8).
#[derive(Debug, Drop)]
pub struct Subscription {
    /// Which topics it is for. A session has each filter once.
    pub filter: SubFilter,
    /// The number of the grant that first brought the filter, from 1 in the order of grants.
    pub place: u64,
    /// Maximum QoS, No Local and Retain As Published; Retain Handling has no part in routing.
    pub options: SubscriptionOptions,
    /// Subscription Identifier, from 1; none if there was none.
    pub identifier: Option<u32>,
}
