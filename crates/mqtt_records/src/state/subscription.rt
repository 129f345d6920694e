//! What is kept of a subscription, and the list of them (3.8).
ghost use Rattle.std.specs.Prelude.{◌≡◌};
ghost use Rattle.mqtt_records.specs.state.Session.{put_subscription};

use crate::lists::{Boxed, CloneRow, Named, Row, Rows};
use mqtt_base::{SUBSCRIPTION_LIMIT, SubscriptionOptions, Text};
use std::alloc::AllocError;

/// A subscription (3.8).
#[derive(Drop)]
pub struct Subscription {
    /// The topic filter, or `$share/NAME/FILTER` (4.7, 4.8.2). A session has it once.
    pub filter: Text,
    /// Its place: the number of the subscribe that first brought the filter, from 1.
    pub place: u64,
    /// Its options.
    pub options: SubscriptionOptions,
    /// Its Subscription Identifier, from 1.
    pub identifier: Option<u32>,
}

impl Row for Subscription {
    ghost key_of = { λ subscription. subscription.place };

    fn key(&self) -> u64 {
        self.place
    }
}

impl Named for Subscription {
    ghost name_of = { λ subscription. subscription.filter };

    fn name(&self) -> &str {
        self.filter.as_str()
    }
}

impl CloneRow for Subscription {
    ghost clone_is = { λ value copy same. same };
}

impl Clone for Subscription {
    ghost is_clone = { λ value copy. copy ≡ value };

    fn clone(&self) -> Result<Subscription, AllocError> {
        Ok(Subscription {
            filter: self.filter.clone()?,
            place: self.place,
            options: self.options,
            identifier: self.identifier,
        })
    }
}

/// Puts a subscription in place of one to the same filter. Takes no memory.
pub(crate) fn put_by_filter(
    rows: &mut Rows<Boxed<Subscription>, SUBSCRIPTION_LIMIT>,
    subscription: Boxed<Subscription>,
)
    ensures { rows.new ≡ put_subscription subscription rows.old }
{
    rows.remove_named(subscription.get().filter.as_str());
    rows.put(subscription);
}
