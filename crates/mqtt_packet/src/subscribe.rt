//! SUBSCRIBE and UNSUBSCRIBE, with their lists of filters: spellings and laws (3.8, 3.10).

mod filters;
mod options;
mod subscribe;
mod subscriptions;
mod unsubscribe;

pub use self::filters::{Filters, FiltersRef};
pub use self::options::options_read;
pub use self::subscribe::{Subscribe, SubscribeRef, subscribe_read};
pub use self::subscriptions::{SubscriptionRef, Subscriptions, SubscriptionsRef};
pub use self::unsubscribe::{Unsubscribe, UnsubscribeRef, unsubscribe_read};
