//! Subscriptions, groups of shared ones, and who gets a publication (MQTT 5.0, 3.3.4, 4.7, 4.8).

mod answers;
mod copy;
mod fault;
mod found;
mod laws;
mod member;
mod publication;
mod retained;
mod routed;
mod routes;
mod row;
mod serve;
mod service;
mod slot;
mod spot;
mod subscriber;
mod subscribers;
mod subscription;
mod subscription_tree;
mod table;

pub use self::answers::Sessions;
pub use self::copy::RoutedCopy;
pub use self::fault::RoutesFault;
pub use self::laws::{
    a_session_is_dropped_from_those_with_some, a_standing_session_is_nothing_more,
    empty_sessions_change_nothing, takers_are_told,
};
pub use self::retained::Kept;
pub use self::routed::{Routed, Served};
pub use self::routes::Routes;
pub use self::subscription::Subscription;
