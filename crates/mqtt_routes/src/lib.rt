//! Subscriptions, shared subscriptions and retained messages: to whom a publication goes (MQTT 5.0,
//! 3.3.1.3, 4.7, 4.8).
#![tactic(auto)]

mod routing;
mod tree;

pub use routing::{
    Kept, Routed, RoutedCopy, Routes, RoutesFault, Served, Sessions, Subscription,
    a_session_is_dropped_from_those_with_some, a_standing_session_is_nothing_more,
    empty_sessions_change_nothing, takers_are_told,
};
pub use tree::{Filters, TreeFault, a_place_keeps_the_order, matching, place};
