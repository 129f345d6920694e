//! What the broker decides by looking at a packet, a session and a moment: refusals, meanings, moments
//! and codes as the rules have them (MQTT 5.0, 3 and 4). Nothing here changes what is kept.

mod codes;
mod connecting;
mod filters;
mod limits;
mod moments;
mod numbers;
mod sessions;
mod topics;

pub use self::codes::{accepted_code, again_code, drop_code, fault_code, filter_code, topic_code};
pub use self::connecting::{
    aliases_of, assigned_name, expiry_of, largest_of, refusal, takes_refusal, will_of, window_of,
};
pub use self::filters::{
    has_filter, is_brought, is_new, is_new_id, place_among, retained_copy, subscription_of,
    wants_retained,
};
pub use self::limits::is_late_expiry;
pub use self::moments::{
    capped, expiry_due, interval_due, is_due, is_expired, is_past, is_silent, is_stale, later,
    seconds_waited, silence_due,
};
pub use self::numbers::number_at;
pub use self::sessions::{
    end_due, has_due_end, has_due_will, has_lapsed, is_settled, settling_due, will_due,
};
pub use self::topics::{Unmeant, meaning};
