//! The rules of the broker: what each call does, as definitions (MQTT 5.0, 3 and 4). The types here are
//! those that the rules speak of and the code shares; `docs/RULES.md` tells the rules in words.

ghost use Rattle.std.specs.Prelude.{◌≡◌};
ghost use Rattle.mqtt_rules.specs.step.Laws.{sized};

mod content_laws;
mod copy_laws;
mod fit_laws;
mod flight_laws;
mod form_laws;
mod lawful_laws;
mod laws;
mod line_laws;
mod number_laws;
mod routing_laws;
mod saying_laws;
mod topic_laws;

pub use self::content_laws::{contents_are_lawful, stored_copies_have_a_spelling};
pub use self::copy_laws::copies_keep_their_size;
pub use self::fit_laws::rows_always_fit;
pub use self::flight_laws::identifiers_in_flight_are_unique;
pub use self::form_laws::{
    alias_stands_behind_identifiers, forms_are_found_by_size, forms_keep_their_size,
    plain_is_the_publish,
};
pub use self::lawful_laws::{lawful_records_may_be_opened, open_identifiers_are_one_list};
pub use self::laws::{
    at_most_twenty_open, limits_are_kept, stored_part_follows, tables_are_ordered,
};
pub use self::line_laws::lines_are_unique;
pub use self::number_laws::{
    births_and_places_are_unique, births_are_new, copies_are_of_accepted_publications,
    counted_numbers_are_apart, counters_never_fall, new_places_are_last, numbers_are_new,
};
pub use self::routing_laws::{copies_find_room, members_are_reached};
pub use self::saying_laws::rows_can_be_said;
pub use self::topic_laws::topics_are_resolved;
use mqtt_base::{CopyId, Ending, Text};
use mqtt_flow::Full;

/// How much a broker is asked to hold, beside its lines: of those 64 are linked at one time where no other number is asked for.
#[derive(Clone, Copy, Debug, PartialEq, Eq)]
pub struct Limits {
    /// What becomes of a copy for which a queue has no room.
    pub full: Full,
    /// The most copies in a session's queue, from 1 to 1,000.
    pub queue: u32,
    /// The most sessions, from 1 to 1,000.
    pub sessions: u32,
    /// The most retained messages, from 1 to 1,000.
    pub retained: u32,
}

impl Limits {
    /// What a broker holds that is asked for these limits and so many lines.
    pub fn with_lines(self, lines: u32) -> Capacity
        ensures { result ≡ sized lines self }
    {
        Capacity {
            full: self.full,
            queue: self.queue,
            sessions: self.sessions,
            retained: self.retained,
            lines,
        }
    }
}

/// How much a broker holds: its limits, and how many lines are linked at one time.
#[derive(Clone, Copy, Debug, PartialEq, Eq)]
pub struct Capacity {
    /// What becomes of a copy for which a queue has no room.
    pub full: Full,
    /// The most copies in a session's queue, from 1 to 1,000.
    pub queue: u32,
    /// The most sessions, from 1 to 1,000.
    pub sessions: u32,
    /// The most retained messages, from 1 to 1,000.
    pub retained: u32,
    /// The most lines linked at one time, from 1; never more than 1,000 are.
    pub lines: u32,
}

/// What a call tells beside its packets, in the order in which it came about.
#[derive(Debug, PartialEq, Eq, Drop)]
pub enum Report {
    /// A publication was accepted (3.3.4).
    Accepted {
        /// Its number, from 1.
        publication: u64,
    },
    /// A copy entered its session's queue (4.6).
    Entered {
        /// The copy.
        copy: CopyId,
        /// The client identifier of its session.
        client: Text,
    },
    /// A PUBREL closed an open identifier of a QoS 2 publication (4.3.3).
    Released {
        /// The birth of the publisher's session.
        birth: u64,
        /// Its client identifier.
        client: Text,
        /// The packet identifier.
        identifier: u16,
    },
    /// A copy left its session's queue (4.3, 4.4).
    Ended {
        /// The copy.
        copy: CopyId,
        /// The client identifier of its session.
        client: Text,
        /// How it ended.
        ending: Ending,
    },
    /// A Will wasn't accepted and is dropped (3.1.2.5).
    WillRefused {
        /// The birth of its session.
        birth: u64,
        /// The client identifier.
        client: Text,
    },
}
