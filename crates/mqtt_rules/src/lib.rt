//! What a broker does with each thing that happens to it, as definitions and their laws (MQTT 5.0,
//! 3, 4).
#![tactic(auto)]

pub mod alike;
pub mod filling;
pub mod fitting;
pub mod granting;
pub mod sharing;
pub mod spelling;
mod step;
pub mod telling;
pub mod whole;

pub use step::{
    Capacity, Limits, Report, alias_stands_behind_identifiers, at_most_twenty_open,
    births_and_places_are_unique, births_are_new, contents_are_lawful,
    copies_are_of_accepted_publications, copies_find_room, copies_keep_their_size,
    counted_numbers_are_apart, counters_never_fall, forms_are_found_by_size, forms_keep_their_size,
    identifiers_in_flight_are_unique, lawful_records_may_be_opened, limits_are_kept,
    lines_are_unique, members_are_reached, new_places_are_last, numbers_are_new,
    open_identifiers_are_one_list, plain_is_the_publish, rows_always_fit, rows_can_be_said,
    stored_copies_have_a_spelling, stored_part_follows, tables_are_ordered, topics_are_resolved,
};
