//! Topic names, filters and aliases, and the form in which a topic is sent (MQTT 5.0, 3.3.2.3.4,
//! 4.7, 4.8.2).
#![tactic(auto)]

mod names;
mod sending;

pub use names::{
    Aliases, Filter, Levels, Shared, SubFilter, TopicFault, TopicName, filter_by_words, matches,
    what_was_set_is_taken_back,
};
pub use sending::{
    ALIAS_LIMIT, Form, OtherBytes, OutAliases, aliases_agree, most_of, size_in,
    too_large_only_where_no_form_is_within, what_goes_out_means_its_topic,
    what_was_told_is_taken_back,
};
