//! Topic names, topic filters, shared filters and topic aliases (MQTT 5.0, 3.3.2.3.4, 4.7, 4.8.2).

mod aliases;
mod fault;
mod filter;
mod laws;
mod levels;
mod matching;
mod name;
mod shared;
mod sub_filter;
mod text;

pub use self::aliases::Aliases;
pub use self::fault::TopicFault;
pub use self::filter::Filter;
pub use self::laws::{filter_by_words, what_was_set_is_taken_back};
pub use self::levels::Levels;
pub use self::matching::matches;
pub use self::name::TopicName;
pub use self::shared::Shared;
pub use self::sub_filter::SubFilter;
