//! Topic aliases that a sender gives, and the forms of a PUBLISH (MQTT 5.0, 3.1.2.11.4, 3.1.2.11.5, 3.3.2.3.4).

mod form;
mod laws;
mod sizes;
mod told;

pub use self::form::Form;
pub use self::laws::{
    aliases_agree, too_large_only_where_no_form_is_within, what_goes_out_means_its_topic,
    what_was_told_is_taken_back,
};
pub use self::sizes::{OtherBytes, size_in};
pub use self::told::{ALIAS_LIMIT, OutAliases, most_of};
