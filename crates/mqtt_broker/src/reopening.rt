//! What a broker writes is lawful again: a store that it left can be opened (MQTT 5.0, 4.1). Private.

mod laws;

pub use self::laws::{
    a_store_may_be_opened_again, client_identifiers_stay_lawful, copies_stay_apart,
    numbers_stay_within_the_last, phases_fit_their_service, places_stay_apart, texts_stay_lawful,
    times_stay_in_order, what_a_broker_writes_is_lawful,
};
