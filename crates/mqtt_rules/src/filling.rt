//! Laws of an engine that keeps what waiting copies say in its store alone (MQTT 5.0, 3.3, 4.3, 4.6). Private.

mod filling_laws;

pub use self::filling_laws::{
    a_pump_reads_what_it_sends, alike_is_an_equivalence, alike_records_take_the_same_rows,
    calls_but_pumps_tell_the_same, entered_copies_become_slim, filled_is_the_whole,
    pumps_of_whole_rows_tell_the_same, steps_on_slim_rows_are_steps,
};
