//! Who gets a copy of a publication, and which copies of it enter queues: those intended, each once, and no other
//! (MQTT 5.0, 3.3.4, 4.3, 4.8.2).

mod laws;

pub use self::laws::{
    copies_of_members_find_a_line, each_publication_enters_exactly_its_copies,
    each_session_and_each_group_gets_one_copy,
};
