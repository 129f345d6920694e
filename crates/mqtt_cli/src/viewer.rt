//! The view of a stream of packets, and the report on the vectors, over any reader and writer (ours).

mod details;
mod json_lists;
mod json_packet;
mod json_values;
mod laws;
mod packet_text;
mod property_text;
mod text;
mod vectors_checker;
mod vectors_report;
mod vectors_table;
mod viewer;

pub use self::details::Details;
pub use self::laws::{one_view, texts_read_back};
pub use self::vectors_checker::{VectorsFault, is_right, vectors};
pub use self::vectors_table::{Gives, Vector, known_vectors};
pub use self::viewer::{Status, ViewFault, view};
