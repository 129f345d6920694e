//! What a broker keeps of its sessions and messages (4.1).

mod change;
mod laws;
mod passed;
mod records;
mod session;
mod slim;
mod subscription;
mod telling;

pub use self::change::{Change, Counter, all_pass_on, clone_all};
pub use self::laws::{ended_session_leaves_nothing, numbers_never_fall};
pub use self::passed::records_pass_on;
pub use self::records::Records;
pub use self::session::{Columns, Session, SessionPart, SessionRow};
pub use self::subscription::Subscription;
pub use self::telling::{content_of, contents_in};
