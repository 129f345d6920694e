//! What takes a change of the tables back.
use crate::line::{LineChange, LineState};
use crate::telling::LineTopics;
use mqtt_records::{Boxed, Change, Session};

/// What takes a change back.
#[derive(Drop)]
pub enum Undo {
    /// By a change of the records.
    Make { change: Change },
    /// A session that left the table is put back whole.
    PutSession { session: Boxed<Session> },
    /// A line that left the table is put back.
    PutLine { line: LineState },
    /// A line that was linked leaves the table, and its number is free again.
    RemoveLine { number: u64, given: u64 },
    /// A line's part is what it was.
    EditLine { number: u64, change: LineChange },
    /// What the client on a line was told is put back, when the line left the table.
    PutTelling { telling: LineTopics },
    /// The client on a line takes no aliases.
    RemoveTelling { line: u64 },
    /// The client on a line was told so many topics.
    CutTelling { line: u64, count: usize },
    /// The moment is what it was.
    SetMoment { moment: u64 },
}
