//! Lines with their time, each by one write (ours).
use crate::journal::server_event::ServerEvent;
use jiff::Timestamp;
use std::alloc::Global;
use std::{fmt, io};

/// A moment in milliseconds since 1970, as it is written: UTC, as `2026-11-30T16:40:12.123Z`.
#[derive(Clone, Copy, Debug, PartialEq, Eq)]
struct Time(u64);

impl fmt::Display for Time {
    fn fmt<W: fmt::Write>(&self, f: &mut fmt::Formatter<W>) -> fmt::Result {
        let moment = self.0;
        let Ok(count) = i64::try_from(moment) else {
            return write!(f, "{moment}");
        };
        match Timestamp::from_millisecond(count) {
            Ok(at) => write!(f, "{at:.3}"),
            Err(_) => write!(f, "{moment}"),
        }
    }
}

/// Writes lines. One that can't be written ends nothing: it is counted, and the count is told before the next that can.
#[derive(Drop)]
pub(crate) struct LineWriter<W: io::Write + Drop> {
    alloc: Global,
    writer: W,
    unwritten: u64,
}

impl<W: io::Write + Drop> LineWriter<W> {
    /// Lines of this writer.
    pub fn new(alloc: Global, writer: W) -> LineWriter<W> {
        LineWriter {
            alloc,
            writer,
            unwritten: 0,
        }
    }

    /// Gives the writer back.
    pub fn into_writer(self) -> W {
        self.writer
    }

    /// Writes a line, by one write. False if it can't be written.
    fn put<E: fmt::Display>(&mut self, moment: u64, event: &E) -> bool {
        let time = Time(moment);
        match format!(in self.alloc; "{time} {event}\n") {
            Ok(line) => self.writer.write_all(line.as_bytes()).is_ok(),
            Err(_) => false,
        }
    }

    /// Writes how many lines were not written, if any. False if that can't be written.
    fn put_unwritten(&mut self, moment: u64) -> bool {
        let lines = self.unwritten;
        if lines == 0 {
            return true;
        }
        let is_written = self.put(moment, &ServerEvent::Unwritten { lines });
        if is_written {
            self.unwritten = 0;
        }
        is_written
    }

    /// Writes a line, or counts it.
    pub fn write<E: fmt::Display>(&mut self, moment: u64, event: &E) {
        if !(self.put_unwritten(moment) && self.put(moment, event)) {
            self.unwritten = self.unwritten.saturating_add(1);
        }
    }
}
