//! What a script asks of a broker, whatever store it stands over.

use crate::telling::Telling;
use mqtt_broker::EngineError;

/// A call that answers what came about.
#[derive(Clone, Copy)]
pub(crate) enum Call<'a> {
    /// Bytes come on a line.
    Piece { line: u64, bytes: &'a [u8] },
    /// What waits for a line goes out.
    Pump { line: u64 },
    /// A line is lost.
    Lost { line: u64 },
    /// A turn of the clock.
    Tick,
}

/// What such a call answered, beside what came about.
#[derive(Clone, Copy)]
pub(crate) enum Answer {
    /// How many bytes were taken, and whether to call again.
    Done { taken: usize, again: bool },
    /// Why nothing was done.
    Refused(EngineError),
}

/// A broker.
pub(crate) trait Broker {
    /// Links a line.
    fn link(&mut self, moment: u64) -> Option<u64>;

    /// Makes a call, and tells what came about.
    fn call(&mut self, told: &mut Telling, call: Call<'_>, moment: u64) -> Answer;

    /// The publication whose copy has a packet identifier on a line.
    fn publication(&self, line: u64, identifier: u16) -> Option<u64>;
}
