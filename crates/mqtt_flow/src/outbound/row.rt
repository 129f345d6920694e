//! The rows of a session's queue of outbound copies, in whatever form they are kept.

ghost use Rattle.std.specs.Prelude.{◌≡◌};
ghost use Rattle.mqtt_flow.specs.declared.outbound.entry.Entry.{Entry};

use crate::outbound::entry::Entry;
use mqtt_base::{Phase, Qos};

/// What is known of the rows of a queue. The rows tell the rest themselves, so a look goes over them where they stand.
pub trait QueueView {
    /// A copy in the queue, as who keeps the queue has it.
    type Row;

    // The entry that a row stands for.
    ghost entry: { Self → Self.Row → Entry };

    /// The copy's place in the queue. Takes no memory.
    fn place(row: &Self::Row) -> u64
        ensures { (view : Self) → result ≡ (entry view row.now).place };

    /// How far the copy has come. Takes no memory.
    fn phase(row: &Self::Row) -> Phase
        ensures { (view : Self) → result ≡ (entry view row.now).phase };

    /// The quality of service granted. Takes no memory.
    fn qos(row: &Self::Row) -> Qos
        ensures { (view : Self) → result ≡ (entry view row.now).copy.qos };

    /// Bytes of its PUBLISH as it goes out on the session's connection, fixed header included (2.1.4). Takes no memory.
    fn size(&self, row: &Self::Row) -> u32
        ensures { result ≡ (entry self.now row.now).copy.size };

    /// When its publication was accepted, in milliseconds. Takes no memory.
    fn arrived(row: &Self::Row) -> u64
        ensures { (view : Self) → result ≡ (entry view row.now).copy.arrived };

    /// Its Message Expiry Interval, in seconds (3.3.2.3.3). Takes no memory.
    fn expiry(row: &Self::Row) -> Option<u32>
        ensures { (view : Self) → result ≡ (entry view row.now).copy.expiry };

    /// Whether its PUBLISH went out on the session's connection. Takes no memory.
    fn here(&self, row: &Self::Row) -> bool
        ensures { result ≡ (entry self.now row.now).here };
}

/// Entries as rows: each knows by itself whether its PUBLISH went out.
#[derive(Drop)]
pub struct Entries;

impl QueueView for Entries {
    type Row = Entry;

    ghost entry = { λ view e. e };

    fn place(row: &Entry) -> u64 {
        row.place
    }

    fn phase(row: &Entry) -> Phase {
        row.phase
    }

    fn qos(row: &Entry) -> Qos {
        row.copy.qos
    }

    fn size(&self, row: &Entry) -> u32 {
        row.copy.size
    }

    fn arrived(row: &Entry) -> u64 {
        row.copy.arrived
    }

    fn expiry(row: &Entry) -> Option<u32> {
        row.copy.expiry
    }

    fn here(&self, row: &Entry) -> bool {
        row.here
    }
}
