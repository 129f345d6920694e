//! A session's queue as a look sees it: its rows where they stand, with what a line knows of them (MQTT 5.0, 4.4, 4.6).
ghost use Rattle.std.specs.Prelude.{◌≡◌, ℕ, List};
ghost use Rattle.mqtt_rules.specs.step.Fitting.{size_at, sized};
ghost use Rattle.mqtt_broker_queue.specs.queues.Queues.{LineView};

use mqtt_base::{Phase, Qos};
use mqtt_broker_looks::sent::row_len;
use mqtt_broker_step::Places;
use mqtt_flow::QueueView;
use mqtt_records::{Boxed, CopyRow};
use std::marker::Model;

/// The bytes of a row's PUBLISH: those that are listed for its place, else those with its whole topic. Takes no memory.
fn size_at(sizes: &[(u64, u32)], row: &CopyRow) -> u32
    ensures { result ≡ size_at sizes.now row.now }
{
    for listed in sizes {
        if listed.0 == row.place() {
            return listed.1;
        }
    }
    row_len(row)
}

/// What a line knows of its session's queue.
#[derive(Drop)]
pub(crate) struct OnLine<'a> {
    /// The places of the copies whose PUBLISH went out on it.
    pub(crate) went: &'a Places,
    /// The bytes of those that go out in a shorter form, by place.
    pub(crate) sizes: &'a [(u64, u32)],
}

impl<'a> Model for OnLine<'a> {
    ghost use Rattle.mqtt_broker_queue.specs.queues.Queues.{LineView};

    ghost Value = { LineView };

    ghost view = { λ a. record { went = a.went.now; sizes = a.sizes.now } };
}

impl<'a> QueueView for OnLine<'a> {
    type Row = Boxed<CopyRow>;

    ghost use Rattle.std.specs.Prelude.{◌≡◌};
    ghost use Rattle.mqtt_rules.specs.step.Fitting.{size_at, sized};
    ghost use Rattle.mqtt_broker_queue.specs.queues.Queues.{LineView};

    ghost entry = { λ view row. sized (size_at view.sizes) view.went row };

    fn place(row: &Boxed<CopyRow>) -> u64
        ensures { (view : LineView) → result ≡ (sized (size_at view.sizes) view.went row.now).place }
    {
        row.get().place()
    }

    fn phase(row: &Boxed<CopyRow>) -> Phase
        ensures { (view : LineView) → result ≡ (sized (size_at view.sizes) view.went row.now).phase }
    {
        row.get().phase()
    }

    fn qos(row: &Boxed<CopyRow>) -> Qos
        ensures { (view : LineView)
            → result ≡ (sized (size_at view.sizes) view.went row.now).copy.qos }
    {
        row.get().qos()
    }

    fn size(&self, row: &Boxed<CopyRow>) -> u32 {
        size_at(self.sizes, row.get())
    }

    fn arrived(row: &Boxed<CopyRow>) -> u64
        ensures { (view : LineView)
            → result ≡ (sized (size_at view.sizes) view.went row.now).copy.arrived }
    {
        row.get().arrived()
    }

    fn expiry(row: &Boxed<CopyRow>) -> Option<u32>
        ensures { (view : LineView)
            → result ≡ (sized (size_at view.sizes) view.went row.now).copy.expiry }
    {
        row.get().expiry()
    }

    fn here(&self, row: &Boxed<CopyRow>) -> bool {
        self.went.contains(row.get().place())
    }
}
