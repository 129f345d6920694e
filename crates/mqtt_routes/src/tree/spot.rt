//! Where a filter is put among others (MQTT 5.0, 4.7.1).
ghost use Rattle.std.specs.Prelude.{◌≡◌};
ghost use Rattle.mqtt_topic.specs.names.Filters.{matching_part_of};
ghost use Rattle.mqtt_routes.specs.tree.Tree.{AreOrdered, IsPlace};

use crate::tree::filters::Filters;
use crate::tree::run::{Run, narrowed};
use mqtt_topic::SubFilter;

/// Where a filter is put, so that the filters stay in their order; a shared filter counts as the one
/// that is matched. Takes no memory.
pub fn place<F: Filters>(filters: &F, filter: &SubFilter) -> usize
    requires ordered { AreOrdered (F.texts filters.now) }
    ensures { IsPlace (F.texts filters.now) (matching_part_of filter.now) result }
{
    let mut run = Run {
        from: 0,
        to: filters.count(),
        end: None,
    };
    let mut rest = filter.levels();
    while let Some(level) = rest.next() {
        run = narrowed(filters, run, level);
    }
    run.from
}
