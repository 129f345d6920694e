//! Filters in their order, for the tests.
ghost use Rattle.mqtt_routes.specs.tree.Tree.{AreOrdered};

use mqtt_routes::{Filters, place};
use mqtt_topic::SubFilter;
use std::alloc::{AllocFailed, Global};
use std::marker::Model;

/// Filters in the order of their levels.
#[derive(Drop)]
pub(crate) struct Shelf {
    filters: Vec<SubFilter>,
}

impl Model for Shelf {
    ghost use Rattle.std.specs.Prelude.{List, ℕ, map};
    ghost use Rattle.mqtt_topic.specs.names.Filters.{matching_part_of};
    ghost use Rattle.mqtt_routes.specs.tree.Tree.{AreOrdered};

    ghost Value = { List (List ℕ) };

    ghost view = { λ s. map matching_part_of s.filters.items };

    ghost invariant = { λ s. AreOrdered (map matching_part_of s.filters.items) };
}

impl Filters for Shelf {
    ghost texts = { λ s. s };

    fn count(&self) -> usize {
        self.filters.len()
    }

    fn text(&self, number: usize) -> &str {
        self.filters[number].filter()
    }
}

impl Shelf {
    /// No filter.
    pub(crate) fn new(alloc: Global) -> Shelf {
        Shelf {
            filters: Vec::new(alloc),
        }
    }

    /// Puts a filter at its place.
    pub(crate) fn put(&mut self, filter: SubFilter) -> Result<(), AllocFailed<SubFilter>> {
        let number = place(self, &filter);
        self.filters.insert(number, filter)
    }

    /// The filter of a number.
    pub(crate) fn get(&self, number: usize) -> Option<&SubFilter> {
        self.filters.as_slice().get(number)
    }

    /// Shows that the filters are in order.
    pub(crate) fn show_order(&self)
        ensures { AreOrdered self.now }
    {
        let _filters = &self.filters;
    }
}
