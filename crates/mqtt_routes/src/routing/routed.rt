//! Where a publication goes (MQTT 5.0, 3.3.4, 4.8.2).
ghost use Rattle.std.specs.Prelude.{◌≡◌, option_copied};
ghost use Rattle.mqtt_routes.specs.routing.Acceptance.{has_takers};

use crate::routing::copy::RoutedCopy;
use mqtt_base::Text;
use std::marker::Model;

/// The turn that a group took; without members if nobody was chosen.
#[derive(Drop)]
pub(crate) struct Turn {
    /// The births of the group's members, each of which notes it.
    pub(crate) members: Vec<u64>,
    /// The place of the member that was chosen before; 0 for none.
    pub(crate) before: u64,
    /// The place of the chosen member; 0 for none.
    pub(crate) chosen: u64,
}

/// What becomes of a group of shared subscriptions.
#[derive(Drop)]
pub struct Served {
    /// $share/NAME/FILTER.
    pub(crate) filter: Text,
    /// NAME/FILTER.
    pub(crate) group: Text,
    pub(crate) copy: Option<RoutedCopy>,
    pub(crate) turn: Turn,
}

impl Model for Served {
    ghost use Rattle.mqtt_routes.specs.routing.Acceptance.{Served};

    ghost Value = { Served };

    ghost view = { λ s. record { group = s.group; copy = s.copy } };
}

impl Served {
    /// NAME/FILTER. Takes no memory.
    pub fn group(&self) -> &Text
        ensures { result.now ≡ self.now.group }
    {
        &self.group
    }

    /// The chosen member's copy, if there was an eligible member. Takes no memory.
    pub fn copy(&self) -> Option<&RoutedCopy>
        ensures { option_copied result ≡ self.now.copy }
    {
        self.copy.as_ref()
    }
}

/// Where a publication goes.
#[derive(Drop)]
pub struct Routed {
    pub(crate) direct: Vec<RoutedCopy>,
    pub(crate) served: Vec<Served>,
}

impl Model for Routed {
    ghost use Rattle.mqtt_routes.specs.routing.Acceptance.{Routed};

    ghost Value = { Routed };

    ghost view = { λ r. record { direct = r.direct.items; served = r.served.items } };
}

impl Routed {
    /// The direct copies, by session birth. Takes no memory.
    pub fn direct(&self) -> &[RoutedCopy]
        ensures { result.now ≡ self.now.direct }
    {
        self.direct.as_slice()
    }

    /// The groups that match, by their oldest members. Takes no memory.
    pub fn served(&self) -> &[Served]
        ensures { result.now ≡ self.now.served }
    {
        self.served.as_slice()
    }

    /// Whether somebody was there: there is a direct copy, or a group that matches. Takes no memory.
    pub fn has_takers(&self) -> bool
        ensures { result ≡ has_takers self.now }
    {
        !self.direct.is_empty() || !self.served.is_empty()
    }
}
