//! Filters in the order of their levels, a tree laid flat: a name isn't tried against what cannot match (MQTT 5.0, 4.7).

mod fault;
mod filters;
mod laws;
mod level;
mod run;
mod spot;
mod walk;

pub use self::fault::TreeFault;
pub use self::filters::Filters;
pub use self::laws::a_place_keeps_the_order;
pub use self::spot::place;
pub use self::walk::matching;
