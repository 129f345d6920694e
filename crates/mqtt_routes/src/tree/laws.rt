//! The order of filters, to which others are added (MQTT 5.0, 4.7.1).
ghost use Rattle.std.specs.Prelude.{ℕ, List, insert};
ghost use Rattle.mqtt_routes.specs.tree.Tree.{AreOrdered, IsPlace};

/// A filter that is put at its place leaves all in their order.
pub fn a_place_keeps_the_order()
    ensures { (texts : List (List ℕ)) (filter : List ℕ) (place : ℕ)
        → AreOrdered texts → IsPlace texts filter place → AreOrdered (insert texts place filter) }
{}
