//! The law of the order that a change leaves (4.1).
ghost use Rattle.mqtt_records.specs.state.Records.{changed, kept_place};
ghost use Rattle.mqtt_records.specs.declared.state.change.Change.{Change};
ghost use Rattle.mqtt_records.specs.declared.state.records.Records.{Records};
ghost use Rattle.mqtt_records.specs.lists.Order.{IsAscending};
ghost use Rattle.mqtt_store_database.specs.item_laws.Members.{AllOrdered};

/// A change leaves the lists of records in the order of their keys.
pub fn change_keeps_order()
    ensures sessions { (change : Change) (r : Records)
        → AllOrdered r → AllOrdered (changed change r) }
    ensures retained { (change : Change) (r : Records)
        → IsAscending kept_place r.retained
        → IsAscending kept_place (changed change r).retained }
{}
