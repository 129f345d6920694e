//! Laws of brokers that are alike but for what their waiting copies say (4.1).
ghost use Rattle.mqtt_records.specs.declared.state.records.Records.{Records};
ghost use Rattle.mqtt_rules.specs.step.Laws.{IsCoherent};
ghost use Rattle.mqtt_rules.specs.step.State.{Broker};
ghost use Rattle.mqtt_rules.specs.declared.step.Capacity.{Capacity};
ghost use Rattle.mqtt_rules.specs.alike.Alike.{AlikeBrokers, AlikeRecords};
ghost use Rattle.mqtt_broker_acts.specs.calls.Ready.{AreSourcesStored, IsReady};
ghost use Rattle.mqtt_broker_acts.specs.calls.Sound.{IsSound};

/// A broker that is alike to one that can do its calls can do them too, whatever its waiting copies say: so an engine
/// whose rows say their topics alone may call on them, if the broker of the whole rows is sound (4.1).
pub fn alike_brokers_are_ready()
    ensures ready { (limits : Capacity) (some whole : Broker) → AlikeBrokers some whole → IsReady limits whole
        → IsReady limits some }
    ensures sound { (limits : Capacity) (some whole : Broker) → AlikeBrokers some whole → IsSound limits whole
        → IsReady limits some }
{}

/// Records that are alike to coherent ones are coherent, and have the same that messages are made from, whatever their waiting
/// copies say: so a broker may be opened on rows that say their topics alone (4.1).
pub fn alike_records_can_be_opened()
    ensures coherent { (some whole : Records) → AlikeRecords some whole → IsCoherent whole → IsCoherent some }
    ensures sources { (some whole : Records) → AlikeRecords some whole → AreSourcesStored whole
        → AreSourcesStored some }
{}
