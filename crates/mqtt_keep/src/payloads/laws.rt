//! The law of payloads that nobody looks at (3.3.3, 4.1).
ghost use Rattle.std.specs.Prelude.{◌≡◌};
ghost use Rattle.mqtt_records.specs.declared.state.records.Records.{Records};
ghost use Rattle.mqtt_records.specs.state.Contents.{SharesContents};
ghost use Rattle.mqtt_records.specs.state.Slim.{all_slim};
ghost use Rattle.mqtt_keep.specs.lawful.Lawful.{IsLawful};
ghost use Rattle.mqtt_keep.specs.payloads.Payloads.{AreAsLong, Payloads, records_with};

/// If waiting copies have other bytes as payloads, as many as before, their slim rows are the same. And lawful records stay
/// lawful, if all copies of a publication and its retained message still say the same. So who loads a store needs no payload
/// in memory, but its length alone (3.3.3, 4.1).
pub fn payloads_may_be_others()
    ensures slim { (payloads : Payloads) (r : Records) → AreAsLong payloads r
        → all_slim (records_with payloads r) ≡ all_slim r }
    ensures lawful { (payloads : Payloads) (r : Records) → AreAsLong payloads r → IsLawful r
        → SharesContents (records_with payloads r) → IsLawful (records_with payloads r) }
{}
