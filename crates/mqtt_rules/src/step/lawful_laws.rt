//! Laws of the records that a store may be opened with.
ghost use Rattle.std.specs.Prelude.{◌↔◌, ℕ, List};
ghost use Rattle.mqtt_base.specs.declared.limits.TheConstants.{OPEN_LIMIT};
ghost use Rattle.mqtt_flow.specs.inbound.Inbound.{IsOpenList};
ghost use Rattle.mqtt_keep.specs.lawful.Lawful.{IsLawful};
ghost use Rattle.mqtt_records.specs.lists.Order.{IsTable};
ghost use Rattle.mqtt_records.specs.state.Session.{number_of};
ghost use Rattle.mqtt_records.specs.declared.state.records.Records.{Records};
ghost use Rattle.mqtt_rules.specs.step.Contents.{HasLawfulContents};
ghost use Rattle.mqtt_rules.specs.step.Laws.{IsCoherent};
ghost use Rattle.mqtt_rules.specs.step.Numbers.{HasAcceptedNumbers};

/// Lawful records have what the laws of steps and openings ask of those that a broker begins with: they
/// are coherent, each copy and retained message is of a publication that was accepted, and what messages
/// hold is lawful (4.1).
pub fn lawful_records_may_be_opened()
    ensures coherent { (r : Records) → IsLawful r → IsCoherent r }
    ensures accepted { (r : Records) → IsLawful r → HasAcceptedNumbers r }
    ensures contents { (r : Records) → IsLawful r → HasLawfulContents r }
{}

/// The open identifiers that are stored of a session are such as its handshakes keep: both are the
/// ascending lists of at most 20 (4.3.3, 4.9).
pub fn open_identifiers_are_one_list()
    ensures { (ids : List ℕ) → IsTable number_of OPEN_LIMIT ids ↔ IsOpenList ids }
{}
