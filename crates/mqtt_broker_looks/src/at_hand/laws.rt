//! Laws of what is at hand of all queues (MQTT 5.0, 4.1, 4.6).
ghost use Rattle.std.specs.Prelude.{◌≡◌, ℕ, true, List, Some};
ghost use Rattle.mqtt_flow.specs.ring.AtHand.{content_at, has_room, without};
ghost use Rattle.mqtt_records.specs.messages.Queue.{CopyRow};
ghost use Rattle.mqtt_records.specs.declared.state.change.Change.{Change};
ghost use Rattle.mqtt_records.specs.declared.state.change.Change.TheVariants.{PutCopy};
ghost use Rattle.mqtt_records.specs.declared.state.records.Records.{Records};
ghost use Rattle.mqtt_records.specs.state.Records.{FitAll, changed_all};
ghost use Rattle.mqtt_records.specs.state.Telling.{copy_content};
ghost use Rattle.mqtt_broker_looks.specs.at_hand.Following.{HasFollowedAll, followed};
ghost use Rattle.mqtt_broker_looks.specs.at_hand.Hand.{Hand, SayWhatIsStored, at_hand_of};

/// A copy that is put at the end of a queue that is at hand to its end is found there, if there is room.
pub fn newest_is_found()
    ensures { (hand : Hand) (birth : ℕ) (row : CopyRow) → (at_hand_of birth hand).reaches_end ≡ true
        → has_room row.place (without row.place (at_hand_of birth hand).entries) ≡ true
        → content_at row.place (followed birth (PutCopy birth row) (at_hand_of birth hand))
        ≡ Some (copy_content row) }
{}

/// What is at hand is what is stored, and is so after changes that fit, whatever was lost meanwhile.
pub fn stays_what_is_stored()
    ensures { (hand after : Hand) (changes : List Change) (r : Records) → SayWhatIsStored hand r
        → FitAll changes r
        → ((birth : ℕ) → HasFollowedAll birth changes (at_hand_of birth hand) (at_hand_of birth after))
        → SayWhatIsStored after (changed_all changes r) }
{}
