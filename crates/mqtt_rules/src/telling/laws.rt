//! Laws of what goes out on a line (3.3.2.3.4).
ghost use Rattle.std.specs.Prelude.{◌≡◌, ℕ, List, filter_map};
ghost use Rattle.mqtt_topic.specs.names.Aliases.{AliasTable};
ghost use Rattle.mqtt_topic.specs.sending.Told.{none_told};
ghost use Rattle.mqtt_rules.specs.step.Deeds.{Deed, after_all, output, wires};
ghost use Rattle.mqtt_rules.specs.step.State.{Broker, told_on};
ghost use Rattle.mqtt_rules.specs.telling.Meaning.{AllMean, GrantsNone, GrantsWithin, Knows, after_reading_all, on_line};

/// Whatever a list of deeds sends on a line, in whichever forms: to a client that knows what it was told
/// before, each packet means the one that was meant, once it has read those before it; and then it knows
/// what it was told by them. So it does from its CONNECT on, whatever Topic Alias Maximum within its own it
/// is granted, and whatever is sent on other lines (3.1.2.11.5, 3.3.2.3.4).
pub fn what_goes_out_means_what_was_meant()
    ensures means { (n : ℕ) (table : AliasTable) (ds : List Deed) (b : Broker)
        → Knows table (told_on n b.tellings) → GrantsWithin n table.max ds
        → AllMean table (on_line n (wires ds b)) (on_line n (filter_map output ds)) }
    ensures knows { (n : ℕ) (table : AliasTable) (ds : List Deed) (b : Broker)
        → Knows table (told_on n b.tellings) → GrantsWithin n table.max ds
        → Knows (after_reading_all table (on_line n (wires ds b))) (told_on n (after_all ds b).tellings) }
{}

/// What a list of deeds sends on a line whose client takes no alias goes out there as it was meant, each PUBLISH with its
/// whole topic, whatever clients on other lines are told; and it is told nothing (3.1.2.11.5, 3.3.2.3.4).
pub fn who_takes_no_alias_is_told_none()
    ensures out { (n : ℕ) (ds : List Deed) (b : Broker)
        → told_on n b.tellings ≡ none_told 0 → GrantsNone n ds
        → on_line n (wires ds b) ≡ on_line n (filter_map output ds) }
    ensures told { (n : ℕ) (ds : List Deed) (b : Broker)
        → told_on n b.tellings ≡ none_told 0 → GrantsNone n ds
        → told_on n (after_all ds b).tellings ≡ none_told 0 }
{}
