//! What a filter is in the standard's words, and that what was set is taken back (MQTT 5.0, 3.3.2.3.4, 4.7.1, 4.8.2).
ghost use Rattle.std.specs.Prelude.{◌≡◌, ◌↔◌, ℕ, List, true};
ghost use Rattle.mqtt_topic.specs.names.Filters.{is_filter, IsFilter};
ghost use Rattle.mqtt_topic.specs.names.Aliases.{restored, topic_of, with_topic};

/// A text is a filter by the test exactly if it is one by the standard's words.
pub fn filter_by_words()
    ensures { (text : List ℕ) → (is_filter text ≡ true) ↔ IsFilter text }
{}

/// An alias that was set and is restored leaves the table as it was.
pub fn what_was_set_is_taken_back()
    ensures { (alias : ℕ) (topic : List ℕ) (topics : List (ℕ × List ℕ))
        → restored alias (topic_of alias topics) (with_topic alias topic topics) ≡ topics }
{}
