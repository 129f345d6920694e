//! What aliases mean to their reader, which PUBLISH is too large, and that what was told is taken back (MQTT 5.0, 3.1.2.11.4, 3.3.2.3.4).
ghost use Rattle.std.specs.Prelude.{◌≡◌, ◌≤◌, ℕ, List, length};
ghost use Rattle.mqtt_topic.specs.names.Aliases.{no_aliases};
ghost use Rattle.mqtt_topic.specs.declared.sending.sizes.OtherBytes.{OtherBytes};
ghost use Rattle.mqtt_topic.specs.sending.Told.{ToldTopics, forms, none_told, shortened, with_told};
ghost use Rattle.mqtt_topic.specs.sending.Sizes.{IsFirstWithin, form_for};
ghost use Rattle.mqtt_topic.specs.sending.Said.{Meant, Said, AreAllowed, AreMeantNames, AreNames, MeanTheirTopics, said};

/// Whatever topic names are sent, each in any form that the sender's table allows by then: through a reader's table of
/// as many aliases or more each resolves to its topic name.
pub fn aliases_agree()
    ensures { (max most : ℕ) (xs : List Said) → max ≤ most → AreNames xs
        → AreAllowed (none_told max) xs → MeanTheirTopics (no_aliases most) xs }
{}

/// Whatever is to be sent on a connection, and however much its client takes: each PUBLISH that goes out means its
/// topic to the client, and none has an alias above the maximum.
pub fn what_goes_out_means_its_topic()
    ensures { (max most largest : ℕ) (ms : List Meant) → max ≤ most → AreMeantNames ms
        → MeanTheirTopics (no_aliases most) (said largest (none_told max) ms) }
{}

/// The form that a PUBLISH gets is one of its forms and within what the client takes; it is too large only if none of
/// its forms is within.
pub fn too_large_only_where_no_form_is_within()
    ensures { (largest : ℕ) (told : ToldTopics) (topic : List ℕ) (other : OtherBytes)
        → IsFirstWithin largest topic other (forms told topic) (form_for largest told topic other) }
{}

/// A topic that was told last is forgotten by `shorten` at the count before, and the table is as it was.
pub fn what_was_told_is_taken_back()
    ensures { (topic : List ℕ) (told : ToldTopics)
        → shortened (length told.topics) (with_told topic told) ≡ told }
{}
