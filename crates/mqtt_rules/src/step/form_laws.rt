//! Laws of the forms in which a PUBLISH goes out (3.1.2.11.4, 3.3.2.1, 3.3.2.3.4).
ghost use Rattle.std.specs.Prelude.{◌≡◌, ◌∷◌, ◌++◌, ℕ, Bool, List, Some, map};
ghost use Rattle.mqtt_props.specs.declared.table.PropName.TheVariants.{TopicAlias, UserProperty};
ghost use Rattle.mqtt_props.specs.Edits.{only, without};
ghost use Rattle.mqtt_props.specs.Properties.{Prop, U16};
ghost use Rattle.mqtt_topic.specs.declared.sending.form.Form.{Form};
ghost use Rattle.mqtt_topic.specs.declared.sending.form.Form.TheVariants.{Plain, Named, Short};
ghost use Rattle.mqtt_topic.specs.sending.Told.{ToldTopics};
ghost use Rattle.mqtt_topic.specs.sending.Sizes as sizes;
ghost use Rattle.mqtt_packet.specs.declared.codec.publish.Publish.{Publish};
ghost use Rattle.mqtt_packet.specs.declared.codec.packet.Packet.TheVariants as packets;
ghost use Rattle.mqtt_records.specs.messages.PassedOn.{aged, identified, property, sent_after};
ghost use Rattle.mqtt_records.specs.messages.Queue.{publish_size};
ghost use Rattle.mqtt_records.specs.declared.messages.message.MessageCopy.{MessageCopy};
ghost use Rattle.mqtt_rules.specs.step.Forms.{form_for, form_size, in_form, other_bytes, other_of, published_of, with_alias};
ghost use Rattle.mqtt_rules.specs.step.Packets.{publish_of, size_of};

/// In a form a copy's PUBLISH has as many bytes whenever it is sent, with whichever flag, packet
/// identifier and alias; in the plain form the ones that are kept with the copy (3.1.2.11.4,
/// 3.3.2.3.4).
pub fn forms_keep_their_size()
    ensures size { (form : Form) (copy : MessageCopy) (now id : ℕ) (dup : Bool)
        → size_of (packets.Publish (in_form form (published_of now dup id copy))) ≡ form_size form copy }
    ensures named { (copy : MessageCopy) (alias other : ℕ)
        → form_size (Named alias) copy ≡ form_size (Named other) copy }
    ensures short { (copy : MessageCopy) (alias other : ℕ)
        → form_size (Short alias) copy ≡ form_size (Short other) copy }
    ensures plain { (copy : MessageCopy) → form_size Plain copy ≡ publish_size copy }
{}

/// In its plain form a PUBLISH is itself, and so is that of a copy (3.3).
pub fn plain_is_the_publish()
    ensures itself { (p : Publish) → in_form Plain p ≡ p }
    ensures copy { (copy : MessageCopy) (now id : ℕ) (dup : Bool)
        → packets.Publish (in_form Plain (published_of now dup id copy)) ≡ publish_of now dup id copy }
{}

/// The form in which a PUBLISH goes out is the one that `mqtt_topic::sending` finds by its topic and its
/// other bytes. Those of a copy are as many whenever it is sent, so its form is the same (3.1.2.11.4).
pub fn forms_are_found_by_size()
    ensures packet { (largest : ℕ) (told : ToldTopics) (p : Publish)
        → form_for largest told p ≡ sizes.form_for largest told p.topic (other_of p) }
    ensures copy { (largest : ℕ) (told : ToldTopics) (copy : MessageCopy) (now id : ℕ) (dup : Bool)
        → form_for largest told (published_of now dup id copy)
        ≡ sizes.form_for largest told copy.content.topic (other_bytes copy) }
{}

/// In the block of a copy the Topic Alias stands behind what was passed on and the Subscription
/// Identifiers, and before the User Properties; all of these stay as they are (3.3.2.3, ours).
pub fn alias_stands_behind_identifiers()
    ensures { (alias waited : ℕ) (identifiers : List ℕ) (ps : List Prop)
        → with_alias (Some alias) (sent_after waited identifiers ps)
        ≡ map (aged waited) (without UserProperty ps) ++ map identified identifiers
        ++ property TopicAlias (U16 alias) ∷ only UserProperty ps }
{}
