//! Laws of copies that fit with their whole topics (3.1.2.11.4, 3.3.2.3.4).
ghost use Rattle.std.specs.Prelude.{◌≡◌, ◌≤◌, ℕ, map};
ghost use Rattle.std.specs.List.{AllByRecursion};
ghost use Rattle.mqtt_flow.specs.outbound.Outbound.{pump};
ghost use Rattle.mqtt_records.specs.declared.state.session.Session.{Session};
ghost use Rattle.mqtt_topic.specs.sending.Told.{ToldTopics};
ghost use Rattle.mqtt_rules.specs.step.Outbound.{way_of};
ghost use Rattle.mqtt_rules.specs.step.Fitting.{fitted_size, form_of, sized};
ghost use Rattle.mqtt_rules.specs.step.State.{Line, queue_on, queued_copy};
ghost use Rattle.mqtt_records.specs.messages.Queue.{CopyRow, IsSpelled};
ghost use Rattle.mqtt_records.specs.declared.messages.message.MessageCopy.{MessageCopy};
ghost use Rattle.mqtt_rules.specs.whole.Whole.{FitsWhole, GoesByWhole, HasFormWithin};

/// A copy that has a spelling and fits with its whole topic goes out in some form that fits, whatever its client was
/// told of topics; and in the form in which it goes out it is no larger than the client takes (2.1.4, 3.1.2.11.4, 3.3.2.3.4).
pub fn what_fits_whole_goes_out()
    ensures goes_out { (largest : ℕ) (told : ToldTopics) (copy : MessageCopy) → IsSpelled copy
        → (queued_copy copy).size ≤ largest → HasFormWithin largest told copy }
    ensures within { (largest : ℕ) (told : ToldTopics) (copy : MessageCopy)
        → (queued_copy copy).size ≤ largest → fitted_size (form_of largest told copy) copy ≤ largest }
{}

/// If all copies of a session fit with their whole topics on its line, its pump, which looks at forms, has the turns of the
/// one that looks at whole topics, whatever its client was told. So it is with whatever sizes that fit, since a pump looks at
/// sizes for what is too large alone (3.1.2.11.4).
pub fn a_pump_in_forms_is_a_pump()
    ensures forms { (l : Line) (s : Session) → FitsWhole l s → GoesByWhole l s }
    ensures sizes { (size : CopyRow → ℕ) (l : Line) (now : ℕ) (s : Session)
        → AllByRecursion (λ (e : CopyRow). size e ≤ l.largest) s.queue → FitsWhole l s
        → pump (way_of l now) (map (sized size l.went) s.queue) ≡ pump (way_of l now) (queue_on l.went s) }
{}
