//! Laws of what holds between calls (MQTT 5.0, 2.2.1, 4.1).
ghost use Rattle.std.specs.Prelude.{◌≡◌, ℕ, false};
ghost use Rattle.mqtt_keep.specs.lawful.Lawful.{IsLawful};
ghost use Rattle.mqtt_records.specs.declared.state.records.Records.{Records};
ghost use Rattle.mqtt_rules.specs.step.Contents.{TakesLawful};
ghost use Rattle.mqtt_rules.specs.step.Laws.{AreWithin};
ghost use Rattle.mqtt_rules.specs.step.State.{Broker, MemberChoice, stored};
ghost use Rattle.mqtt_rules.specs.step.Step.{Call, is_opening_spent, is_step_spent, opened, stepped};
ghost use Rattle.mqtt_rules.specs.declared.step.Capacity.{Capacity as TheCapacity};
ghost use Rattle.mqtt_broker_acts.specs.calls.Ready.{IsReady};
ghost use Rattle.mqtt_broker_acts.specs.calls.Sound.{IsSound, IsWithin};

/// Each step of a sound broker on a packet that is lawful and no longer than a packet may be leaves a
/// sound one, if no number is spent; and so does an opening of lawful records (4.1).
pub fn sound_brokers_stay_sound()
    ensures step { (limits : TheCapacity) (choice : MemberChoice) (now : ℕ) (call : Call) (b : Broker)
        → is_step_spent limits choice now call b ≡ false → TakesLawful call
        → IsSound limits b → IsSound limits (stepped limits choice now call b) }
    ensures opening { (limits : TheCapacity) (choice : MemberChoice) (now : ℕ) (r : Records)
        → AreWithin limits → IsLawful r
        → is_opening_spent limits choice now r ≡ false
        → IsSound limits (opened limits choice now r) }
{}

/// A sound broker can do its calls: they ask less, and nothing of what its waiting copies say (4.1).
pub fn sound_brokers_are_ready()
    ensures ready { (limits : TheCapacity) (b : Broker) → IsSound limits b → IsReady limits b }
{}

/// A step of a sound broker that finds no more sessions, retained messages and queued copies than its
/// limits leaves no more, and neither does an opening (ours).
pub fn limits_stay_kept()
    ensures step { (limits : TheCapacity) (choice : MemberChoice) (now : ℕ) (call : Call) (b : Broker)
        → IsSound limits b → IsWithin limits (stored b)
        → IsWithin limits (stored (stepped limits choice now call b)) }
    ensures opening { (limits : TheCapacity) (choice : MemberChoice) (now : ℕ) (r : Records)
        → AreWithin limits → IsLawful r → IsWithin limits r
        → IsWithin limits (stored (opened limits choice now r)) }
{}
