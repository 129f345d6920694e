//! All copies and retained messages of one publication say the same, whatever the broker does (MQTT 5.0, 3.3, 4.1).
ghost use Rattle.std.specs.Prelude.{ℕ, List};
ghost use Rattle.mqtt_records.specs.state.Records.{nothing};
ghost use Rattle.mqtt_records.specs.declared.state.records.Records.{Records};
ghost use Rattle.mqtt_records.specs.state.Contents.{FitContents, SharesContents};
ghost use Rattle.mqtt_rules.specs.step.Laws.{Event, after_events, blank};
ghost use Rattle.mqtt_rules.specs.step.Numbers.{HasAcceptedNumbers};
ghost use Rattle.mqtt_rules.specs.step.State.{Broker, MemberChoice, stored};
ghost use Rattle.mqtt_rules.specs.step.Step.{Call, at_moment, deeds, opened, opening_deeds, rows_written, stepped, unopened};
ghost use Rattle.mqtt_rules.specs.declared.step.Capacity.{Capacity as TheCapacity};

/// All copies and retained messages of one publication say the same topic, properties and payload, whatever
/// was asked since the first start, and whenever a broker opened what was stored. So it is with nothing
/// stored, and after each step and each opening if it was so before. Each row that these write puts what is
/// said under its publication's number by then, or is the first to say anything under it. Asked is that no
/// copy and no retained message has a number above that of the last publication accepted; that stays so
/// (`copies_are_of_accepted_publications` of `mqtt_rules`). Whether numbers are spent, tables are in order or
/// packets are lawful makes no difference (3.3, 4.1).
pub fn contents_are_shared()
    ensures run { (events : List Event) → SharesContents (stored (after_events events blank)) }
    ensures nothing { SharesContents nothing }
    ensures step { (limits : TheCapacity) (choice : MemberChoice) (now : ℕ) (call : Call) (b : Broker)
        → SharesContents (stored b) → HasAcceptedNumbers (stored b)
        → SharesContents (stored (stepped limits choice now call b)) }
    ensures rows { (limits : TheCapacity) (choice : MemberChoice) (now : ℕ) (call : Call) (b : Broker)
        → SharesContents (stored b) → HasAcceptedNumbers (stored b)
        → FitContents (rows_written (deeds limits choice now call b) (at_moment now b)) (stored b) }
    ensures opened { (limits : TheCapacity) (choice : MemberChoice) (now : ℕ) (r : Records)
        → SharesContents r → HasAcceptedNumbers r
        → SharesContents (stored (opened limits choice now r)) }
    ensures opening { (limits : TheCapacity) (choice : MemberChoice) (now : ℕ) (r : Records)
        → SharesContents r → HasAcceptedNumbers r
        → FitContents (rows_written (opening_deeds limits choice now r) (unopened now r)) r }
{}
