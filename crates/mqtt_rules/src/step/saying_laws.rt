//! Laws of what the rows of a step put: a row can say it (3.3.2.3, 3.8.2.1.2, 4.1).
ghost use Rattle.std.specs.Prelude.{ℕ};
ghost use Rattle.mqtt_records.specs.state.Saying.{AllSayable};
ghost use Rattle.mqtt_records.specs.declared.state.records.Records.{Records};
ghost use Rattle.mqtt_rules.specs.step.Contents.{AreContentsOf, AreSizes, HasLawfulContentsOf, Sizes, TakesLawful};
ghost use Rattle.mqtt_rules.specs.step.State.{Broker, MemberChoice};
ghost use Rattle.mqtt_rules.specs.step.Step.{Call, at_moment, deeds, opening_deeds, rows_written, unopened};
ghost use Rattle.mqtt_rules.specs.declared.step.Capacity.{Capacity as TheCapacity};

/// What the rows of a step put can be said by a row, and so can what those of an opening put: properties of
/// Wills, of queued copies and of retained messages have a spelling, and so has what is sent of a copy; and
/// no Subscription Identifier is 0. For that the packet has to be lawful and no longer than a packet may be,
/// and what is stored lawful (3.3.2.3, 3.8.2.1.2, 4.1).
pub fn rows_can_be_said()
    ensures step { (sizes : Sizes) (limits : TheCapacity) (choice : MemberChoice) (now : ℕ) (call : Call)
        (b : Broker) → AreSizes sizes → TakesLawful call → AreContentsOf sizes b
        → AllSayable (rows_written (deeds limits choice now call b) (at_moment now b)) }
    ensures opening { (sizes : Sizes) (limits : TheCapacity) (choice : MemberChoice) (now : ℕ) (r : Records)
        → AreSizes sizes → HasLawfulContentsOf sizes r
        → AllSayable (rows_written (opening_deeds limits choice now r) (unopened now r)) }
{}
