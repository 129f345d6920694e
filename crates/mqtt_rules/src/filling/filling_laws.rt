//! Laws of brokers whose waiting copies say their topic alone, beside what there is to fill them with (3.3, 4.3, 4.6).
ghost use Rattle.std.specs.Prelude.{◌≡◌, ◌≤◌, ℕ, List, length, Option};
ghost use Rattle.mqtt_base.specs.declared.limits.TheConstants.{PUMP_LIMIT};
ghost use Rattle.mqtt_records.specs.messages.Content.{CopyContent};
ghost use Rattle.mqtt_records.specs.messages.Filling.{Fillings};
ghost use Rattle.mqtt_records.specs.state.Records.{FitAll, changed_all};
ghost use Rattle.mqtt_records.specs.declared.state.change.Change.{Change};
ghost use Rattle.mqtt_records.specs.declared.state.records.Records.{Records};
ghost use Rattle.mqtt_records.specs.state.Slim.{all_slim};
ghost use Rattle.mqtt_keep.specs.by_name.Slimming.{slim_entered, slim_places, whole_places};
ghost use Rattle.mqtt_rules.specs.declared.step.Capacity.{Capacity};
ghost use Rattle.mqtt_rules.specs.step.Laws.{IsOrdered};
ghost use Rattle.mqtt_rules.specs.step.State.{Broker, MemberChoice};
ghost use Rattle.mqtt_rules.specs.step.Step.{Call, Pump, at_moment, deeds, stepped, told, rows_written, is_step_spent, opened, opening_deeds, unopened, is_opening_spent};
ghost use Rattle.mqtt_rules.specs.alike.Alike.{AlikeRecords, AlikeBrokers, IsPump};
ghost use Rattle.mqtt_rules.specs.alike.Slim.{slim_broker};
ghost use Rattle.mqtt_rules.specs.filling.Entered.{places_of, AreSlimBut};
ghost use Rattle.mqtt_rules.specs.filling.Filling.{AreFilledBy, filled_records, filled};
ghost use Rattle.mqtt_rules.specs.filling.Pumped.{sent_places, HasWholeTurns, HasFilledTurns, filled_at, filled_for_pump};

/// Whoever has a broker that is alike to another, and what the other's waiting copies say, has the other: it is the first
/// one with each row filled. So it is of what is stored alone, and of the broker whose rows say their topic alone. What was
/// filled says what it was filled with (3.3).
pub fn filled_is_the_whole()
    ensures broker { (fillings : Fillings) (some whole : Broker) → AlikeBrokers some whole
        → AreFilledBy fillings whole.records → filled fillings some ≡ whole }
    ensures records { (fillings : Fillings) (some whole : Records) → AlikeRecords some whole
        → AreFilledBy fillings whole → filled_records fillings some ≡ whole }
    ensures slim { (fillings : Fillings) (b : Broker) → AreFilledBy fillings b.records
        → filled fillings (slim_broker b) ≡ b }
    ensures says { (fillings : Fillings) (r : Records) → AreFilledBy fillings (filled_records fillings r) }
{}

/// To be alike is an equivalence: what is alike to the whole broker may be exchanged for what is alike to it, and rows may
/// be made slim at any time. A row that is slim stays what it is (3.3).
pub fn alike_is_an_equivalence()
    ensures itself { (b : Broker) → AlikeBrokers b b }
    ensures back { (b c : Broker) → AlikeBrokers b c → AlikeBrokers c b }
    ensures through { (b c d : Broker) → AlikeBrokers b c → AlikeBrokers c d → AlikeBrokers b d }
    ensures slim { (some whole : Broker) → AlikeBrokers some whole → AlikeBrokers (slim_broker some) whole }
    ensures again { (b : Broker) → slim_broker (slim_broker b) ≡ slim_broker b }
{}

/// A step on rows that say less is the step: filled with what is stored after it, the state that it leaves is that which
/// the step on the whole broker leaves. It writes the same rows, of which the store makes what that step stores, and is
/// refused for a spent number if and only if that one is. So it is of an opening (4.1).
pub fn steps_on_slim_rows_are_steps()
    ensures states { (limits : Capacity) (choice : MemberChoice) (now : ℕ) (call : Call) (fillings : Fillings)
        (some whole : Broker) → AlikeBrokers some whole
        → AreFilledBy fillings (stepped limits choice now call whole).records
        → filled fillings (stepped limits choice now call some) ≡ stepped limits choice now call whole }
    ensures written { (limits : Capacity) (choice : MemberChoice) (now : ℕ) (call : Call) (some whole : Broker)
        → AlikeBrokers some whole → rows_written (deeds limits choice now call some) (at_moment now some)
        ≡ rows_written (deeds limits choice now call whole) (at_moment now whole) }
    ensures stored { (limits : Capacity) (choice : MemberChoice) (now : ℕ) (call : Call) (some whole : Broker)
        → AlikeBrokers some whole
        → changed_all (rows_written (deeds limits choice now call some) (at_moment now some)) whole.records
        ≡ (stepped limits choice now call whole).records }
    ensures spent { (limits : Capacity) (choice : MemberChoice) (now : ℕ) (call : Call) (some whole : Broker)
        → AlikeBrokers some whole
        → is_step_spent limits choice now call some ≡ is_step_spent limits choice now call whole }
    ensures opened { (limits : Capacity) (choice : MemberChoice) (now : ℕ) (fillings : Fillings) (some whole : Records)
        → AlikeRecords some whole → AreFilledBy fillings (opened limits choice now whole).records
        → filled fillings (opened limits choice now some) ≡ opened limits choice now whole }
    ensures opening_written { (limits : Capacity) (choice : MemberChoice) (now : ℕ) (some whole : Records)
        → AlikeRecords some whole → rows_written (opening_deeds limits choice now some) (unopened now some)
        ≡ rows_written (opening_deeds limits choice now whole) (unopened now whole) }
    ensures opening_stored { (limits : Capacity) (choice : MemberChoice) (now : ℕ) (some whole : Records)
        → AlikeRecords some whole → changed_all (rows_written (opening_deeds limits choice now some) (unopened now some)) whole
        ≡ (opened limits choice now whole).records }
    ensures opening_spent { (limits : Capacity) (choice : MemberChoice) (now : ℕ) (some whole : Records)
        → AlikeRecords some whole
        → is_opening_spent limits choice now some ≡ is_opening_spent limits choice now whole }
{}

/// What fits rows that say less fits what is stored, one change after the other: a commit may be judged by the rows in memory
/// (4.1).
pub fn alike_records_take_the_same_rows()
    ensures fit { (rows : List Change) (some whole : Records) → AlikeRecords some whole → FitAll rows some
        → FitAll rows whole }
    ensures stay { (rows : List Change) (some whole : Records) → AlikeRecords some whole
        → AlikeRecords (changed_all rows some) (changed_all rows whole) }
{}

/// Every call but a pump tells the same of rows that say less, word for word, so that it needs nothing that the store has
/// (3, 4).
pub fn calls_but_pumps_tell_the_same()
    ensures told { (limits : Capacity) (choice : MemberChoice) (now : ℕ) (call : Call) (some whole : Broker)
        → (IsPump call → ⊥) → AlikeBrokers some whole
        → told limits choice now call some ≡ told limits choice now call whole }
{}

/// A pump tells the same if those rows are whole that it sends: if they are the rows of the whole broker, or if they say
/// what there is for their places. What other rows say it doesn't read (4.3, 4.6).
pub fn pumps_of_whole_rows_tell_the_same()
    ensures whole { (limits : Capacity) (choice : MemberChoice) (now line : ℕ) (some whole : Broker)
        → AlikeBrokers some whole → HasWholeTurns now line some whole
        → told limits choice now (Pump line) some ≡ told limits choice now (Pump line) whole }
    ensures filled { (limits : Capacity) (choice : MemberChoice) (now line : ℕ) (fillings : Fillings)
        (some whole : Broker) → AlikeBrokers some whole → AreFilledBy fillings whole.records
        → HasFilledTurns fillings now line some
        → told limits choice now (Pump line) some ≡ told limits choice now (Pump line) whole }
{}

/// A pump sends the copies of the same places from rows that say less, `PUMP_LIMIT` at most; so what it has to read is found
/// before anything is read. Rows may be filled at any places of a session, and the broker stays alike to the whole one. If
/// those are filled that it sends, it tells what the whole broker's pump tells. Made slim again they are what they were
/// (4.3, 4.6).
pub fn a_pump_reads_what_it_sends()
    ensures places { (line : ℕ) (some whole : Broker) → AlikeBrokers some whole
        → sent_places line some ≡ sent_places line whole }
    ensures few { (line : ℕ) (b : Broker) → length (sent_places line b) ≤ PUMP_LIMIT }
    ensures alike { (fillings : Fillings) (places : List ℕ) (birth : Option ℕ) (some whole : Broker)
        → AlikeBrokers some whole → AreFilledBy fillings whole.records
        → AlikeBrokers (filled_at fillings places birth some) whole }
    ensures told { (limits : Capacity) (choice : MemberChoice) (now line : ℕ) (fillings : Fillings)
        (some whole : Broker) → AlikeBrokers some whole → AreFilledBy fillings whole.records
        → told limits choice now (Pump line) (filled_for_pump fillings now line some)
        ≡ told limits choice now (Pump line) whole }
    ensures slim { (fillings : Fillings) (places : List ℕ) (birth : Option ℕ) (b : Broker)
        → AreFilledBy fillings b.records
        → slim_broker (filled_at fillings places birth (slim_broker b)) ≡ slim_broker b }
{}

/// After a step the copies that it put are made slim, and with them those that a pump filled before it. If all others said
/// nothing but their topics when it began, all do then, whichever are made slim first. A pump that fills copies of a session
/// leaves all others as they were (3.3, 4.1).
pub fn entered_copies_become_slim()
    ensures all { (changes : List Change) (birth : ℕ) (places : List ℕ) (r : Records) → AreSlimBut birth places r
        → IsOrdered (changed_all changes r)
        → slim_entered changes (slim_places birth places (changed_all changes r))
        ≡ all_slim (changed_all changes r) }
    ensures after { (changes : List Change) (birth : ℕ) (places : List ℕ) (r : Records) → AreSlimBut birth places r
        → IsOrdered (changed_all changes r)
        → slim_places birth places (slim_entered changes (changed_all changes r))
        ≡ all_slim (changed_all changes r) }
    ensures entered { (changes : List Change) (r : Records) → all_slim r ≡ r
        → IsOrdered (changed_all changes r)
        → slim_entered changes (changed_all changes r) ≡ all_slim (changed_all changes r) }
    ensures filled { (birth : ℕ) (contents : List CopyContent) (r : Records) → all_slim r ≡ r
        → AreSlimBut birth (places_of contents) (whole_places birth contents r) }
{}
