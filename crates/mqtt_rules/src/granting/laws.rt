//! Laws of the topics of what goes out (3.1.2.11.5, 3.3.2.1, 3.3.2.3.4).
ghost use Rattle.std.specs.List.{AllByRecursion};
ghost use Rattle.std.specs.Prelude.{ℕ};
ghost use Rattle.mqtt_topic.specs.names.Aliases.{AliasTable};
ghost use Rattle.mqtt_records.specs.declared.state.records.Records.{Records};
ghost use Rattle.mqtt_records.specs.state.Records.{nothing};
ghost use Rattle.mqtt_rules.specs.declared.step.Capacity.{Capacity as TheCapacity};
ghost use Rattle.mqtt_rules.specs.step.Contents.{HasLawfulContents};
ghost use Rattle.mqtt_rules.specs.step.State.{Broker, MemberChoice, told_on};
ghost use Rattle.mqtt_rules.specs.step.Step.{Call, deeds, opened, opening_deeds, stepped, told};
ghost use Rattle.mqtt_rules.specs.telling.Meaning.{AllMean, GrantsNone, GrantsWithin, Knows, SendsItsTopic, after_reading_all, on_line};
ghost use Rattle.mqtt_rules.specs.granting.Granting.{TakesWithin};
ghost use Rattle.mqtt_rules.specs.granting.Naming.{NamesTopics, SendsUsersLast, StoresNamed};
ghost use Rattle.mqtt_records.specs.state.PassedOn.{StoresPassedOn};

/// If all that a broker holds names its topics, so does each PUBLISH that a step sends, it has no Topic
/// Alias, and its User Properties come last. All that the broker holds names its topics after the step too, whatever is asked of it, and after an
/// opening on what is so stored. Lawful contents are such, if properties are those that publications pass on, as
/// their type has it in code (3.3.2.1, 3.3.2.3.4).
pub fn each_publish_names_its_topic()
    ensures topics { (limits : TheCapacity) (choice : MemberChoice) (now : ℕ) (call : Call) (b : Broker)
        → NamesTopics b → AllByRecursion SendsItsTopic (deeds limits choice now call b) }
    ensures users { (limits : TheCapacity) (choice : MemberChoice) (now : ℕ) (call : Call) (b : Broker)
        → NamesTopics b → AllByRecursion SendsUsersLast (deeds limits choice now call b) }
    ensures step { (limits : TheCapacity) (choice : MemberChoice) (now : ℕ) (call : Call) (b : Broker)
        → NamesTopics b → NamesTopics (stepped limits choice now call b) }
    ensures opening { (limits : TheCapacity) (choice : MemberChoice) (now : ℕ) (r : Records)
        → StoresNamed r → NamesTopics (opened limits choice now r) }
    ensures nothing { StoresNamed nothing }
    ensures lawful { (r : Records) → HasLawfulContents r → StoresPassedOn r → StoresNamed r }
{}

/// A client is granted no more aliases than it takes by its CONNECT, whatever is granted on other lines: a call
/// grants some to nobody but the client whose CONNECT it brings, on its line. One that takes none is granted none;
/// and an opening grants none to anybody (3.1.2.11.5).
pub fn each_client_is_granted_what_it_takes()
    ensures within { (limits : TheCapacity) (choice : MemberChoice) (now n most : ℕ) (call : Call) (b : Broker)
        → NamesTopics b → TakesWithin n most call → GrantsWithin n most (deeds limits choice now call b) }
    ensures none { (limits : TheCapacity) (choice : MemberChoice) (now n : ℕ) (call : Call) (b : Broker)
        → TakesWithin n 0 call → GrantsNone n (deeds limits choice now call b) }
    ensures opening { (limits : TheCapacity) (choice : MemberChoice) (now n : ℕ) (r : Records)
        → GrantsNone n (opening_deeds limits choice now r) }
{}

/// So whatever a step puts out on a line, in whichever forms: to a client that knows what it was told before, and
/// takes as many aliases as its CONNECT says, each packet means the one that was meant, once it has read those before
/// it; and then it knows what it was told by them (3.1.2.11.5, 3.3.2.3.4).
pub fn each_step_means_what_was_meant()
    ensures means { (limits : TheCapacity) (choice : MemberChoice) (now n : ℕ) (table : AliasTable)
        (call : Call) (b : Broker) → Knows table (told_on n b.tellings) → NamesTopics b
        → TakesWithin n table.max call
        → AllMean table (on_line n (told limits choice now call b).wires)
        (on_line n (told limits choice now call b).outputs) }
    ensures knows { (limits : TheCapacity) (choice : MemberChoice) (now n : ℕ) (table : AliasTable)
        (call : Call) (b : Broker) → Knows table (told_on n b.tellings) → NamesTopics b
        → TakesWithin n table.max call
        → Knows (after_reading_all table (on_line n (told limits choice now call b).wires))
        (told_on n (stepped limits choice now call b).tellings) }
{}
