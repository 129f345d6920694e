//! Laws of brokers that are alike but for what their waiting copies say (3.3, 4.6).
ghost use Rattle.std.specs.Prelude.{◌≡◌, ℕ, List};
ghost use Rattle.mqtt_records.specs.messages.Queue.{CopyRow};
ghost use Rattle.mqtt_records.specs.messages.Slim.{slim};
ghost use Rattle.mqtt_records.specs.declared.state.records.Records.{Records};
ghost use Rattle.mqtt_records.specs.declared.state.session.Session.{Session};
ghost use Rattle.mqtt_rules.specs.declared.step.Capacity.{Capacity};
ghost use Rattle.mqtt_rules.specs.step.State.{Line, Broker, MemberChoice};
ghost use Rattle.mqtt_rules.specs.step.Fitting.{pump_turns};
ghost use Rattle.mqtt_rules.specs.step.Inbound.{pump_deeds};
ghost use Rattle.mqtt_rules.specs.step.Laws.{Event, after_events};
ghost use Rattle.mqtt_rules.specs.step.Outbound.{all_turn_deeds};
ghost use Rattle.mqtt_rules.specs.step.Step.{Call, at_moment, deeds, stepped, told, rows_written, is_step_spent, opened};
ghost use Rattle.mqtt_rules.specs.alike.Alike.{Each, AlikeRows, AlikeSessions, AlikeRecords, AlikeBrokers, AlikeDeeds, IsPump, AlikeOutcomes};
ghost use Rattle.mqtt_rules.specs.alike.Slim.{slim_broker};

/// Brokers that are alike but for what their waiting copies say do alike: by each call they come to brokers that are alike
/// again, with alike deeds, the same reports and closed lines, and the same packets in the same forms, but that each one's
/// pump says what its own copies say; they write the same rows, and refuse the same calls for a spent number. So they do if
/// what they stored is opened again, and in every run of calls and openings. Their clients are told the same of topics (3.3,
/// 4.6).
pub fn alike_steps()
    ensures states { (limits : Capacity) (choice : MemberChoice) (now : ℕ) (call : Call) (b c : Broker) → AlikeBrokers b c
        → AlikeBrokers (stepped limits choice now call b) (stepped limits choice now call c) }
    ensures deeds { (limits : Capacity) (choice : MemberChoice) (now : ℕ) (call : Call) (b c : Broker) → AlikeBrokers b c
        → Each (AlikeDeeds (IsPump call)) (deeds limits choice now call b) (deeds limits choice now call c) }
    ensures told { (limits : Capacity) (choice : MemberChoice) (now : ℕ) (call : Call) (b c : Broker) → AlikeBrokers b c
        → AlikeOutcomes (IsPump call) (told limits choice now call b) (told limits choice now call c) }
    ensures written { (limits : Capacity) (choice : MemberChoice) (now : ℕ) (call : Call) (b c : Broker) → AlikeBrokers b c
        → rows_written (deeds limits choice now call b) (at_moment now b)
        ≡ rows_written (deeds limits choice now call c) (at_moment now c) }
    ensures spent { (limits : Capacity) (choice : MemberChoice) (now : ℕ) (call : Call) (b c : Broker) → AlikeBrokers b c
        → is_step_spent limits choice now call b ≡ is_step_spent limits choice now call c }
    ensures opened { (limits : Capacity) (choice : MemberChoice) (now : ℕ) (r o : Records) → AlikeRecords r o
        → AlikeBrokers (opened limits choice now r) (opened limits choice now o) }
    ensures run { (events : List Event) (b c : Broker) → AlikeBrokers b c
        → AlikeBrokers (after_events events b) (after_events events c) }
{}

/// A pump of alike sessions has the same turns on alike brokers, since each copy has the same forms there. So it sends the
/// same copies, each with the content that its own queue has for it (4.3, 4.6).
pub fn alike_pumps()
    ensures turns { (l : Line) (b c : Broker) (s t : Session) → AlikeBrokers b c → AlikeSessions s t
        → pump_turns l b s ≡ pump_turns l c t }
    ensures sends { (l : Line) (b c : Broker) (s t : Session) → AlikeBrokers b c → AlikeSessions s t
        → pump_deeds l c t ≡ all_turn_deeds b.now l.number t (pump_turns l b s) }
{}

/// Each row has a slim one that is alike to it: its topic, no Subscription Identifiers, of its properties Message Expiry
/// Interval alone, a filler of the bytes that the others have, and as many zeros as its payload has bytes. So each broker
/// has one that is alike to it and whose copies say nothing but their topic (3.3).
pub fn slim_rows_are_alike()
    ensures row { (e : CopyRow) → AlikeRows e (slim e) }
    ensures broker { (b : Broker) → AlikeBrokers b (slim_broker b) }
{}
