//! Laws of the world: what a publisher sees of a step of the broker is what its hop does (4.3, 4.4).
ghost use Rattle.std.specs.Prelude.{◌≡◌, ℕ, ◌≤◌, [], ◌∷◌, Bool, List, Some, None, true, false, suc, length, nat_eq};
ghost use Rattle.std.specs.Prelude.{nat_lt, slice_get, count_by};
ghost use Rattle.std.specs.List.{AllByRecursion, starts_with};
ghost use Rattle.mqtt_flow.specs.inbound.Publisher.{Qos, IsExactlyOnce, completed, refused, ended, ended_1, CONNECT};
ghost use Rattle.mqtt_flow.specs.inbound.Publisher.{PUBLISH_1, PUBLISH_2, PUBREL};
ghost use Rattle.mqtt_flow.specs.inbound.InboundWorld.{Event as HopEvent, takes, to_broker, old_to_broker, publish, give_up};
ghost use Rattle.mqtt_flow.specs.inbound.InboundWorld.{break, connect, restart, step, run};
ghost use Rattle.mqtt_records.specs.declared.state.session.Session.{Session};
ghost use Rattle.mqtt_rules.specs.declared.step.Capacity.{Capacity};
ghost use Rattle.mqtt_rules.specs.step.State.{Line, Broker, MemberChoice, session_at, session_named};
ghost use Rattle.mqtt_rules.specs.step.Step.{Call, NewLine, Input, Lost, opened, stepped, told};
ghost use Rattle.mqtt_world_model.specs.model.Lines.{gives_up};
ghost use Rattle.mqtt_world_model.specs.model.Ends.{Content, Draft, Sent, shake, plain, Publisher, wire, published, publisher_reads};
ghost use Rattle.mqtt_world_model.specs.model.World.{publisher_restarted, publisher_told};
ghost use Rattle.mqtt_world_model.specs.model.Seen.{qos_of_draft, is_linked, seen};
ghost use Rattle.mqtt_world_model.specs.model.Hops.{IsConnected, IsAsking, IsInOrder, Own, IsFarCall, IsRun};
ghost use Rattle.mqtt_world_model.specs.model.Hops.{IsKept, IsOurs, connect_packet, IsFirst, MayBegin, joined_by, MayJoin};
ghost use Rattle.mqtt_world_model.specs.model.Hops.{IsNoConnect, IsUnheard, MayGiveUp, after_step, wire_1, wire_2, hello_packet};
ghost use Rattle.mqtt_world_model.specs.model.Hops.{lost_by, Becomes};
ghost use Rattle.mqtt_world_model.specs.model.Hops.{IsLingering, IsLate, after_old_step, BecomesOld, IsUnheardOld};
ghost use Rattle.mqtt_records.specs.state.Session.{auto};

/// The broker reads the first packet of a publisher's line. Whatever the limits, the routing, the queues
/// and all other sessions and lines, what the publisher sees of it is one event of its hop (4.3.3, 4.4).
pub fn own_packets_are_steps_of_the_hop()
    // PUBLISH of QoS 2: new and accepted, or refused; again; above the Receive Maximum; without a topic.
    ensures publish { (limits : Capacity) (choice : MemberChoice) (now : ℕ) (p : Publisher) (rest : List Sent)
        → (id k : ℕ) (dup : Bool) (l : Line) (s : Session) (b : Broker) (accepted : List ℕ)
        → p.line.up ≡ shake (PUBLISH_2 id k dup) ∷ rest → IsConnected p l s b
        → (e : HopEvent) × Becomes limits choice now (Input l.number (wire_2 p id k dup)) k p b accepted e }
    ensures release { (limits : Capacity) (choice : MemberChoice) (now : ℕ) (p : Publisher) (rest : List Sent)
        → (id k : ℕ) (l : Line) (s : Session) (b : Broker) (accepted : List ℕ)
        → p.line.up ≡ shake (PUBREL id) ∷ rest → IsConnected p l s b
        → Becomes limits choice now (Input l.number (wire p.client p.contents (shake (PUBREL id)))) k p b accepted
        (to_broker takes) }

    // PUBLISH of QoS 1, with the same outcomes; one of QoS 0 is no event, unless its topic closes the line.
    ensures publish_once { (limits : Capacity) (choice : MemberChoice) (now : ℕ) (p : Publisher) (rest : List Sent)
        → (id k : ℕ) (dup : Bool) (l : Line) (s : Session) (b : Broker) (accepted : List ℕ)
        → p.line.up ≡ shake (PUBLISH_1 id k dup) ∷ rest → IsConnected p l s b
        → (e : HopEvent) × Becomes limits choice now (Input l.number (wire_1 p id k dup)) k p b accepted e }
    ensures publish_plain { (limits : Capacity) (choice : MemberChoice) (now : ℕ) (p : Publisher) (rest : List Sent)
        → (content : Content) (l : Line) (s : Session) (b : Broker) (accepted : List ℕ)
        → p.line.up ≡ plain content ∷ rest → IsConnected p l s b
        → IsUnheard limits choice now (Input l.number (wire p.client p.contents (plain content))) p b accepted }

    // After each of these the session and the line are still its own.
    ensures stays { (limits : Capacity) (choice : MemberChoice) (now : ℕ) (p : Publisher) (packet : Sent)
        → (l : Line) (s : Session) (b : Broker)
        → IsNoConnect packet → IsConnected p l s b → Own p.client s.birth l.number b
        → Own p.client s.birth l.number
        (stepped limits choice now (Input l.number (wire p.client p.contents packet)) b) }

    // CONNECT without Clean Start while its session stands, which may be connected on the line given up.
    ensures connect { (limits : Capacity) (choice : MemberChoice) (now : ℕ) (p : Publisher) (rest : List Sent)
        → (l : Line) (s : Session) (b : Broker) (accepted : List ℕ)
        → p.line.up ≡ shake (CONNECT false) ∷ rest → IsAsking p l s b
        → seen accepted (after_step limits choice now (Input l.number (hello_packet p)) p b)
        (stepped limits choice now (Input l.number (hello_packet p)) b)
        ≡ step (seen accepted p b) (to_broker takes) }

    // CONNECT with Clean Start while its session stands: it ends, with all that it has, and a new one begins.
    ensures anew { (limits : Capacity) (choice : MemberChoice) (now : ℕ) (p : Publisher) (rest : List Sent)
        → (l : Line) (s : Session) (b : Broker) (accepted : List ℕ)
        → p.line.up ≡ shake (CONNECT true) ∷ rest → IsAsking p l s b → MayBegin limits p.client b
        → seen accepted (after_step limits choice now (Input l.number (connect_packet true p)) p b)
        (stepped limits choice now (Input l.number (connect_packet true p)) b)
        ≡ step (seen accepted p b) (to_broker takes) }

    // CONNECT, with or without Clean Start, if no session of its name stands: one begins, or the table is full.
    ensures first { (limits : Capacity) (choice : MemberChoice) (now : ℕ) (clean : Bool) (p : Publisher)
        → (l : Line) (b : Broker) (accepted : List ℕ)
        → p.line.up ≡ shake (CONNECT clean) ∷ [] → IsFirst limits p l b
        → (e : HopEvent)
        × (seen accepted (after_step limits choice now (Input l.number (connect_packet clean p)) p b)
        (stepped limits choice now (Input l.number (connect_packet clean p)) b)
        ≡ step (seen accepted p b) e) }

    // The line is lost on both sides.
    ensures lost { (limits : Capacity) (choice : MemberChoice) (now : ℕ) (p : Publisher) (l : Line) (s : Session)
        → (b : Broker) (accepted : List ℕ) → IsConnected p l s b
        → seen accepted (lost_by limits choice now l.number p b)
        (stepped limits choice now (Lost l.number) b)
        ≡ step (seen accepted p b) break }
{}

/// The broker reads what a publisher left on the line that it gave up, if its session is connected still,
/// or a late CONNECT: what the publisher sees of it is that event of its hop, and no answer (3.1.4, 4.3, 4.4).
pub fn packets_of_the_line_given_up_are_steps_of_the_hop()
    ensures publish { (limits : Capacity) (choice : MemberChoice) (now : ℕ) (p : Publisher) (rest : List Sent)
        → (id k : ℕ) (dup : Bool) (l : Line) (s : Session) (b : Broker) (accepted : List ℕ)
        → p.line.old ≡ shake (PUBLISH_2 id k dup) ∷ rest → IsLingering p l s b
        → (e : HopEvent) × BecomesOld limits choice now (Input l.number (wire_2 p id k dup)) k p b accepted e }
    ensures release { (limits : Capacity) (choice : MemberChoice) (now : ℕ) (p : Publisher) (rest : List Sent)
        → (id k : ℕ) (l : Line) (s : Session) (b : Broker) (accepted : List ℕ)
        → p.line.old ≡ shake (PUBREL id) ∷ rest → IsLingering p l s b
        → BecomesOld limits choice now (Input l.number (wire p.client p.contents (shake (PUBREL id)))) k p b accepted
        (old_to_broker takes) }
    ensures publish_once { (limits : Capacity) (choice : MemberChoice) (now : ℕ) (p : Publisher) (rest : List Sent)
        → (id k : ℕ) (dup : Bool) (l : Line) (s : Session) (b : Broker) (accepted : List ℕ)
        → p.line.old ≡ shake (PUBLISH_1 id k dup) ∷ rest → IsLingering p l s b
        → (e : HopEvent) × BecomesOld limits choice now (Input l.number (wire_1 p id k dup)) k p b accepted e }
    ensures publish_plain { (limits : Capacity) (choice : MemberChoice) (now : ℕ) (p : Publisher) (rest : List Sent)
        → (content : Content) (l : Line) (s : Session) (b : Broker) (accepted : List ℕ)
        → p.line.old ≡ plain content ∷ rest → IsLingering p l s b
        → IsUnheardOld limits choice now (Input l.number (wire p.client p.contents (plain content))) p b accepted }

    // A late CONNECT without Clean Start takes its session over, from its own line if it is connected there.
    ensures connect { (limits : Capacity) (choice : MemberChoice) (now : ℕ) (p : Publisher) (rest : List Sent)
        → (l : Line) (s : Session) (b : Broker) (accepted : List ℕ)
        → p.line.old ≡ shake (CONNECT false) ∷ rest → IsLate p l s b
        → seen accepted (after_old_step limits choice now (Input l.number (hello_packet p)) p b)
        (stepped limits choice now (Input l.number (hello_packet p)) b)
        ≡ step (seen accepted p b) (old_to_broker takes) }
{}

/// After a publisher's CONNECT the session and its line are its own, and after the loss of its line the
/// session is, if sessions and lines are in order, which they are after each step (3.1.2.4, 3.1.4).
pub fn a_connected_session_is_its_own()
    ensures resumed { (limits : Capacity) (choice : MemberChoice) (now : ℕ) (p : Publisher) (l : Line) (s : Session)
        → (b : Broker) → IsAsking p l s b → l.keep_alive ≡ 0 → IsInOrder b
        → IsInOrder (stepped limits choice now (Input l.number (hello_packet p)) b)
        → Own p.client s.birth l.number (stepped limits choice now (Input l.number (hello_packet p)) b) }
    ensures anew { (limits : Capacity) (choice : MemberChoice) (now : ℕ) (p : Publisher) (l : Line) (s : Session)
        → (b : Broker) → IsAsking p l s b → MayBegin limits p.client b → l.keep_alive ≡ 0 → IsInOrder b
        → IsInOrder (stepped limits choice now (Input l.number (connect_packet true p)) b)
        → (birth : ℕ)
        × Own p.client birth l.number (stepped limits choice now (Input l.number (connect_packet true p)) b) }
    ensures first { (limits : Capacity) (choice : MemberChoice) (now : ℕ) (clean : Bool) (p : Publisher) (l : Line)
        → (b : Broker) → IsFirst limits p l b → nat_lt (length b.records.sessions) limits.sessions ≡ true
        → l.keep_alive ≡ 0 → IsInOrder b
        → IsInOrder (stepped limits choice now (Input l.number (connect_packet clean p)) b)
        → Own p.client (suc b.records.births) l.number
        (stepped limits choice now (Input l.number (connect_packet clean p)) b) }
    ensures lost { (limits : Capacity) (choice : MemberChoice) (now : ℕ) (p : Publisher) (l : Line) (s : Session)
        → (b : Broker) → IsConnected p l s b → Own p.client s.birth l.number b
        → Own p.client s.birth l.number (stepped limits choice now (Lost l.number) b) }
{}

/// The broker restarts while the publisher's session stands, connected or not, or while it has none: whatever
/// Wills are due and sessions end, the publisher sees that one event of its hop (4.1).
pub fn a_restart_is_a_step_of_the_hop()
    ensures restarts { (limits : Capacity) (choice : MemberChoice) (now : ℕ) (p : Publisher) (s : Session) (b : Broker)
        → (accepted : List ℕ) → IsKept p.client s b
        → AllByRecursion (IsOurs p.client s.birth) b.records.sessions → s.birth ≤ b.records.births
        → seen accepted (publisher_restarted p) (opened limits choice now b.records)
        ≡ step (seen accepted p b) restart }
    ensures own { (limits : Capacity) (choice : MemberChoice) (now : ℕ) (client : List ℕ) (s : Session) (b : Broker)
        → IsKept client s b
        → AllByRecursion (IsOurs client s.birth) b.records.sessions → s.birth ≤ b.records.births
        → Own client s.birth 0 (opened limits choice now b.records) }
    ensures without { (limits : Capacity) (choice : MemberChoice) (now : ℕ) (p : Publisher) (b : Broker)
        → (accepted : List ℕ) → session_named p.client b.records ≡ None
        → seen accepted (publisher_restarted p) (opened limits choice now b.records)
        ≡ step (seen accepted p b) restart }
{}

/// A packet, a fault or a loss on another line, that is no CONNECT of this client, a new line, any pump and
/// any tick: the publisher whose session is connected sees nothing of it, but that the line which it gave
/// up may be closed; and the session and the line stay its own (3.1.4, 4.1).
pub fn steps_of_others_are_unseen()
    ensures unseen { (limits : Capacity) (choice : MemberChoice) (now : ℕ) (call : Call) (p : Publisher) (l : Line)
        → (s : Session) (b : Broker) (accepted : List ℕ)
        → IsConnected p l s b → Own p.client s.birth l.number b
        → starts_with nat_eq p.client auto ≡ false → IsFarCall p.client l.number call
        → (es : List HopEvent)
        × (seen accepted (publisher_told (stepped limits choice now call b) (told limits choice now call b) p)
        (stepped limits choice now call b) ≡ run es (seen accepted p b)) }

    // The same while it has no line, and its session is connected on the line that it gave up, or nowhere.
    ensures unseen_away { (limits : Capacity) (choice : MemberChoice) (now : ℕ) (call : Call) (p : Publisher) (n : ℕ)
        → (s : Session) (b : Broker) (accepted : List ℕ)
        → p.line.number ≡ None → IsKept p.client s b → Own p.client s.birth n b → IsFarCall p.client n call
        → (es : List HopEvent)
        × (seen accepted (publisher_told (stepped limits choice now call b) (told limits choice now call b) p)
        (stepped limits choice now call b) ≡ run es (seen accepted p b)) }

    // And while it has neither: the birth is one that no session has, and none has it after the call.
    ensures unseen_without { (limits : Capacity) (choice : MemberChoice) (now : ℕ) (call : Call) (p : Publisher)
        → (birth n : ℕ) (b : Broker) (accepted : List ℕ)
        → p.line.number ≡ None → session_at birth b.records ≡ None → Own p.client birth n b
        → starts_with nat_eq p.client auto ≡ false → IsFarCall p.client n call
        → (session_at birth (stepped limits choice now call b).records ≡ None)
        × ((es : List HopEvent)
        × (seen accepted (publisher_told (stepped limits choice now call b) (told limits choice now call b) p)
        (stepped limits choice now call b) ≡ run es (seen accepted p b))) }
    ensures own { (limits : Capacity) (choice : MemberChoice) (now : ℕ) (call : Call) (client : List ℕ) (birth n : ℕ)
        → (b : Broker) → Own client birth n b
        → starts_with nat_eq client auto ≡ false → IsFarCall client n call
        → Own client birth n (stepped limits choice now call b) }
{}

/// If what a publisher sees of the world is a run of its hop, the law of the hop holds of its messages:
/// each of QoS 2 was accepted at most once, once if it is completed, not at all if it was refused or has
/// not gone out; one of QoS 1 that was acknowledged at least once (4.3.2, 4.3.3).
pub fn a_run_of_the_hop_accepts_once()
    ensures once { (accepted : List ℕ) (p : Publisher) (b : Broker) → IsRun accepted p b → (n : ℕ)
        → IsExactlyOnce (slice_get p.fates n) → count_by (nat_eq n) accepted ≤ 1 }
    ensures unsent { (accepted : List ℕ) (p : Publisher) (b : Broker) → IsRun accepted p b → (n : ℕ)
        → slice_get p.fates n ≡ None → count_by (nat_eq n) accepted ≡ 0 }
    ensures completed { (accepted : List ℕ) (p : Publisher) (b : Broker) → IsRun accepted p b → (n : ℕ)
        → slice_get p.fates n ≡ Some (ended completed) → count_by (nat_eq n) accepted ≡ 1 }
    ensures refused { (accepted : List ℕ) (p : Publisher) (b : Broker) → IsRun accepted p b → (n : ℕ)
        → slice_get p.fates n ≡ Some (ended refused) → count_by (nat_eq n) accepted ≡ 0 }
    ensures acknowledged { (accepted : List ℕ) (p : Publisher) (b : Broker) → IsRun accepted p b → (n : ℕ)
        → slice_get p.fates n ≡ Some (ended_1 completed) → 1 ≤ count_by (nat_eq n) accepted }
{}

/// What a publisher does and reads is what the publisher of its hop does and reads, if its line stands
/// exactly if its session is connected there; a packet that it passes over is no event (4.3, 4.4, 4.9).
pub fn own_doings_are_steps_of_the_hop()
    ensures publish { (accepted : List ℕ) (b : Broker) (t : Bool) (d : Draft) (q : Qos) (p : Publisher)
        → qos_of_draft d ≡ Some q → is_linked p.line.number b ≡ t
        → seen accepted (published t d p) b ≡ step (seen accepted p b) (publish q) }
    ensures gives_up { (accepted : List ℕ) (b : Broker) (p : Publisher)
        → MayGiveUp p.line.link p.line.clean
        → seen accepted (record p { line = gives_up p.line.link p.line }) b
        ≡ step (seen accepted p b) give_up }
    ensures joins { (limits : Capacity) (choice : MemberChoice) (now : ℕ) (clean : Bool) (p : Publisher) (b : Broker)
        → (accepted : List ℕ) → MayJoin limits clean p b
        → seen accepted (joined_by limits choice now clean p b) (stepped limits choice now NewLine b)
        ≡ step (seen accepted p b) (connect clean) }
    ensures reads { (accepted : List ℕ) (b : Broker) (t : Bool) (p : Publisher) → is_linked p.line.number b ≡ t
        → (es : List HopEvent) × (seen accepted (publisher_reads t p.line.down p) b ≡ run es (seen accepted p b)) }
{}
