//! Laws of a receiver's hop: what it does and reads, and what follows of a run (4.3, 4.4, 4.6).
ghost use Rattle.std.specs.Prelude.{◌≡◌, ℕ, ◌≤◌, All, Bool, true, List, [], ◌∷◌, map, Some, None, slice_get, is_some};
ghost use Rattle.std.specs.List.{AllByRecursion};
ghost use Rattle.mqtt_base.specs.declared.session.CopyId.{CopyId};
ghost use Rattle.mqtt_base.specs.declared.session.Ending.TheVariants.{Taken, Expired, Dropped};
ghost use Rattle.mqtt_base.specs.declared.session.Qos.TheVariants.{AtLeastOnce, ExactlyOnce};
ghost use Rattle.mqtt_flow.specs.outbound.OutboundWorld.{Lot, TopicAndPayload, past};
ghost use Rattle.mqtt_flow.specs.outbound.Receiver.{Answer, HasNoConnect};
ghost use Rattle.mqtt_flow.specs.declared.outbound.entry.Entry.{Entry as FlowEntry};
ghost use Rattle.mqtt_world_laws.specs.receiver.Handing.{IsListening, IsOf, IsRun, MayComeBack, RunsOn};
ghost use Rattle.mqtt_world_laws.specs.receiver.Handing.{after_answer, reads_answer, receiver_joined, receiver_lost};
ghost use Rattle.mqtt_world_laws.specs.receiver.Seen.{Numbering};
ghost use Rattle.mqtt_world_laws.specs.receiver.Tags.{id_of};
ghost use Rattle.mqtt_world_model.specs.model.Ends.{Back, Entry, Receiver, Wish, answers, new_receiver, receiver_reads};
ghost use Rattle.mqtt_world_model.specs.model.Hops.{MayGiveUp};
ghost use Rattle.mqtt_world_model.specs.model.Laws.{copies_in, handed_count, read_count, released_in, stand_among};
ghost use Rattle.mqtt_world_model.specs.model.Lines.{gives_up};
ghost use Rattle.mqtt_world_model.specs.model.Seen.{is_linked};
ghost use Rattle.mqtt_world_model.specs.model.World.{asks_wish};
ghost use Rattle.mqtt_records.specs.declared.state.session.Session.{Session};
ghost use Rattle.mqtt_rules.specs.step.State.{Broker, Line, MemberChoice, session_named};
ghost use Rattle.mqtt_rules.specs.step.Step.{Lost, NewLine, stepped};
ghost use Rattle.mqtt_rules.specs.declared.step.Capacity.{Capacity};

/// What a receiver and its session see of the world is a run of their hop when the receiver comes, if no
/// session of its name stands, and stays one whatever it does or reads: it reads the first packet under way to
/// it, if its line stands exactly if its session is connected there, gives its line up, asks for a
/// subscription, or joins by a new line (4.3.2, 4.3.3, 4.4).
pub fn own_doings_of_a_receiver_are_steps_of_the_hop()
    ensures comes { (number : Numbering) (largest : ℕ) (client : List ℕ) (window aliases since : ℕ) (b : Broker)
        → session_named client b.records ≡ None
        → IsRun number largest [] (new_receiver client window aliases since) b }
    ensures reads { (number : Numbering) (largest : ℕ) (copies : List Lot) (t : Bool) (r : Receiver) (b : Broker)
        → IsRun number largest copies r b → is_linked r.line.number b ≡ t
        → IsRun number largest copies (receiver_reads t r.line.down r) b }
    ensures gives_up { (number : Numbering) (largest : ℕ) (copies : List Lot) (r : Receiver) (b : Broker)
        → IsRun number largest copies r b → MayGiveUp r.line.link r.line.clean
        → IsRun number largest copies (record r { line = gives_up r.line.link r.line }) b }
    ensures asks { (number : Numbering) (largest : ℕ) (copies : List Lot) (t : Bool) (w : Wish) (r : Receiver)
        → (b : Broker) → IsRun number largest copies r b → IsRun number largest copies (asks_wish t w r) b }
    ensures joins { (number : Numbering) (largest : ℕ) (copies : List Lot) (limits : Capacity)
        → (choice : MemberChoice) (now : ℕ) (clean : Bool) (r : Receiver) (b : Broker)
        → IsRun number largest copies r b → MayComeBack limits clean r b
        → IsRun number largest copies (receiver_joined limits choice now clean r b)
        (stepped limits choice now NewLine b) }
{}

/// If what a receiver and its session see of the world is a run of their hop, the law of the hop holds of
/// what it has read, whatever was lost: each copy of QoS 2 was handed over at most once, in the order in which
/// the copies entered, and once if its PUBREC was taken, also when it has ended; what was read is what its
/// copy carries; a copy of QoS 1 that was taken was read (4.3.2, 4.3.3, 4.6).
pub fn a_run_of_the_hop_hands_over_once()
    ensures once { (number : Numbering) (largest : ℕ) (copies : List Lot) (r : Receiver) (b : Broker)
        → IsRun number largest copies r b → (copy : CopyId) → handed_count copy r ≤ 1 }
    ensures tagged { (number : Numbering) (largest : ℕ) (copies : List Lot) (r : Receiver) (b : Broker)
        → IsRun number largest copies r b → All (λ (e : Entry). is_some e.copy ≡ true) r.ledger }
    ensures in_order { (number : Numbering) (largest : ℕ) (copies : List Lot) (r : Receiver) (b : Broker)
        → IsRun number largest copies r b → stand_among (copies_in r.ledger) (map id_of copies) ≡ true }
    ensures released { (number : Numbering) (largest : ℕ) (copies : List Lot) (r : Receiver) (b : Broker)
        → IsRun number largest copies r b
        → All (λ (copy : CopyId). handed_count copy r ≡ 1)
        (released_in (session_named r.client b.records)) }
    ensures taken { (number : Numbering) (largest : ℕ) (copies : List Lot) (r : Receiver) (b : Broker)
        → IsRun number largest copies r b → (n : ℕ) (e : FlowEntry) (m : TopicAndPayload)
        → slice_get copies n ≡ Some (past Taken e m) → e.copy.qos ≡ ExactlyOnce
        → handed_count e.copy.id r ≡ 1 }
    ensures read { (number : Numbering) (largest : ℕ) (copies : List Lot) (r : Receiver) (b : Broker)
        → IsRun number largest copies r b → (n : ℕ) (e : FlowEntry) (m : TopicAndPayload)
        → slice_get copies n ≡ Some (past Taken e m) → e.copy.qos ≡ AtLeastOnce
        → 1 ≤ read_count e.copy.id r }
    ensures expired { (number : Numbering) (largest : ℕ) (copies : List Lot) (r : Receiver) (b : Broker)
        → IsRun number largest copies r b → (n : ℕ) (e : FlowEntry) (m : TopicAndPayload)
        → slice_get copies n ≡ Some (past Expired e m) → handed_count e.copy.id r ≡ 0 }
    ensures dropped { (number : Numbering) (largest : ℕ) (copies : List Lot) (r : Receiver) (b : Broker)
        → IsRun number largest copies r b → (n : ℕ) (e : FlowEntry) (m : TopicAndPayload)
        → slice_get copies n ≡ Some (past Dropped e m) → handed_count e.copy.id r ≡ 0 }
    ensures carried { (number : Numbering) (largest : ℕ) (copies : List Lot) (r : Receiver) (b : Broker)
        → IsRun number largest copies r b
        → AllByRecursion (IsOf number copies) r.ledger × AllByRecursion (IsOf number copies) r.once }
{}

/// The broker reads an answer of a receiver whose session is connected on its line, which is PUBACK, PUBREC or PUBCOMP:
/// what the receiver and its session see of the world stays a run of their hop, with the same copies, whether
/// the answer ends a copy, releases it, is passed over, or breaks the protocol (4.3.2, 4.3.3, 4.13).
pub fn answers_of_a_receiver_are_steps_of_the_hop()
    ensures answers { (number : Numbering) (largest : ℕ) (copies : List Lot) (limits : Capacity) (choice : MemberChoice)
        → (now : ℕ) (a : Answer) (rest : List Back) (r : Receiver) (l : Line) (s : Session) (b : Broker)
        → HasNoConnect (a ∷ []) → IsRun number largest copies r b → IsListening r l s b
        → r.line.up ≡ answers a ∷ rest
        → RunsOn number largest copies (reads_answer limits choice now l.number a r b)
        (after_answer limits choice now l.number a r b) }
{}

/// The line that a receiver's session is connected on is lost, and the receiver leaves it: what the two see
/// of the world stays a run of their hop (4.4).
pub fn a_lost_line_is_a_step_of_the_hop()
    ensures loses { (number : Numbering) (largest : ℕ) (copies : List Lot) (limits : Capacity)
        → (choice : MemberChoice) (now : ℕ) (r : Receiver) (l : Line) (s : Session) (b : Broker)
        → IsRun number largest copies r b → IsListening r l s b
        → IsRun number largest copies (receiver_lost limits choice now l.number r b)
        (stepped limits choice now (Lost l.number) b) }
{}
