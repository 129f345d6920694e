//! Laws of the world: wherever a publisher is, each call of the broker and each doing of its own is some events
//! of its hop, after which it is somewhere again (4.3, 4.4).
ghost use Rattle.std.specs.Prelude.{◌≡◌, ℕ, ◌∷◌, ◌++◌, Bool, List, Option, None, Some};
ghost use Rattle.mqtt_records.specs.declared.state.records.Records.{Records};
ghost use Rattle.mqtt_rules.specs.declared.step.Capacity.{Capacity};
ghost use Rattle.mqtt_rules.specs.step.State.{Broker, MemberChoice, session_named, stored};
ghost use Rattle.mqtt_rules.specs.step.Step.{Call, NewLine, Input, Lost, deeds, opened, stepped, told};
ghost use Rattle.mqtt_world_model.specs.model.Lines.{gives_up, stands};
ghost use Rattle.mqtt_world_model.specs.model.Ends.{Draft, Sent, Publisher, message_in, published, publisher_reads, wire};
ghost use Rattle.mqtt_world_model.specs.model.World.{publisher_restarted, publisher_told};
ghost use Rattle.mqtt_world_model.specs.model.Run.{each_of};
ghost use Rattle.mqtt_world_model.specs.model.Hops.{IsFarCall, IsInOrder, IsRun, MayGiveUp, MayJoin, after_old_step, after_step};
ghost use Rattle.mqtt_world_model.specs.model.Hops.{joined_by, lost_by};
ghost use Rattle.mqtt_world_model.specs.model.Seats.{Comes, Does, HasPlace, IsApart, IsHis, IsNamed, IsOff, IsSettled, IsSound, Seat};

/// Wherever a publisher is, whether its session stands, and whether its line waits for CONNECT, is connected or
/// was closed, and so the line that it gave up last: each call of the broker is some events of its hop, with
/// the messages that it accepts, and the publisher is somewhere again (3.1.2.4, 3.1.4, 4.1, 4.3).
pub fn every_call_is_some_steps_of_the_hop()
    // A call on none of its lines, and no CONNECT of its client, but any pump.
    ensures others { (limits : Capacity) (choice : MemberChoice) (now : ℕ) (call : Call) (o : Option ℕ) (k : ℕ)
        → (p : Publisher) (b : Broker) (accepted : List ℕ)
        → Seat o k p b → IsNamed p.client → IsFarCall p.client k call
        → IsOff p.line.number call → IsOff p.line.old_number call
        → Comes k p (publisher_told (stepped limits choice now call b) (told limits choice now call b) p) b
        (stepped limits choice now call b) accepted accepted }

    // The first packet of its line, also the CONNECT that the line waits for, and of the line that it gave up.
    ensures reads { (limits : Capacity) (choice : MemberChoice) (now n : ℕ) (o : Option ℕ) (k : ℕ) (packet : Sent)
        → (rest : List Sent) (p : Publisher) (b : Broker) (accepted : List ℕ)
        → Seat o k p b → IsNamed p.client → IsSound limits p.client b
        → IsInOrder (stepped limits choice now (Input n (wire p.client p.contents packet)) b)
        → IsApart p.line.number p.line.old_number → IsRun accepted p b
        → p.line.number ≡ Some n → p.line.up ≡ packet ∷ rest
        → Comes k p (after_step limits choice now (Input n (wire p.client p.contents packet)) p b) b
        (stepped limits choice now (Input n (wire p.client p.contents packet)) b) accepted
        (accepted
        ++ each_of (message_in packet) (deeds limits choice now (Input n (wire p.client p.contents packet)) b)) }
    ensures reads_old { (limits : Capacity) (choice : MemberChoice) (now n : ℕ) (o : Option ℕ) (k : ℕ) (packet : Sent)
        → (rest : List Sent) (p : Publisher) (b : Broker) (accepted : List ℕ)
        → Seat o k p b → IsNamed p.client → IsSound limits p.client b
        → IsInOrder (stepped limits choice now (Input n (wire p.client p.contents packet)) b)
        → IsApart p.line.number p.line.old_number
        → p.line.old_number ≡ Some n → p.line.old ≡ packet ∷ rest
        → Comes k p (after_old_step limits choice now (Input n (wire p.client p.contents packet)) p b) b
        (stepped limits choice now (Input n (wire p.client p.contents packet)) b) accepted
        (accepted
        ++ each_of (message_in packet) (deeds limits choice now (Input n (wire p.client p.contents packet)) b)) }

    // The loss of its line, and a restart of the broker.
    ensures loses { (limits : Capacity) (choice : MemberChoice) (now n : ℕ) (o : Option ℕ) (k : ℕ) (p : Publisher)
        → (b : Broker) (accepted : List ℕ)
        → Seat o k p b → IsNamed p.client → IsApart p.line.number p.line.old_number → p.line.number ≡ Some n
        → Comes k p (lost_by limits choice now n p b) b (stepped limits choice now (Lost n) b) accepted accepted }
    ensures restarts { (limits : Capacity) (choice : MemberChoice) (now : ℕ) (o : Option ℕ) (k : ℕ) (p : Publisher)
        → (b : Broker) (accepted : List ℕ) → IsHis p.client o k b → IsNamed p.client
        → Comes 0 p (publisher_restarted p) b (opened limits choice now b.records) accepted accepted }
{}

/// And so is each of its own doings: it publishes a message of any QoS, reads a packet, gives its line up, or
/// joins by a new line (4.3, 4.4, 4.9).
pub fn every_doing_is_some_steps_of_the_hop()
    ensures publishes { (o : Option ℕ) (k : ℕ) (d : Draft) (p : Publisher) (b : Broker) (accepted : List ℕ)
        → Seat o k p b → IsSettled p
        → Does o k p (published (stands p.line.number b) d p) b accepted }
    ensures reads { (o : Option ℕ) (k : ℕ) (p : Publisher) (b : Broker) (accepted : List ℕ)
        → Seat o k p b → IsSettled p
        → Does o k p (publisher_reads (stands p.line.number b) p.line.down p) b accepted }
    ensures gives_up { (o : Option ℕ) (k : ℕ) (p : Publisher) (b : Broker) (accepted : List ℕ)
        → Seat o k p b → IsSettled p → IsRun accepted p b → MayGiveUp p.line.link p.line.clean
        → Does o k p (record p { line = gives_up p.line.link p.line }) b accepted }
    ensures joins { (limits : Capacity) (choice : MemberChoice) (now : ℕ) (clean : Bool) (o : Option ℕ) (k : ℕ)
        → (p : Publisher) (b : Broker) (accepted : List ℕ)
        → Seat o k p b → IsNamed p.client → MayJoin limits clean p b
        → Comes k p (joined_by limits choice now clean p b) b (stepped limits choice now NewLine b)
        accepted accepted }
{}

/// A session begins only if there is a place, so while it stands the table of sessions is within its limit: one that was
/// stored under a larger limit only shrinks until it is within this one (3.1.4, 3.2.2.2, ours).
pub fn a_session_that_began_has_a_place()
    ensures steps { (limits : Capacity) (choice : MemberChoice) (now : ℕ) (call : Call) (client : List ℕ) (b : Broker)
        → HasPlace limits client (stored b) → HasPlace limits client (stored (stepped limits choice now call b)) }
    ensures opens { (limits : Capacity) (choice : MemberChoice) (now : ℕ) (client : List ℕ) (r : Records)
        → HasPlace limits client r → HasPlace limits client (stored (opened limits choice now r)) }

    // Of a client of which no session stands nothing is asked yet.
    ensures begins { (limits : Capacity) (client : List ℕ) (r : Records)
        → session_named client r ≡ None → HasPlace limits client r }
{}
