//! Laws of a receiver's hop: its copies are told apart, so that they can be numbered by their places (3.3.1.3, 3.3.4, 3.8.4).
ghost use Rattle.std.specs.Prelude.{◌++◌, ◌≡◌, ◌∷◌, ℕ, List, map, suc};
ghost use Rattle.std.specs.List.{AllByRecursion};
ghost use Rattle.mqtt_base.specs.declared.session.CopyId.{CopyId};
ghost use Rattle.mqtt_world_laws.specs.receiver.Apart.{AreToldApart};
ghost use Rattle.mqtt_world_laws.specs.receiver.Calls.{IsLingering};
ghost use Rattle.mqtt_world_laws.specs.receiver.Handing.{IsListening, receiver_after};
ghost use Rattle.mqtt_world_laws.specs.receiver.Late.{reads_old_wish};
ghost use Rattle.mqtt_world_laws.specs.receiver.Own.{IsInStep, Subscribed};
ghost use Rattle.mqtt_world_laws.specs.receiver.Served.{IsNewCopy, IsTidy};
ghost use Rattle.mqtt_world_model.specs.model.Ends.{Back, Receiver, Wish, asks_for, wire_back};
ghost use Rattle.mqtt_records.specs.declared.messages.message.RetainedMessage.{RetainedMessage};
ghost use Rattle.mqtt_records.specs.declared.state.records.Records.{Records};
ghost use Rattle.mqtt_records.specs.declared.state.session.Session.{Session};
ghost use Rattle.mqtt_records.specs.lists.Distinct.{AllDiffer};
ghost use Rattle.mqtt_rules.specs.step.Numbers.{HasAcceptedNumbers, NoneFell};
ghost use Rattle.mqtt_rules.specs.step.State.{Broker, Line, MemberChoice};
ghost use Rattle.mqtt_rules.specs.step.Step.{Input, stepped};
ghost use Rattle.mqtt_rules.specs.declared.step.Capacity.{Capacity};

/// A receiver's copies stay told apart, each from every other, whatever enters behind them: copies of publications that were
/// accepted meanwhile, or those of retained messages that a filter brings, on the receiver's line or on the one that it gave
/// up, if no two retained messages are of one publication (3.3.1.3, 3.3.4, 3.8.4).
pub fn copies_that_enter_are_told_apart()
    ensures stay { (ids : List CopyId) (old new : Records) → AreToldApart ids old → NoneFell old new → AreToldApart ids new }
    ensures enter { (birth : ℕ) (ids more : List CopyId) (old new : Records) → AreToldApart ids old → NoneFell old new
        → AllByRecursion (IsNewCopy birth old.publications new.publications) more → AllDiffer more
        → AreToldApart (ids ++ more) new }
    ensures subscribes { (largest : ℕ) (ids : List CopyId) (limits : Capacity) (choice : MemberChoice) (now birth : ℕ)
        → (ns : List ℕ) (w : Wish) (rest : List Back) (r : Receiver) (l : Line) (s : Session) (b : Broker)
        → IsInStep largest ids birth ns r b → IsListening r l s b → IsTidy limits b → r.line.up ≡ asks_for w ∷ rest
        → AreToldApart ids b.records
        → AllDiffer (map (λ (k : RetainedMessage). k.publication) b.records.retained) → HasAcceptedNumbers b.records
        → (x : Subscribed largest ids birth ns (suc b.records.subscribes)
        (receiver_after limits choice now (Input l.number (wire_back r.client r.window r.aliases (asks_for w))) r b)
        (stepped limits choice now (Input l.number (wire_back r.client r.window r.aliases (asks_for w))) b))
        × AreToldApart (ids ++ x.more)
        (stepped limits choice now (Input l.number (wire_back r.client r.window r.aliases (asks_for w))) b).records }
    ensures old_subscribes { (largest : ℕ) (ids : List CopyId) (limits : Capacity) (choice : MemberChoice) (now birth : ℕ)
        → (ns : List ℕ) (w : Wish) (rest : List Back) (r : Receiver) (l : Line) (s : Session) (b : Broker)
        → IsInStep largest ids birth ns r b → IsLingering r l s b → IsTidy limits b → r.line.old ≡ asks_for w ∷ rest
        → AreToldApart ids b.records
        → AllDiffer (map (λ (k : RetainedMessage). k.publication) b.records.retained) → HasAcceptedNumbers b.records
        → (x : Subscribed largest ids birth ns (suc b.records.subscribes)
        (reads_old_wish limits choice now l.number w r b)
        (stepped limits choice now (Input l.number (wire_back r.client r.window r.aliases (asks_for w))) b))
        × AreToldApart (ids ++ x.more)
        (stepped limits choice now (Input l.number (wire_back r.client r.window r.aliases (asks_for w))) b).records }
{}
