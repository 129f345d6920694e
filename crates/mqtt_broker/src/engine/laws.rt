//! However a stream of bytes comes, what is answered is what it is cut into; what a crash leaves of a call over a store that is
//! settled; and how many lines stand (MQTT 5.0, 2.1, 4.1).
ghost use Rattle.std.specs.Prelude.{◌≡◌, ◌⊎◌, ◌≤◌, ℕ, List, Result, length};
ghost use Rattle.mqtt_packet.specs.stream.Stream.{Ending, IsStream, Item};
ghost use Rattle.mqtt_records.specs.declared.state.records.Records.{Records};
ghost use Rattle.mqtt_rules.specs.declared.step.Capacity.{Capacity};
ghost use Rattle.mqtt_rules.specs.step.State.{Broker, MemberChoice};
ghost use Rattle.mqtt_rules.specs.step.Step.{Call, opened, stepped};
ghost use Rattle.mqtt_broker_step.specs.declared.call.EngineError.{EngineError};
ghost use Rattle.mqtt_broker.specs.declared.stored.outcome.Outcome.{Outcome};
ghost use Rattle.mqtt_broker.specs.engine.Cut.{Coming, IsFrontOf, IsGivenOn, IsGivenWhole, after_comings, answered, given_first, there_in};
ghost use Rattle.mqtt_broker.specs.engine.Piece.{IsLeftByAny, PieceCalled, call_by};
ghost use Rattle.mqtt_broker.specs.engine.Serving.{Serving};
ghost use Rattle.mqtt_broker.specs.stored.Calling.{Called, IsLeftBy};
ghost use Rattle.mqtt_broker.specs.stored.Opening.{IsOpened, IsStoredOpening};
ghost use Rattle.mqtt_broker.specs.stored.Running.{Running};
ghost use Rattle.mqtt_broker.specs.stored.Settling.{RunsSettled};

use mqtt_keep::Keep;

/// A stream comes on a line in whatever pieces, each a front of what wasn't taken yet, with whatever calls between them,
/// until the line closes. What the steps of its pieces answer are the packets that the stream is cut into, and the fault
/// that ends it: in this order, each once, and nothing else. All of it is answered if all is taken and the last
/// answer doesn't say to call again.
pub fn streams_may_come_in_any_pieces()
    ensures front { (line : ℕ) (stream : List ℕ) (items : List Item) (ending : Ending) (b : Broker) (came : List Coming)
        → IsStream stream items ending → IsGivenOn line came (given_first stream b)
        → IsFrontOf (answered line came (given_first stream b)) (there_in items ending) }
    ensures whole { (line : ℕ) (stream : List ℕ) (items : List Item) (ending : Ending) (b : Broker) (came : List Coming)
        → IsStream stream items ending → IsGivenOn line came (given_first stream b)
        → IsGivenWhole line (after_comings line came (given_first stream b))
        → answered line came (given_first stream b) ≡ there_in items ending }
{}

/// A broker that is opened has no line, and a step that finds no more lines than were asked for leaves no more: so no more ever
/// stand (ours).
pub fn no_more_lines_stand_than_are_asked_for()
    ensures step { (limits : Capacity) (choice : MemberChoice) (now : ℕ) (call : Call) (b : Broker)
        → length b.lines ≤ limits.lines → length (stepped limits choice now call b).lines ≤ limits.lines }
    ensures opened { (limits : Capacity) (choice : MemberChoice) (now : ℕ) (r : Records)
        → length (opened limits choice now r).lines ≡ 0 }
{}

/// An engine is called whose store has nothing that waits to be written: a crash leaves what was stored before the call or is
/// after it. So it is of a piece, and of an opening over such a store. A store that writes all at once is always such.
pub fn a_call_over_a_settled_store<K: Keep>()
    ensures called { (now : ℕ) (call : Call) (old new : Running K) (result : Result Outcome EngineError) (left : Records)
        → RunsSettled K.Keep old → Called K.Keep now call old result new → K.is_sound new.keep
        → K.leaves new.keep left → IsLeftBy old.limits old.broker now call left }
    ensures piece { (now line : ℕ) (piece : List ℕ) (old new : Serving K) (result : Result Outcome EngineError) (left : Records)
        → RunsSettled K.Keep old.running → PieceCalled K.Keep now line piece old result new
        → K.is_sound new.running.keep → K.leaves new.running.keep left
        → IsLeftByAny old.running.limits old.running.broker now (call_by line piece old) left }
    ensures opened { (limits : Capacity) (now : ℕ) (keep : K) (engine : Running K) (r left : Records)
        → K.is_settled keep → K.holds keep r → IsOpened K.Keep limits now keep engine
        → K.is_sound engine.keep → K.leaves engine.keep left
        → (left ≡ r) ⊎ IsStoredOpening K.Keep limits now keep left }
{}
