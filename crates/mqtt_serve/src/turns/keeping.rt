//! What the server does is a list of calls of the broker, over all its turns and starts, so its copies enter and end once, whoever sends
//! (MQTT 5.0, 3.3.2, 3.3.3, 3.3.4, 4.1, 4.3, 4.9).
ghost use Rattle.std.specs.Prelude.{◌≡◌, ℕ, Bool, List, Option, false};
ghost use Rattle.mqtt_records.specs.declared.state.records.Records.{Records};
ghost use Rattle.mqtt_rules.specs.declared.step.Capacity.{Capacity};
ghost use Rattle.mqtt_rules.specs.step.Laws.{AreWithin};
ghost use Rattle.mqtt_broker_step.specs.declared.call.EngineError.{EngineError};
ghost use Rattle.mqtt_broker.specs.engine.Serving.{Serving};
ghost use Rattle.mqtt_world_laws.specs.of_calls.Calls.{BeginsInOrder};
ghost use Rattle.mqtt_serve.specs.turns.Events.{AreKept, KeepAll};
ghost use Rattle.mqtt_serve.specs.turns.Leaving.{AreCalls};
ghost use Rattle.mqtt_serve.specs.turns.Settled.{Runs, RunsSettledFor, RunsSettledUntil};
ghost use Rattle.mqtt_serve.specs.turns.Starts.{AreStarts, HasStarted, KeepAllLeft, KeepAllSoFar, WasServed};
ghost use Rattle.mqtt_serve.specs.turns.Turns.{Hosting, RunsFor, server};

use mqtt_keep::Keep;

/// Whatever anybody sends and however connections come and go, the calls of the broker in turns of the server are events of which the
/// broker's laws speak, with what they answered: over them each publication that was accepted entered exactly the queues of its
/// subscribers, each once, each copy waits or has ended once, for its cause, no session has over 20 identifiers open, and what is sent of
/// a copy is its publication's (3.3.2, 3.3.3, 3.3.4, 4.3, 4.9). Of clients nothing is asked; of the store's device that it returned what
/// was written.
pub fn turns_keep_all_whoever_sends<K: Keep>()
    ensures calls { (first last : Serving K) (calls : AreCalls K.Keep first last) → AreWithin first.running.limits
        → BeginsInOrder first.running.broker → K.is_sound last.running.keep → last.running.stopped ≡ false → KeepAll calls }

    // And so over any number of turns, whether each step is stored before it is answered, or the steps of a turn together; and to
    // each connection was said what the calls answered to its line.
    ensures turns { (begin turns : ℕ) (told told_then : Option (List ℕ)) (old new : Hosting (Serving K))
        → RunsFor K.Keep begin turns told told_then old new → AreWithin old.engine.running.limits
        → BeginsInOrder old.engine.running.broker → old.engine.running.stopped ≡ false → K.is_sound new.engine.running.keep
        → AreKept K.Keep (server old.engine old.links.wires) (server new.engine new.links.wires) }
    ensures settled { (begin turns : ℕ) (told told_then : Option (List ℕ)) (old new : Hosting (Serving K))
        → RunsSettledFor K.Keep begin turns told told_then old new → AreWithin old.engine.running.limits
        → BeginsInOrder old.engine.running.broker → old.engine.running.stopped ≡ false → K.is_sound new.engine.running.keep
        → AreKept K.Keep (server old.engine old.links.wires) (server new.engine new.links.wires) }

    // Turns that break off are such calls too.
    ensures breaks { (begin turns : ℕ) (error : EngineError) (told told_then : Option (List ℕ)) (old new : Hosting (Serving K))
        → RunsSettledUntil K.Keep begin turns error told told_then old new → AreCalls K.Keep old.engine new.engine }
{}

/// However often the server is started and stopped over a database that was new, and at whatever moment a stop or a crash comes: what it
/// leaves is stored after its calls of the broker, as far as their steps were stored; the next start begins with that, in order; and all
/// that was called in all starts keeps what the broker's laws say (4.1).
pub fn starts_keep_all_whoever_sends<K: Keep>()
    ensures left { (r : Records) (starts : AreStarts K.Keep r) → KeepAllLeft starts }
    ensures keeps { (limits : Capacity) (r : Records) (last : Serving K) (starts : AreStarts K.Keep r) (started : HasStarted K.Keep limits r last)
        → AreWithin limits → K.is_sound last.running.keep → last.running.stopped ≡ false → KeepAllSoFar starts started }

    // What `serve_over` does is such a start.
    ensures runs { (limits : Capacity) (begin turns : ℕ) (keep given : K) → Runs K.Keep limits begin turns keep given
        → WasServed K.Keep limits keep given }
{}
