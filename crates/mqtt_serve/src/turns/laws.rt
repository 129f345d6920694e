//! What a crash leaves of the steps of a turn, and what has left the server by then (MQTT 5.0, 4.1).
ghost use Rattle.std.specs.Prelude.{◌≡◌, ◌≤◌, ◌<◌, ℕ, Bool, List, Option, Some, slice_get};
ghost use Rattle.mqtt_records.specs.declared.state.records.Records.{Records};
ghost use Rattle.mqtt_rules.specs.step.State.{stored};
ghost use Rattle.mqtt_broker_step.specs.declared.call.EngineError.{EngineError};
ghost use Rattle.mqtt_broker.specs.engine.Serving.{Serving};
ghost use Rattle.mqtt_broker.specs.stored.Settling.{RunsSettled};
ghost use Rattle.mqtt_serve.specs.turns.Leaving.{AreCalls, HoldsBack, IsAllStored, IsHeldSince, IsLeftSince, WasSaid};
ghost use Rattle.mqtt_serve.specs.turns.Settled.{IsStored, RunsSettledFor, StretchBreaksOff, Together};
ghost use Rattle.mqtt_serve.specs.turns.Turns.{Hosting, Server, server};
ghost use Rattle.mqtt_serve.specs.turns.Wires.{Wire};

use mqtt_keep::Keep;

/// Nothing leaves the server while a step isn't stored. From a moment at which all steps were stored, whatever calls of the broker
/// follow, of one turn or of many, a crash leaves what was stored then, or before or after one of those calls; and after each turn
/// up to the storing of a stretch, and through a stretch that breaks off, such calls are all that there is, and nothing leaves any
/// connection. Once the steps of a stretch are stored a crash leaves what is stored now; and what has left a connection was said to
/// it.
pub fn what_a_crash_leaves_of_a_turn<K: Keep>()
    ensures crash { (first last : Serving K) (calls : AreCalls K.Keep first last) (left : Records)
        → IsAllStored K.Keep first → K.is_sound last.running.keep → K.leaves last.running.keep left
        → IsLeftSince calls left }
    ensures before { (begin last : ℕ) (read : List ℕ) (busy : Bool) (old new : Hosting (Serving K))
        → Together K.Keep begin read last busy old new
        → HoldsBack K.Keep (server old.engine old.links.wires) (server new.engine new.links.wires) }
    ensures breaks { (begin : ℕ) (read : List ℕ) (error : EngineError) (old new : Hosting (Serving K))
        → StretchBreaksOff K.Keep begin read error old new
        → HoldsBack K.Keep (server old.engine old.links.wires) (server new.engine new.links.wires) }
    ensures behind { (went : Bool) (old new : Server (Serving K)) (stores : IsStored K.Keep went old new)
        → IsAllStored K.Keep new.engine
        × ((left : Records) → K.is_sound new.engine.running.keep → K.leaves new.engine.running.keep left
        → left ≡ stored new.engine.running.broker)
        × ((place : ℕ) (wire : Wire) → slice_get stores.after place ≡ Some wire → WasSaid wire) }
    ensures turns { (begin turns : ℕ) (told told_then : Option (List ℕ)) (old new : Hosting (Serving K))
        → IsAllStored K.Keep old.engine → RunsSettledFor K.Keep begin turns told told_then old new
        → IsHeldSince K.Keep (server new.engine new.links.wires) }
{}
