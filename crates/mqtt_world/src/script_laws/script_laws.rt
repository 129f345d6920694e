//! Laws of whole scripts: exactly-once delivery, and what strangers hold (2.1, 4.1, 4.3, 4.4, 4.6).
ghost use Rattle.std.specs.Prelude.{◌≡◌, List, [], true};
ghost use Rattle.mqtt_world_laws.specs.headline.Lives.{BeginsWell};
ghost use Rattle.mqtt_world_model.specs.model.Tellings.{Telling};
ghost use Rattle.mqtt_world_model.specs.model.World as world;
ghost use Rattle.mqtt_world_model.specs.model.World.{World, start};
ghost use Rattle.mqtt_records.specs.state.Records.{nothing};
ghost use Rattle.mqtt_rules.specs.step.Laws.{AreWithin};
ghost use Rattle.mqtt_rules.specs.step.State.{MemberChoice};
ghost use Rattle.mqtt_rules.specs.declared.step.Capacity.{Capacity};
ghost use Rattle.mqtt_script.specs.declared.event.Event.{Event};
ghost use Rattle.mqtt_world.specs.script_laws.Cleanly.{AreMadeAnew, HaveNoSession, ScriptDelivers, makes_ends_first};
ghost use Rattle.mqtt_world.specs.script_laws.Scripted.{HasBadFront, IsBad, IsBadHere, RunsTo};
ghost use Rattle.mqtt_world_model.specs.single_steps.Unrolled.{AreAllAlike, HoldNoPacket};
ghost use Rattle.mqtt_rules.specs.spelling.Sending.{SendsWell};
ghost use Rattle.mqtt_world_laws.specs.reading.UnderWay.{IsUninhabited};
ghost use Rattle.mqtt_world_laws.specs.acceptance.Fair.{opened_world};

/// Exactly-once delivery, of every script that ran, whatever was lost, given up, restarted or stopped in it, and whatever turns
/// it came to: each message of a publisher was accepted once, with what it carries; of each publication exactly the intended
/// copies entered queues, each once, and wait or have one end, for its cause; and each receiver was handed its copies once and
/// in order; and each drain in it left none of its receiver's copies. That is so of all turns that the events may have come to in
/// which each Clean Start is carried through until its CONNACK is read, and no session of an end's name stands when it is made;
/// that copies enter and end so is true of the others too. From nothing stored nothing else is asked (3.1.2.4, 3.3.4, 4.3, 4.4,
/// 4.6, 4.8, 4.9).
pub fn scripts_deliver_exactly_once()
    ensures delivers { (limits : Capacity) (es : List Event) (tells : List Telling) (w after : World)
        → BeginsWell limits w → RunsTo limits es tells w after → ScriptDelivers limits es w after }
    ensures empty { (limits : Capacity) (choice : MemberChoice) → opened_world limits choice 0 nothing ≡ start }
    ensures from_nothing { (limits : Capacity) (es : List Event) (tells : List Telling) (after : World) → AreWithin limits
        → RunsTo limits es tells start after → ScriptDelivers limits es start after }
{}

/// A script that makes its ends before all else makes each where no session of its name stands, if none is stored; so it is where
/// nothing is (3.1.2.4).
pub fn ends_that_come_first_are_made_anew()
    ensures stored { (limits : Capacity) (es : List Event) (w : World) → makes_ends_first es ≡ true → HaveNoSession es w
        → AreMadeAnew limits es w }
    ensures from_nothing { (limits : Capacity) (es : List Event) → makes_ends_first es ≡ true → AreMadeAnew limits es start }
{}

/// In each script that ran strangers of one name hold the same bytes, and nothing whole is held of them (2.1).
pub fn strangers_hold_no_packet()
    ensures alike { (limits : Capacity) (es : List Event) (tells : List Telling) (w after : World)
        → RunsTo limits es tells w after → AreAllAlike w → AreAllAlike after }
    ensures waits { (limits : Capacity) (es : List Event) (tells : List Telling) (w after : World)
        → RunsTo limits es tells w after → AreAllAlike w → HoldNoPacket w → HoldNoPacket after }
{}

/// Where a script has come to, the broker takes each packet that it may be asked to read next: so it refuses an event only
/// if that is bad as the world's that it means, or as a drain. Asked: nobody was there at first, and the broker sent well
/// then; so from nothing stored nothing (1.5.4, 2.1.4, 2.2.1).
pub fn what_is_in_front_is_taken()
    ensures fronts { (limits : Capacity) (es : List Event) (tells : List Telling) (w after : World) → IsUninhabited w
        → SendsWell w.broker → RunsTo limits es tells w after
        → (x : world.Event) → ¬ HasBadFront x after }
    ensures refuses { (limits : Capacity) (es : List Event) (tells : List Telling) (w after : World) → IsUninhabited w
        → SendsWell w.broker → RunsTo limits es tells w after
        → (e : Event) → IsBadHere e after → IsBad e after }
    ensures from_nothing { (limits : Capacity) (es : List Event) (tells : List Telling) (after : World) → AreWithin limits
        → RunsTo limits es tells start after → (e : Event) → IsBadHere e after → IsBad e after }
{}
