//! What comes on a line is asked of the engine: what its first bytes ask, or nothing if the line isn't linked (MQTT
//! 5.0, 2.1, 4.13).
ghost use Rattle.std.specs.Prelude.{◌≡◌, ◌≤◌, ℕ, List, None, false, true, length, IfOk, IsOkAnd, OnErr, OnOk};
ghost use Rattle.mqtt_records.specs.lists.Order.{has_row};
ghost use Rattle.mqtt_rules.specs.step.Piece.{first_call, without_first};
ghost use Rattle.mqtt_rules.specs.step.State.{line_at};
ghost use Rattle.mqtt_rules.specs.step.Step.{Call, nothing_told};
ghost use Rattle.mqtt_broker.specs.engine.Framers.{BeginsWith, HeldLine, in_framing, line_of};
ghost use Rattle.mqtt_broker.specs.stored.Calling.{IsOn, Tells};
ghost use Rattle.mqtt_broker.specs.engine.Asking.{CalledIf};
ghost use Rattle.mqtt_broker.specs.engine.Piece.{PieceCalled};
ghost use Rattle.mqtt_broker.specs.engine.Serving.{IsOfLines, Served, serving};

use crate::engine::asked::Asked;
use crate::engine::framers::Framers;
use crate::engine::held::end_all;
use crate::engine::holding::Held;
use crate::stored::{Engine, Outcome};
use mqtt_broker_step::EngineError;
use mqtt_keep::Keep;

/// What comes, or is asked, on a line that isn't linked does nothing but that the moment is the greatest handed in.
/// Takes no memory.
pub(crate) fn pass_over<K: Keep>(
    engine: &mut Engine<K>,
    moment: u64,
) -> Result<Outcome, EngineError>
    ensures served { (line : ℕ) (call : Call) (held : List HeldLine)
        → line_at line engine.old.broker ≡ None → IsOn line call
        → Served K.Keep moment call (serving engine.old held) result (serving engine.new held) }
    ensures told { engine.old.stopped ≡ false → IsOkAnd result (λ out. Tells nothing_told out) }
    ensures lines { (held : List HeldLine) → IsOfLines held engine.old.broker
        → IsOfLines held engine.new.broker }
    ensures keep { engine.new.keep ≡ engine.old.keep }
{
    if engine.is_stopped() {
        return Err(EngineError::Stopped);
    }
    Ok(engine.rest_at(moment))
}

/// The packet that is answered, of this size, is held no longer; one that is refused is. Takes no memory.
fn drop_answered(held: &mut Held, size: usize, answer: &Result<Outcome, EngineError>)
    requires { BeginsWith size held.old.framing.held }
    ensures ok { OnOk answer.now (held.new ≡ in_framing without_first held.old) }
    ensures err { OnErr answer.now (held.new ≡ held.old) }
{
    match answer {
        Ok(_) => held.drop_first(size),
        Err(_) => {}
    }
}

/// What the first bytes of a line ask is done, and a packet that was answered is held no longer; if nothing is whole,
/// nothing but that the moment is the greatest handed in. A refusal leaves what is held.
fn ask<K: Keep>(
    engine: &mut Engine<K>,
    held: &mut Held,
    line: u64,
    moment: u64,
) -> Result<Outcome, EngineError>
    requires running { engine.old.stopped ≡ false }
    requires stored { K.is_sound engine.old.keep → K.holds engine.old.keep engine.old.broker.records }
    ensures called { CalledIf K.Keep moment (first_call line held.old.framing.held) engine.old result
        engine.new }
    ensures ok { OnOk result (held.new ≡ in_framing without_first held.old) }
    ensures err { OnErr result (held.new ≡ held.old) }
{
    match held.first() {
        Ok(Some(Asked::Whole { packet, size })) => {
            let answer = engine.input(line, &packet, moment);
            drop_answered(held, size, &answer);
            answer
        }
        Ok(Some(Asked::Bad { is_connect, code })) => {
            engine.bad_input(line, is_connect, code, moment)
        }
        Ok(None) => Ok(engine.rest_at(moment)),
        Err(_) => Err(EngineError::Memory),
    }
}

/// As many bytes of a piece as fit are taken, and what the first bytes ask is done. A refusal takes none.
pub(crate) fn take_piece<K: Keep>(
    engine: &mut Engine<K>,
    framers: &mut Framers,
    line: u64,
    piece: &[u8],
    moment: u64,
) -> Result<Outcome, EngineError>
    requires running { engine.old.stopped ≡ false }
    requires stored { K.is_sound engine.old.keep → K.holds engine.old.keep engine.old.broker.records }
    requires lines { IsOfLines framers.old engine.old.broker }
    requires linked { has_row line_of line framers.old ≡ true }
    ensures called { PieceCalled K.Keep moment line piece.now (serving engine.old framers.old) result
        (serving engine.new framers.new) }
    ensures within { IfOk result (λ out. out.taken ≤ length piece.now) }
    ensures lines { IsOfLines framers.new engine.new.broker }
{
    let Some(mut held) = framers.lend(line) else {
        unreachable!()
    };
    let Ok(taken) = held.feed(piece) else {
        framers.put_back(line, held);
        return Err(EngineError::Memory);
    };
    match ask(engine, &mut held, line, moment) {
        Ok(mut outcome) => {
            framers.put_back(line, held);
            end_all(framers, &outcome.closed);
            outcome.taken = taken;
            outcome.again = framers.is_whole(line);
            Ok(outcome)
        }
        Err(error) => {
            held.give_back(taken);
            framers.put_back(line, held);
            Err(error)
        }
    }
}
