//! What is asked of the broker in a turn, and what the answer makes of the connections (MQTT 5.0, 4.2).
ghost use Rattle.std.specs.Prelude.{◌≡◌, ◌≢◌, ◌<◌, true, Some, Err, option_map, length, slice_get, OnOk, IfOk, IfErr};
ghost use Rattle.mqtt_rules.specs.step.Step.{Lost, Pump, Tick};
ghost use Rattle.mqtt_serve.specs.turns.Breaks.{Refused};
ghost use Rattle.mqtt_serve.specs.turns.Turns.{server, may_send_at, stands_at, is_lost_at, Tells, LosesIf, PumpsIf, IsTicked};

use crate::journal::{Call, Journal, Loss};
use crate::turns::connections::Connections;
use crate::turns::stirring::{calm_by, stir_by};
use crate::turns::telling::{deliver, lose};
use mqtt_broker::{Engine, Outcome};
use mqtt_broker_step::EngineError;
use mqtt_keep::Keep;
use mqtt_link::Link;

/// The number of the line at a place.
pub(crate) fn number_at<L: Link>(lines: &Connections<L>, place: usize) -> u64
    requires place { place < length lines.now }
    ensures { option_map (λ w. w.number) (slice_get lines.now place) ≡ Some result }
{
    lines.at(place).number()
}

/// Whether the broker sends to the connection at a place.
fn may_send_at<L: Link>(lines: &Connections<L>, place: usize) -> bool
    requires place { place < length lines.now }
    ensures { result ≡ may_send_at place lines.now }
{
    lines.at(place).may_send()
}

/// Whether the connection at a place stands.
pub(crate) fn stands_at<L: Link>(lines: &Connections<L>, place: usize) -> bool
    requires place { place < length lines.now }
    ensures { result ≡ stands_at place lines.now }
{
    lines.at(place).is_standing()
}

/// Whether the connection at a place is lost.
fn is_lost_at<L: Link>(lines: &Connections<L>, place: usize) -> bool
    requires place { place < length lines.now }
    ensures { result ≡ is_lost_at place lines.now }
{
    lines.at(place).is_lost()
}

/// Why the connection at a place is lost.
fn loss_at<L: Link>(lines: &Connections<L>, place: usize) -> Loss
    requires place { place < length lines.now }
{
    lines.at(place).loss()
}

/// An answer reaches the connections; if memory was wanting, the connection on the line that was asked for is lost.
/// Another refusal is handed on.
pub(crate) fn tell<L: Link>(
    lines: &mut Connections<L>,
    number: u64,
    answer: &Result<Outcome, EngineError>,
) -> Result<(), EngineError>
    ensures told { OnOk result (Tells number answer.now lines.old lines.new) }
    ensures len { OnOk result (length lines.new ≡ length lines.old) }
    ensures refused { IfErr result (λ error. error ≢ EngineError.Memory) }
    ensures err { IfErr result (λ error. (answer.now ≡ Err error) × (lines.new ≡ lines.old)) }
{
    match answer {
        Ok(out) => {
            deliver(lines, out);
            Ok(())
        }
        Err(EngineError::Memory) => {
            lose(lines, number);
            Ok(())
        }
        Err(error) => Err(*error),
    }
}

/// A turn of sending for the line at a place, if it stands and the last write took all that waited: so what a slow
/// connection is sent waits in the broker, and not here.
pub(crate) fn pump_at<L: Link, K: Keep, J: Journal>(
    lines: &mut Connections<L>,
    engine: &mut Engine<K>,
    place: usize,
    number: u64,
    moment: u64,
    journal: &mut J,
) -> Result<(), EngineError>
    requires place { place < length lines.old }
    ensures pumps { OnOk result (PumpsIf K.Keep moment number (may_send_at place lines.old)
        (server engine.old lines.old) (server engine.new lines.new)) }
    ensures len { OnOk result (length lines.new ≡ length lines.old) }
    ensures refused { IfErr result (λ error. error ≢ EngineError.Memory) }
    ensures breaks { IfErr result (λ error. (may_send_at place lines.old ≡ true)
        × Refused K.Keep moment (Pump number) error (server engine.old lines.old) (server engine.new lines.new)) }
{
    if !may_send_at(lines, place) {
        return Ok(());
    }
    let answer = engine.pump(number, moment);
    journal.answered(moment, Call::Pump { line: number }, engine, &answer);
    calm_by(lines, place, &answer);
    tell(lines, number, &answer)
}

/// The broker is told of the line at a place, if it is lost. If memory is wanting it is told again in the next turn.
pub(crate) fn report_at<L: Link, K: Keep, J: Journal>(
    lines: &mut Connections<L>,
    engine: &mut Engine<K>,
    place: usize,
    number: u64,
    moment: u64,
    journal: &mut J,
) -> Result<(), EngineError>
    requires place { place < length lines.old }
    ensures loses { OnOk result (LosesIf K.Keep moment number (is_lost_at place lines.old)
        (server engine.old lines.old) (server engine.new lines.new)) }
    ensures len { OnOk result (length lines.new ≡ length lines.old) }
    ensures refused { IfErr result (λ error. error ≢ EngineError.Memory) }
    ensures breaks { IfErr result (λ error. (is_lost_at place lines.old ≡ true)
        × Refused K.Keep moment (Lost number) error (server engine.old lines.old) (server engine.new lines.new)) }
{
    if !is_lost_at(lines, place) {
        return Ok(());
    }
    let why = loss_at(lines, place);
    let answer = engine.lost(number, moment);
    journal.answered(moment, Call::Lost { line: number, why }, engine, &answer);
    stir_by(lines, engine, &answer);
    tell(lines, number, &answer)
}

/// A turn of the clock: whether more may be due.
pub(crate) fn tick<L: Link, K: Keep, J: Journal>(
    lines: &mut Connections<L>,
    engine: &mut Engine<K>,
    moment: u64,
    journal: &mut J,
) -> Result<bool, EngineError>
    ensures ticks { IfOk result (λ again. IsTicked K.Keep moment again
        (server engine.old lines.old) (server engine.new lines.new)) }
    ensures refused { IfErr result (λ error. error ≢ EngineError.Memory) }
    ensures breaks { IfErr result (λ error. Refused K.Keep moment Tick error
        (server engine.old lines.old) (server engine.new lines.new)) }
{
    let answer = engine.tick(moment);
    journal.answered(moment, Call::Tick, engine, &answer);
    stir_by(lines, engine, &answer);
    match answer {
        Ok(out) => {
            deliver(lines, &out);
            Ok(out.again)
        }
        Err(EngineError::Memory) => Ok(false),
        Err(error) => Err(error),
    }
}
