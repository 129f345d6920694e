//! The bytes that a line sent are given to the broker (MQTT 5.0, 4.2).
ghost use Rattle.std.specs.Prelude.{◌≡◌, ◌≢◌, ◌≤◌, ◌<◌, [], length, drop, OnOk, IfOk, IfErr};
ghost use Rattle.mqtt_serve.specs.turns.Breaks.{BreaksGiving, PieceRefused};
ghost use Rattle.mqtt_serve.specs.turns.Turns.{server, goes_on, Gives, GivesIf, IsPieced};

use crate::journal::{Call, Journal};
use crate::turns::asking::{stands_at, tell};
use crate::turns::connections::Connections;
use crate::turns::holding::note_at;
use crate::turns::stirring::stir_by;
use crate::turns::telling::lose;
use mqtt_broker::Engine;
use mqtt_broker_step::EngineError;
use mqtt_keep::Keep;
use mqtt_link::Link;

/// The most pieces that a read is given in (ours); no run comes there.
const PIECE_LIMIT: u64 = u64::MAX;

/// A piece is given to the broker: how many of its bytes were taken, and whether more is whole.
fn give_piece<L: Link, K: Keep, J: Journal>(
    lines: &mut Connections<L>,
    engine: &mut Engine<K>,
    place: usize,
    number: u64,
    bytes: &[u8],
    moment: u64,
    journal: &mut J,
) -> Result<(usize, bool), EngineError>
    requires place { place < length lines.old }
    ensures bound { IfOk result (λ told. told.0 ≤ length bytes.now) }
    ensures piece { IfOk result (λ told. IsPieced K.Keep moment number bytes.now told.0 told.1
        (server engine.old lines.old) (server engine.new lines.new)) }
    ensures len { OnOk result (length lines.new ≡ length lines.old) }
    ensures refused { IfErr result (λ error. error ≢ EngineError.Memory) }
    ensures breaks { IfErr result (λ error. PieceRefused K.Keep moment number bytes.now error
        (server engine.old lines.old) (server engine.new lines.new)) }
{
    let answer = engine.piece(number, bytes, moment);
    let call = Call::Piece {
        line: number,
        bytes,
    };
    journal.answered(moment, call, engine, &answer);
    note_at(lines, place, &answer, moment);
    stir_by(lines, engine, &answer);
    tell(lines, number, &answer)?;
    match answer {
        Ok(out) => Ok((out.taken, out.again)),
        Err(_) => Ok((0, false)),
    }
}

/// The bytes behind so many.
fn after(bytes: &[u8], count: usize) -> &[u8]
    requires within { count ≤ length bytes.now }
    ensures { result.now ≡ drop count bytes.now }
{
    &bytes[count..]
}

/// Whether more is to be given: more is whole, or bytes are left.
fn goes_on(again: bool, rest: &[u8]) -> bool
    ensures { result ≡ goes_on again rest.now }
{
    again || !rest.is_empty()
}

/// Bytes of the line at a place are given to the broker, until all are taken and nothing more is whole, or the line stands
/// no longer.
fn give<L: Link, K: Keep, J: Journal>(
    lines: &mut Connections<L>,
    engine: &mut Engine<K>,
    place: usize,
    number: u64,
    bytes: &[u8],
    moment: u64,
    journal: &mut J,
) -> Result<(), EngineError>
    requires place { place < length lines.old }
    ensures gives { OnOk result (Gives K.Keep moment place number bytes.now
        (server engine.old lines.old) (server engine.new lines.new)) }
    ensures len { OnOk result (length lines.new ≡ length lines.old) }
    ensures refused { IfErr result (λ error. error ≢ EngineError.Memory) }
    ensures breaks { IfErr result (λ error. BreaksGiving K.Keep moment place number error bytes.now
        (server engine.old lines.old) (server engine.new lines.new)) }
{
    let mut rest = bytes;
    for _ in 0..PIECE_LIMIT {
        let (taken, again) = give_piece(lines, engine, place, number, rest, moment, journal)?;
        rest = after(rest, taken);
        if !stands_at(lines, place) {
            return Ok(());
        }
        if !goes_on(again, rest) {
            return Ok(());
        }
    }
    lose(lines, number);
    Ok(())
}

/// If bytes came on the line at a place, they are given to the broker.
pub(crate) fn give_at<L: Link, K: Keep, J: Journal>(
    lines: &mut Connections<L>,
    engine: &mut Engine<K>,
    place: usize,
    number: u64,
    bytes: &[u8],
    moment: u64,
    journal: &mut J,
) -> Result<(), EngineError>
    requires place { place < length lines.old }
    ensures gives { OnOk result (GivesIf K.Keep moment place number bytes.now
        (server engine.old lines.old) (server engine.new lines.new)) }
    ensures len { OnOk result (length lines.new ≡ length lines.old) }
    ensures refused { IfErr result (λ error. error ≢ EngineError.Memory) }
    ensures breaks { IfErr result (λ error. (bytes.now ≢ []) × BreaksGiving K.Keep moment place number error bytes.now
        (server engine.old lines.old) (server engine.new lines.new)) }
{
    match bytes {
        [] => Ok(()),
        [_, ..] => give(lines, engine, place, number, bytes, moment, journal),
    }
}
