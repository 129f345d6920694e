//! The turn of one connection (MQTT 5.0, 4.2).
ghost use Rattle.std.specs.Prelude.{◌≡◌, ◌≢◌, ◌≤◌, ◌<◌, length, OnOk, IfOk, IfErr, IsTrue};
ghost use Rattle.mqtt_serve.specs.turns.Breaks.{BreaksLine};
ghost use Rattle.mqtt_serve.specs.turns.Turns.{server, HasItsTurn, MayRest, ServesLine};

use crate::journal::Journal;
use crate::turns::asking::{number_at, pump_at, report_at};
use crate::turns::connections::Connections;
use crate::turns::giving::give_at;
use crate::turns::turn::{Pace, READ_LIMIT};
use mqtt_broker::Engine;
use mqtt_broker_step::EngineError;
use mqtt_keep::Keep;
use mqtt_link::Link;

/// The connection at a place is passed over, if it may be. Whether it is.
fn pass_over<L: Link>(link: &L, lines: &mut Connections<L>, place: usize, pace: Pace) -> bool
    requires place { place < length lines.old }
    ensures brisk { IsTrue result → pace ≡ Pace.Brisk }
    ensures rests { IsTrue result → MayRest place lines.old }
    ensures same { lines.new ≡ lines.old }
{
    match pace {
        Pace::Full => false,
        Pace::Brisk => lines.all[place].rest(link),
    }
}

/// The turn of the connection at a place: it is read once, the broker is given what came, and sends; what waits is
/// written once; and if it is lost the broker is told. Whether bytes went in or out.
fn serve_line<L: Link, K: Keep, J: Journal>(
    link: &mut L,
    lines: &mut Connections<L>,
    engine: &mut Engine<K>,
    place: usize,
    moment: u64,
    buffer: &mut [u8; READ_LIMIT],
    journal: &mut J,
) -> Result<bool, EngineError>
    requires place { place < length lines.old }
    ensures serves { IfOk result (λ moved. ServesLine K.Keep moment place moved
        (server engine.old lines.old) (server engine.new lines.new)) }
    ensures len { OnOk result (length lines.new ≡ length lines.old) }
    ensures same { L.calls link.new ≡ L.calls link.old }
    ensures refused { IfErr result (λ error. error ≢ EngineError.Memory) }
    ensures breaks { IfErr result (λ error. BreaksLine K.Keep moment place error
        (server engine.old lines.old) (server engine.new lines.new)) }
{
    let number = number_at(lines, place);
    let count = lines.read_at(link, place, buffer);
    give_at(
        lines,
        engine,
        place,
        number,
        &buffer[..count],
        moment,
        journal,
    )?;
    pump_at(lines, engine, place, number, moment, journal)?;
    let wrote = lines.write_at(link, place);
    report_at(lines, engine, place, number, moment, journal)?;
    Ok(wrote | (count > 0))
}

/// The connection at a place has its turn, or is passed over, if it may be in a turn of this pace. Whether bytes went in or out.
pub(crate) fn serve_at<L: Link, K: Keep, J: Journal>(
    link: &mut L,
    lines: &mut Connections<L>,
    engine: &mut Engine<K>,
    place: usize,
    pace: Pace,
    moment: u64,
    buffer: &mut [u8; READ_LIMIT],
    journal: &mut J,
) -> Result<bool, EngineError>
    requires place { place < length lines.old }
    ensures serves { IfOk result (λ moved. HasItsTurn K.Keep pace moment place moved
        (server engine.old lines.old) (server engine.new lines.new)) }
    ensures len { OnOk result (length lines.new ≡ length lines.old) }
    ensures same { L.calls link.new ≡ L.calls link.old }
    ensures refused { IfErr result (λ error. error ≢ EngineError.Memory) }
    ensures breaks { IfErr result (λ error. BreaksLine K.Keep moment place error
        (server engine.old lines.old) (server engine.new lines.new)) }
{
    if pass_over(link, lines, place, pace) {
        return Ok(false);
    }
    serve_line(link, lines, engine, place, moment, buffer, journal)
}
