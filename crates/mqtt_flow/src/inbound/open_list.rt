//! Ascending lists of open identifiers, wherever they are kept (4.3.3, 4.4, 4.9).

ghost use Rattle.std.specs.Prelude.{◌≡◌, IfErr, IfOk};
ghost use Rattle.mqtt_flow.specs.inbound.Inbound.{answer_to, answer_to_release, IsOpenList};
ghost use Rattle.mqtt_flow.specs.inbound.Inflow.{StandsAt, BelongsAt};

use crate::inbound::inflow::{Published, ReleaseAnswer};
use mqtt_base::OPEN_LIMIT;

/// Where the identifier stands, or else where it would.
pub(crate) fn place(ids: &[u16], id: u16) -> Result<usize, usize>
    requires { IsOpenList ids.now }
    ensures found { IfOk result (StandsAt id ids.now) }
    ensures missing { IfErr result (BelongsAt id ids.now) }
{
    ids.binary_search(&id)
}

/// What a QoS 2 PUBLISH with this identifier would be (4.3.3). Takes no memory.
pub fn would_publish(ids: &[u16], id: u16) -> Published
    requires { IsOpenList ids.now }
    ensures { result ≡ answer_to id ids.now }
{
    match place(ids, id) {
        Ok(_) => Published::Again,
        Err(_) if ids.len() < OPEN_LIMIT => Published::New,
        Err(_) => Published::Over,
    }
}

/// What the identifier of a PUBREL would be (4.3.3). Takes no memory.
pub fn would_release(ids: &[u16], id: u16) -> ReleaseAnswer
    requires { IsOpenList ids.now }
    ensures { result ≡ answer_to_release id ids.now }
{
    match place(ids, id) {
        Ok(_) => ReleaseAnswer::Known,
        Err(_) => ReleaseAnswer::Unknown,
    }
}
