//! The statements on sessions.
ghost use Rattle.std.specs.Prelude.{◌≡◌, ◌<◌, ◌^◌, pos, IfSome, option_map};
ghost use Rattle.sqlite.specs.Held.{state};
ghost use Rattle.mqtt_store_tables.specs.forms.Settled.{StaysInside};
ghost use Rattle.mqtt_store_tables.specs.statements.Layout.{Layout, IsOurs};
ghost use Rattle.mqtt_store_tables.specs.statements.Writing.{Writes};
ghost use Rattle.mqtt_store_tables.specs.statements.Content.{is_of, IsWhole};
ghost use Rattle.mqtt_store_tables.specs.statements.Columns.{session_row};
ghost use Rattle.mqtt_store_tables.specs.statements.Put.{PutsInto};

use sqlite::{Alter, Error, Transaction, params};
use std::marker::Model;

/// What a session's row has behind its birth.
#[derive(Drop)]
pub struct SessionColumns<'a> {
    /// The client identifier.
    pub client: &'a str,
    /// Session Expiry Interval, in seconds.
    pub expiry: u32,
    /// When its connection was closed: a moment in milliseconds. None while it is connected.
    pub closed: Option<u64>,
}

impl<'a> Model for SessionColumns<'a> {
    ghost use Rattle.mqtt_store_tables.specs.statements.Columns.{SessionColumns};

    ghost Value = { SessionColumns };

    ghost view = { λ s. record { client = s.client.now; expiry = s.expiry; closed = s.closed } };
}

/// A number as SQL has it.
pub(crate) fn whole(n: u64) -> i64
    requires { n < 2 ^ 63 }
    ensures { result ≡ pos n }
{
    n as i64
}

/// A number that may be missing, as SQL has it.
pub(crate) fn whole_or_none(n: Option<u64>) -> Option<i64>
    requires { IfSome n (λ n. n < 2 ^ 63) }
    ensures { result ≡ option_map pos n }
{
    match n {
        Some(n) => Some(whole(n)),
        None => None,
    }
}

/// Puts a session's own row, in place of the one that it has: its rows in the other tables stay.
/// No other session may have its client identifier.
pub fn put_session<S: Alter>(
    tx: &mut Transaction<'_, S>,
    birth: u64,
    session: &SessionColumns<'_>,
) -> Result<usize, Error>
    requires birth { birth < 2 ^ 63 }
    requires closed { IfSome session.now.closed (λ n. n < 2 ^ 63) }
    ensures same_reference { tx.new.conn.ghost_name ≡ tx.old.conn.ghost_name }
    ensures put { (l : Layout) → IsOurs l → Writes S.Store tx.old.conn.now tx.new.conn.now result (IsWhole l)
        (PutsInto l 2 (session_row birth session.now) (is_of 0 (pos birth))) }
    ensures inside { StaysInside (state S.Store tx.old.conn.now) (state S.Store tx.new.conn.now) }
{
    let birth = whole(birth);
    let closed = whole_or_none(session.closed);
    tx.execute(
        "INSERT INTO session VALUES (?1, ?2, ?3, ?4) ON CONFLICT (birth) DO UPDATE SET client = excluded.client, expiry = excluded.expiry, closed = excluded.closed",
        params![birth, session.client, session.expiry, closed],
    )
}
