//! The statements on Wills.
ghost use Rattle.std.specs.Prelude.{◌≡◌, ◌<◌, ◌^◌, pos};
ghost use Rattle.sqlite.specs.Held.{state};
ghost use Rattle.mqtt_store_tables.specs.forms.Settled.{StaysInside};
ghost use Rattle.mqtt_store_tables.specs.statements.Layout.{Layout, IsLayout};
ghost use Rattle.mqtt_store_tables.specs.statements.Writing.{Writes};
ghost use Rattle.mqtt_store_tables.specs.statements.Content.{is_of, IsWhole};
ghost use Rattle.mqtt_store_tables.specs.statements.Removal.{RemovesFrom};
ghost use Rattle.mqtt_store_tables.specs.statements.Columns.{will_row};
ghost use Rattle.mqtt_store_tables.specs.statements.Put.{PutsInto};

use crate::statements::sessions::whole;
use sqlite::{Alter, Error, Transaction, params};
use std::marker::Model;

/// What a Will's row has behind its birth.
#[derive(Drop)]
pub struct WillColumns<'a> {
    /// Will Delay Interval, in seconds.
    pub delay: u32,
    /// The Will Topic.
    pub topic: &'a str,
    /// 0 to 2.
    pub qos: u8,
    /// Whether it is to be retained.
    pub retain: bool,
    /// The block of the Will Properties.
    pub properties: &'a [u8],
    /// The Will Payload.
    pub payload: &'a [u8],
}

impl<'a> Model for WillColumns<'a> {
    ghost use Rattle.mqtt_store_tables.specs.statements.Columns.{WillColumns};

    ghost Value = { WillColumns };

    ghost view = { λ w. record {
      delay = w.delay;
      topic = w.topic.now;
      qos = w.qos;
      retain = w.retain;
      props = w.properties.now;
      payload = w.payload.now;
    } };
}

/// Puts a session's Will, in place of the one that it has. The session must stand.
pub fn put_will<S: Alter>(
    tx: &mut Transaction<'_, S>,
    birth: u64,
    will: &WillColumns<'_>,
) -> Result<usize, Error>
    requires { birth < 2 ^ 63 }
    ensures same_reference { tx.new.conn.ghost_name ≡ tx.old.conn.ghost_name }
    ensures put { (l : Layout) → IsLayout l → Writes S.Store tx.old.conn.now tx.new.conn.now result (IsWhole l)
        (PutsInto l 4 (will_row birth will.now) (is_of 0 (pos birth))) }
    ensures inside { StaysInside (state S.Store tx.old.conn.now) (state S.Store tx.new.conn.now) }
{
    let birth = whole(birth);
    let qos = u32::from(will.qos);
    tx.execute(
        "INSERT OR REPLACE INTO will VALUES (?1, ?2, ?3, ?4, ?5, ?6, ?7)",
        params![
            birth,
            will.delay,
            will.topic,
            qos,
            will.retain,
            will.properties,
            will.payload
        ],
    )
}

/// Removes a session's Will, if it has one.
pub fn remove_will<S: Alter>(tx: &mut Transaction<'_, S>, birth: u64) -> Result<usize, Error>
    requires { birth < 2 ^ 63 }
    ensures same_reference { tx.new.conn.ghost_name ≡ tx.old.conn.ghost_name }
    ensures removed { (l : Layout) → IsLayout l → Writes S.Store tx.old.conn.now tx.new.conn.now result (IsWhole l)
        (RemovesFrom l 4 (is_of 0 (pos birth))) }
    ensures inside { StaysInside (state S.Store tx.old.conn.now) (state S.Store tx.new.conn.now) }
{
    let birth = whole(birth);
    tx.execute("DELETE FROM will WHERE birth = ?1", params![birth])
}
