//! The statements on retained messages, without what they have alike with copies.
ghost use Rattle.std.specs.Prelude.{◌≡◌, ◌<◌, ◌^◌, pos};
ghost use Rattle.sqlite.specs.Held.{state};
ghost use Rattle.mqtt_store_tables.specs.forms.Settled.{StaysInside};
ghost use Rattle.mqtt_store_tables.specs.declared.schema.tables.Making.{Making};
ghost use Rattle.mqtt_store_tables.specs.statements.Layout.{second_layout};
ghost use Rattle.mqtt_store_tables.specs.statements.Content.{is_of, is_text, IsWhole};
ghost use Rattle.mqtt_store_tables.specs.statements.Removal.{RemovesFrom};
ghost use Rattle.mqtt_store_tables.specs.statements.Put.{PutsInto, is_retained};
ghost use Rattle.mqtt_store_tables.specs.statements.Writing.{Writes};
ghost use Rattle.mqtt_store_tables.specs.messages.Places.{kept_tree};
ghost use Rattle.mqtt_store_tables.specs.messages.Rows.{kept_row};
ghost use Rattle.mqtt_store_tables.specs.messages.References.{Finds, Tells};

use crate::messages::numbers::{number_of, whole};
use sqlite::{Alter, Error, Transaction, params};
use std::marker::Model;

/// What a retained message's row has behind its place.
#[derive(Drop)]
pub struct KeptColumns<'a> {
    /// The topic name.
    pub topic: &'a str,
    /// The client identifier of the sender.
    pub sender: &'a str,
    /// The publication's number, which its message has.
    pub publication: u64,
    /// 0 to 2.
    pub qos: u8,
    /// When the publication was accepted: a moment in milliseconds.
    pub arrived: u64,
}

impl<'a> Model for KeptColumns<'a> {
    ghost use Rattle.mqtt_store_tables.specs.messages.Rows.{KeptColumns};

    ghost Value = { KeptColumns };

    ghost view = { λ m. record {
      topic = m.topic.now;
      sender = m.sender.now;
      publication = m.publication;
      qos = m.qos;
      arrived = m.arrived;
    } };
}

/// Puts a retained message, in place of the one at its place and of the one for its topic. The
/// message must stand.
pub fn put_kept<S: Alter>(
    tx: &mut Transaction<'_, S>,
    place: u64,
    kept: &KeptColumns<'_>,
) -> Result<usize, Error>
    requires place { place < 2 ^ 63 }
    requires publication { kept.now.publication < 2 ^ 63 }
    requires arrived { kept.now.arrived < 2 ^ 63 }
    ensures same_reference { tx.new.conn.ghost_name ≡ tx.old.conn.ghost_name }
    ensures put { (making : Making) → Writes S.Store tx.old.conn.now tx.new.conn.now result (IsWhole (second_layout making))
        (PutsInto (second_layout making) (kept_tree making) (kept_row place kept.now) (is_retained place kept.now.topic)) }
    ensures inside { StaysInside (state S.Store tx.old.conn.now) (state S.Store tx.new.conn.now) }
{
    let place = whole(place);
    let publication = whole(kept.publication);
    let qos = u32::from(kept.qos);
    let arrived = whole(kept.arrived);
    tx.execute(
        "INSERT OR REPLACE INTO kept VALUES (?1, ?2, ?3, ?4, ?5, ?6)",
        params![place, kept.topic, kept.sender, publication, qos, arrived],
    )
}

/// Removes the retained message at a place, if there is one. Its message stays.
pub fn remove_kept<S: Alter>(tx: &mut Transaction<'_, S>, place: u64) -> Result<usize, Error>
    requires { place < 2 ^ 63 }
    ensures same_reference { tx.new.conn.ghost_name ≡ tx.old.conn.ghost_name }
    ensures removed { (making : Making) → Writes S.Store tx.old.conn.now tx.new.conn.now result (IsWhole (second_layout making))
        (RemovesFrom (second_layout making) (kept_tree making) (is_of 0 (pos place))) }
    ensures inside { StaysInside (state S.Store tx.old.conn.now) (state S.Store tx.new.conn.now) }
{
    let place = whole(place);
    tx.execute("DELETE FROM kept WHERE place = ?1", params![place])
}

/// The number of the message to which the retained message at a place refers, if there is one.
/// Writes nothing.
pub fn pub_of_kept<S: Alter>(tx: &mut Transaction<'_, S>, place: u64) -> Result<Option<u64>, Error>
    requires { place < 2 ^ 63 }
    ensures same_reference { tx.new.conn.ghost_name ≡ tx.old.conn.ghost_name }
    ensures found { (making : Making) → Tells (second_layout making) S.Store tx.old.conn.now tx.new.conn.now result
        (Finds (kept_tree making) 4 (is_of 0 (pos place))) }
    ensures inside { StaysInside (state S.Store tx.old.conn.now) (state S.Store tx.new.conn.now) }
{
    let place = whole(place);
    let rows = tx.query_all("SELECT pub FROM kept WHERE place = ?1", params![place])?;
    number_of(rows.as_slice())
}

/// The number of the message to which the retained message for a topic refers, if there is one.
/// Writes nothing.
pub fn pub_of_topic<S: Alter>(
    tx: &mut Transaction<'_, S>,
    topic: &str,
) -> Result<Option<u64>, Error>
    ensures same_reference { tx.new.conn.ghost_name ≡ tx.old.conn.ghost_name }
    ensures found { (making : Making) → Tells (second_layout making) S.Store tx.old.conn.now tx.new.conn.now result
        (Finds (kept_tree making) 4 (is_text 2 topic.now)) }
    ensures inside { StaysInside (state S.Store tx.old.conn.now) (state S.Store tx.new.conn.now) }
{
    let rows = tx.query_all("SELECT pub FROM kept WHERE topic = ?1", params![topic])?;
    number_of(rows.as_slice())
}
