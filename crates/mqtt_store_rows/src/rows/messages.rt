//! The messages of a store, in the order of their numbers (4.1).
ghost use Rattle.std.specs.Prelude.{◌≡◌, ◌↔◌, Ok, true, false, [], ◌∷◌, ◌++◌, option_copied, IsTrue};
ghost use Rattle.mqtt_records.specs.lists.Order.{IsAscending, IsTable, front_len, row_at};
ghost use Rattle.mqtt_store_rows.specs.declared.rows.message.TheConstants.{MESSAGE_LIMIT};
ghost use Rattle.mqtt_store_rows.specs.rows.Joins.{publication_of};

use crate::rows::message::{MESSAGE_LIMIT, Message};
use mqtt_records::Row;
use std::alloc::{AllocError, Global};
use std::marker::Model;

/// How many messages have a lower number.
fn place_of(messages: &[Message], publication: u64) -> usize
    requires { IsAscending publication_of messages.now }
    ensures { result ≡ front_len publication_of publication messages.now }
{
    messages.partition_point(|message| message.key() < publication)
}

/// The message with the number.
fn find(messages: &[Message], publication: u64) -> Option<&Message>
    requires { IsAscending publication_of messages.now }
    ensures { option_copied result ≡ row_at publication_of publication messages.now }
{
    let Some(message) = messages.get(place_of(messages, publication)) else {
        return None;
    };
    if message.key() == publication {
        Some(message)
    } else {
        None
    }
}

/// Whether a message may follow these: its number is above all of theirs, and there may be one more.
fn may_follow(messages: &[Message], message: &Message) -> bool
    requires { IsAscending publication_of messages.now }
    ensures { IsTrue result ↔ IsTable publication_of MESSAGE_LIMIT (messages.now ++ message.now ∷ []) }
{
    if messages.len() >= MESSAGE_LIMIT {
        return false;
    }
    match messages.last() {
        Some(last) => last.key() < message.key(),
        None => true,
    }
}

/// The messages of a store, in the order of their numbers. Memory is taken for those that there
/// are, not for all that there may be.
#[derive(Drop)]
pub struct Messages {
    messages: Vec<Message>,
}

impl Model for Messages {
    ghost use Rattle.std.specs.Prelude.{List};
    ghost use Rattle.mqtt_records.specs.state.Contents.{StoredMessage};
    ghost use Rattle.mqtt_records.specs.lists.Order.{IsAscending};
    ghost use Rattle.mqtt_store_rows.specs.rows.Joins.{publication_of};

    ghost Value = { List StoredMessage };

    ghost view = { λ a. a.messages.items };

    ghost invariant = { λ a. IsAscending publication_of a.messages.items };
}

impl Messages {
    /// No messages.
    pub fn new(alloc: Global) -> Messages
        ensures { result ≡ [] }
    {
        Messages {
            messages: Vec::new(alloc),
        }
    }

    /// Adds a message behind all others. `false` if its number is not above all of theirs, or if there may be no more.
    pub fn push(&mut self, message: Message) -> Result<bool, AllocError>
        ensures ok { result ≡ Ok true → self.new ≡ self.old ++ message ∷ [] }
        ensures table { result ≡ Ok true → IsTable publication_of MESSAGE_LIMIT self.new }
        ensures no { result ≡ Ok false → IsTable publication_of MESSAGE_LIMIT (self.old ++ message ∷ []) → ⊥ }
    {
        if !may_follow(&self.messages, &message) {
            drop(message);
            return Ok(false);
        }
        self.messages.push(message)?;
        Ok(true)
    }

    /// The messages in order. Takes no memory.
    pub fn as_slice(&self) -> &[Message]
        ensures { result.now ≡ self.now }
    {
        self.messages.as_slice()
    }

    /// The message with the number. Takes no memory.
    pub fn get(&self, publication: u64) -> Option<&Message>
        ensures { option_copied result ≡ row_at publication_of publication self.now }
    {
        find(&self.messages, publication)
    }
}
