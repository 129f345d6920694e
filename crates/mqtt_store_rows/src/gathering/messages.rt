//! The messages of a store, gathered row by row, without payloads that nobody looks at (3.3.3, 4.1).
ghost use Rattle.std.specs.Prelude.{◌≡◌, [], true, false, OnOk, IfOk, MatchOption};
ghost use Rattle.std.specs.List.Sorted.{IsNonDecreasing};
ghost use Rattle.mqtt_store_rows.specs.gathering.Thin.{IsAlike, AreCovered};
ghost use Rattle.mqtt_store_rows.specs.gathering.Gathered.{HasTaken, HasAdded, MayNotFollow};

use crate::gathering::gather::Gather;
use crate::rows::{Message, Messages, is_among, message_of};
use crate::values::{counted, value_at};
use bytes::{Bytes, BytesMut};
use mqtt_base::ROW_LIMIT;
use mqtt_keep::KeepError;
use mqtt_records::Row;
use std::alloc::{AllocError, Global};
use std::marker::Model;

/// The messages of a store, gathered row by row. Those to which retained messages refer are whole. Of every other the
/// payload stays in the store: as many zeros stand for it here.
#[derive(Drop)]
pub struct GatheredMessages {
    alloc: Global,
    whole: Vec<u64>,
    zeros: Bytes,
    messages: Messages,
    is_corrupt: bool,
}

impl Model for GatheredMessages {
    ghost use Rattle.mqtt_store_rows.specs.gathering.Gathered.{Gathered};
    ghost use Rattle.std.specs.List.Sorted.{IsNonDecreasing};

    ghost Value = { Gathered };

    ghost view = { λ a. record {
      whole = a.whole.items;
      messages = a.messages;
      is_corrupt = a.is_corrupt;
    } };

    ghost invariant = { λ a. IsNonDecreasing a.whole.items };
}

/// The numbers to which rows of `kept` refer, in order.
fn numbers_in(alloc: Global, kept: &[sqlite::Row]) -> Result<Vec<u64>, AllocError>
    ensures order { IfOk result (λ numbers. IsNonDecreasing numbers.items) }
    ensures covered { IfOk result (λ numbers. AreCovered numbers.items kept.now) }
{
    let mut numbers = Vec::new(alloc);
    for row in kept {
        if let Some(number) = counted(value_at(row, 3)) {
            numbers.push(number)?;
        }
    }
    numbers.sort_unstable();
    Ok(numbers)
}

/// Has zeros stand for the payload of a message, unless its number is among these.
fn make_thin(message: &mut Message, whole: &[u64], zeros: &Bytes) -> Result<(), AllocError>
    requires { IsNonDecreasing whole.now }
    ensures { OnOk result (IsAlike whole.now message.old message.new) }
{
    let len = message.payload_len();
    if is_among(whole, message.key()) || zeros.len() < len {
        return Ok(());
    }
    message.set_payload(zeros.slice(..len)?);
    Ok(())
}

impl GatheredMessages {
    /// None so far. What the rows of `kept` refer to will be whole.
    pub fn new(alloc: Global, kept: &[sqlite::Row]) -> Result<GatheredMessages, AllocError>
        ensures begun { IfOk result (λ g. HasTaken g []) }
        ensures covered { IfOk result (λ g. AreCovered g.whole kept.now) }
    {
        let whole = numbers_in(alloc, kept)?;
        let zeros = match BytesMut::zeroed(alloc, ROW_LIMIT)?.freeze() {
            Ok(zeros) => zeros,
            Err(_) => return Err(AllocError),
        };
        Ok(GatheredMessages {
            alloc,
            whole,
            zeros,
            messages: Messages::new(alloc),
            is_corrupt: false,
        })
    }

    /// The messages; none if rows say none by their numbers.
    pub fn into_messages(self) -> Option<Messages>
        ensures { MatchOption result (self.is_corrupt ≡ true)
            (λ messages. (self.is_corrupt ≡ false) × (messages ≡ self.messages)) }
    {
        let GatheredMessages {
            alloc: _,
            whole,
            zeros,
            messages,
            is_corrupt,
        } = self;
        drop(whole);
        drop(zeros);
        if is_corrupt {
            drop(messages);
            return None;
        }
        Some(messages)
    }

    /// Adds a message, if its number is above all others.
    fn add(&mut self, mut message: Message) -> Result<(), AllocError>
        requires { self.old.is_corrupt ≡ false }
        ensures whole { self.new.whole ≡ self.old.whole }
        ensures added { self.new.is_corrupt ≡ false → OnOk result (HasAdded message self.old self.new) }
        ensures no { self.new.is_corrupt ≡ true → MayNotFollow message self.old }
    {
        make_thin(&mut message, &self.whole, &self.zeros)?;
        if !self.messages.push(message)? {
            self.is_corrupt = true;
        }
        Ok(())
    }
}

impl Gather for GatheredMessages {
    ghost use Rattle.std.specs.Prelude.{◌≡◌};
    ghost use Rattle.std.proofs.Common.{refl, ◌∙◌};
    ghost use Rattle.mqtt_store_rows.specs.gathering.Gathered.{HasTaken};

    ghost has_taken = { HasTaken };

    ghost goes_on = { λ a b. a.whole ≡ b.whole };

    fn take_in(&mut self, row: &sqlite::Row) -> Result<(), AllocError> {
        if self.is_corrupt {
            return Ok(());
        }
        match message_of(self.alloc, row) {
            Ok(message) => self.add(message),
            Err(KeepError::Corrupt) => {
                self.is_corrupt = true;
                Ok(())
            }
            Err(_) => Err(AllocError),
        }
    }

    ghost stays = { λ a. refl };

    ghost on_and_on = { λ a b c p q. p ∙ q };
}
