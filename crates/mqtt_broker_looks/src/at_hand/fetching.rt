//! What copies say is fetched: what is at hand, and the rest from a store (MQTT 5.0, 3.3, 4.1).
ghost use Rattle.std.specs.Prelude.{◌≡◌, ◌++◌, IfOk, OnOk, OnErr, IfErr, IsSome, length, option_to_list};
ghost use Rattle.mqtt_flow.specs.ring.AtHand.{content_at};
ghost use Rattle.mqtt_records.specs.declared.state.records.Records.{Records};
ghost use Rattle.mqtt_broker_looks.specs.at_hand.Hand.{IsQueueInOrder, SayWhatIsStored, at_hand_of, contents_at};
ghost use Rattle.mqtt_broker_looks.specs.at_hand.Reading.{AreAtHand, HasFailed, HasOne, WasAsked};

use crate::at_hand::contents::first_at;
use crate::at_hand::hand::AllAtHand;
use mqtt_flow::AT_HAND_LIMIT;
use mqtt_keep::{Keep, KeepError};
use mqtt_records::CopyContent;
use std::alloc::{AllocError, Global};

/// Puts one more behind, if there is one.
fn add(all: &mut Vec<CopyContent>, one: Option<CopyContent>) -> Result<(), AllocError>
    ensures { OnOk result (all.new.items ≡ all.old.items ++ option_to_list one) }
{
    if let Some(content) = one {
        all.push(content)?;
    }
    Ok(())
}

impl AllAtHand {
    /// Reads what the copies of a session say from a place on, in place of all that is at hand of it. The
    /// answer is what the one at that place says.
    fn read<K: Keep>(
        &mut self,
        alloc: Global,
        keep: &mut K,
        birth: u64,
        place: u64,
    ) -> Result<Option<CopyContent>, KeepError>
        requires { K.is_loaded keep.old }
        ensures ok { IfOk result (λ one.
            HasOne K.Keep birth place keep.old self.old keep.new self.new one) }
        ensures err { IfErr result (λ fault. HasFailed K.Keep 1 keep.old keep.new fault) }
        ensures kept { OnErr result (self.new ≡ self.old) }
    {
        let contents = keep.contents(alloc, birth, place, AT_HAND_LIMIT as u32)?;
        match first_at(&contents, place) {
            Ok(first) => {
                let reaches_end = contents.len() < AT_HAND_LIMIT;
                let _is_all = self.fill(alloc, birth, contents, reaches_end);
                Ok(first)
            }
            Err(_) => {
                drop(contents);
                Err(KeepError::Memory)
            }
        }
    }

    /// What the copy at a place of a session's queue says, from hand or from the store; none if no copy
    /// stands there.
    fn fetch_one<K: Keep>(
        &mut self,
        alloc: Global,
        keep: &mut K,
        birth: u64,
        place: u64,
    ) -> Result<Option<CopyContent>, KeepError>
        requires { K.is_loaded keep.old }
        ensures ok { IfOk result (λ one.
            HasOne K.Keep birth place keep.old self.old keep.new self.new one) }
        ensures err { IfErr result (λ fault. HasFailed K.Keep 1 keep.old keep.new fault) }
        ensures kept { OnErr result (self.new ≡ self.old) }
        ensures at_hand { IsSome (content_at place (at_hand_of birth self.old))
            → (keep.new ≡ keep.old) × (self.new ≡ self.old) }
    {
        match self.find(birth, place) {
            Some(content) => Ok(Some(content.clone()?)),
            None => self.read(alloc, keep, birth, place),
        }
    }

    /// What the copies at these places of a session's queue say, in the order of the places, where one
    /// stands; the bytes are shared. What isn't at hand is read from the store, with the 63 that follow: at
    /// most one read for each place, and after each the next 64 are at hand. If the places ascend, no
    /// stretch is read twice.
    pub fn fetch<K: Keep>(
        &mut self,
        alloc: Global,
        keep: &mut K,
        birth: u64,
        places: &[u64],
    ) -> Result<Vec<CopyContent>, KeepError>
        requires { K.is_loaded keep.old }
        ensures exact { (r : Records) → K.holds keep.old r → IsQueueInOrder birth r
            → SayWhatIsStored self.old r
            → IfOk result (λ all. K.is_sound keep.new → all.items ≡ contents_at birth places.now r) }

        // What is at hand stays what is stored, whatever the answer is.
        ensures stored { (r : Records) → K.holds keep.old r → IsQueueInOrder birth r
            → SayWhatIsStored self.old r → K.is_sound keep.new → SayWhatIsStored self.new r }

        // What the store has stays; it is asked at most once for each place, and not at all if all is at hand.
        ensures ok { OnOk result (WasAsked K.Keep (length places.now) keep.old keep.new) }
        ensures err { IfErr result (λ fault.
            HasFailed K.Keep (length places.now) keep.old keep.new fault) }
        ensures at_hand { AreAtHand self.old birth places.now
            → (keep.new ≡ keep.old) × (self.new ≡ self.old) }
    {
        let mut all = Vec::with_capacity(alloc, places.len())?;
        for place in places {
            let one = self.fetch_one(alloc, keep, birth, *place)?;
            add(&mut all, one)?;
        }
        Ok(all)
    }
}
