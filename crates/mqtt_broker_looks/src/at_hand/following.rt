//! What is at hand goes along with the changes of a committed step (MQTT 5.0, 4.1, 4.6).
ghost use Rattle.std.specs.Prelude.{◌≡◌, ℕ, IsTrue};
ghost use Rattle.mqtt_records.specs.declared.state.records.Records.{Records};
ghost use Rattle.mqtt_records.specs.state.Records.{FitAll, changed_all};
ghost use Rattle.mqtt_broker_looks.specs.at_hand.Following.{HasFollowed, HasFollowedAll, followed, followed_all};
ghost use Rattle.mqtt_broker_looks.specs.at_hand.Hand.{SayWhatIsStored, at_hand_of};

use crate::at_hand::hand::AllAtHand;
use mqtt_records::Change;
use std::alloc::Global;

impl AllAtHand {
    /// Goes along with one change.
    fn follow_one(&mut self, alloc: Global, change: &Change) -> bool
        ensures all { (birth : ℕ) → IsTrue result
            → at_hand_of birth self.new ≡ followed birth change.now (at_hand_of birth self.old) }
        ensures each { (birth : ℕ) → HasFollowed birth change.now (at_hand_of birth self.old) (at_hand_of birth self.new) }
    {
        match change {
            Change::PutCopy { birth, row } => self.enter(alloc, *birth, row.get()),
            Change::RemoveCopy { birth, place } => {
                self.leave(*birth, *place);
                true
            }
            Change::RemoveSession { birth } => {
                self.clear(*birth);
                true
            }
            _ => true,
        }
    }

    /// Goes along with the changes of a committed step: what a copy says that is put is at hand if it may
    /// be, and what is removed isn't any more. True if memory wasn't wanting and each copy that is put is
    /// whole in memory. Else nothing is at hand any more of the sessions whose copies these are, at that
    /// change; for the rest it goes along.
    pub fn follow(&mut self, alloc: Global, changes: &[Change]) -> bool
        ensures all { (birth : ℕ) → IsTrue result
            → at_hand_of birth self.new ≡ followed_all birth changes.now (at_hand_of birth self.old) }
        ensures each { (birth : ℕ)
            → HasFollowedAll birth changes.now (at_hand_of birth self.old) (at_hand_of birth self.new) }

        // What is at hand stays what is stored.
        ensures stored { (r : Records) → SayWhatIsStored self.old r → FitAll changes.now r
            → SayWhatIsStored self.new (changed_all changes.now r) }
    {
        let mut is_all = true;
        for change in changes {
            is_all = self.follow_one(alloc, change) && is_all;
        }
        is_all
    }
}
