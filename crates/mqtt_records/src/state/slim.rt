//! Copies in queues that say nothing but their topic in memory, and what fills them again (3.3, 4.1).
ghost use Rattle.std.specs.Prelude.{◌≡◌, ◌↔◌, IsTrue, false};
ghost use Rattle.mqtt_records.specs.state.Slim.{all_slim, slim_at, whole_at, TakesIn};

use crate::lists::{Fillable, Slimmable};
use crate::messages::CopyContent;
use crate::state::records::Records;
use crate::state::session::{Session, SessionPart};

impl Fillable for Session {
    type Filling = CopyContent;

    ghost use Rattle.mqtt_records.specs.state.Session.{with_filled, HasRowFor};

    ghost fits = { HasRowFor };

    ghost filled = { with_filled };

    fn fill_in(&mut self, content: CopyContent) -> bool {
        let place = content.place();
        self.queue.fill(place, content)
    }

    ghost use Rattle.std.proofs.Common.{refl};

    ghost filled_key = { λ content session. refl };
}

impl Slimmable for Session {
    ghost use Rattle.mqtt_records.specs.state.Session.{with_all_slim};

    ghost slimmed = { with_all_slim };

    fn leave_out(&mut self) {
        self.queue.leave_out();
    }

    ghost use Rattle.std.proofs.Common.{refl};

    ghost slimmed_key = { λ session. refl };
}

impl Records {
    /// Leaves nothing in memory of the copy at a place of a session's queue but what rules read and its topic. Nothing
    /// changes if there is none. Takes no memory.
    pub fn make_slim(&mut self, birth: u64, place: u64)
        ensures { self.new ≡ slim_at birth place self.old }
    {
        self.sessions.edit(birth, SessionPart::SlimCopy { place });
    }

    /// Leaves nothing in memory of any copy in a queue but what rules read and its topic. Takes no memory.
    pub fn make_all_slim(&mut self)
        ensures { self.new ≡ all_slim self.old }
    {
        self.sessions.leave_out();
    }

    /// Has the copy at this place of a session's queue say what is told of it. Nothing changes if there is none, or if it
    /// has other bytes. Takes no memory.
    pub fn fill(&mut self, birth: u64, content: CopyContent) -> bool
        ensures exact { IsTrue result ↔ TakesIn birth content self.old }
        ensures ok { IsTrue result → self.new ≡ whole_at birth content self.old }
        ensures err { result ≡ false → self.new ≡ self.old }
    {
        self.sessions.fill(birth, content)
    }
}
