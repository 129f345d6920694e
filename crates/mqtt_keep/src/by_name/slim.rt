//! Copies in memory that say nothing but their topics after a step, and copies that are filled for a pump (MQTT 5.0,
//! 3.3, 4.1).
ghost use Rattle.std.specs.Prelude.{◌≡◌, ◌↔◌, IsTrue, false};
ghost use Rattle.mqtt_records.specs.state.Slim.{all_slim, slim_at, whole_at, TakesIn};
ghost use Rattle.mqtt_keep.specs.by_name.Slimming.{slim_places, slim_put, slim_entered, whole_places, TakesAll};

use crate::by_name::named::NamedRecords;
use mqtt_records::{Change, CopyContent};

impl NamedRecords {
    /// The copy at a place of a session's queue says nothing but its topic, if it stands.
    fn make_slim_at(&mut self, birth: u64, place: u64)
        ensures { self.new ≡ slim_at birth place self.old }
    {
        self.records.make_slim(birth, place);
    }

    /// The copies at these places of a session's queue say nothing but their topics. Nothing changes where none stands.
    /// Takes no memory.
    pub fn make_slim(&mut self, birth: u64, places: &[u64])
        ensures { self.new ≡ slim_places birth places.now self.old }
    {
        for place in places {
            self.make_slim_at(birth, *place);
        }
    }

    /// The copy that a change put says nothing but its topic, if it stands still.
    fn make_put_slim(&mut self, change: &Change)
        ensures { self.new ≡ slim_put change.now self.old }
    {
        match change {
            Change::PutCopy { birth, row } => self.make_slim_at(*birth, row.get().place()),
            Change::SetCounter { .. }
            | Change::PutSession { .. }
            | Change::SetSession { .. }
            | Change::RemoveSession { .. }
            | Change::PutWill { .. }
            | Change::RemoveWill { .. }
            | Change::PutSubscription { .. }
            | Change::RemoveSubscription { .. }
            | Change::PutInbound { .. }
            | Change::RemoveInbound { .. }
            | Change::SetCopy { .. }
            | Change::RemoveCopy { .. }
            | Change::PutRetained { .. }
            | Change::RemoveRetained { .. } => {}
        }
    }

    /// The copies that these changes put, as far as they stand still, say nothing but their topics. Takes no memory, and a
    /// search for each change.
    pub fn make_entered_slim(&mut self, changes: &[Change])
        ensures { self.new ≡ slim_entered changes.now self.old }
    {
        for change in changes {
            self.make_put_slim(change);
        }
    }

    /// All copies say nothing but their topics. Takes no memory.
    pub fn make_all_slim(&mut self)
        ensures { self.new ≡ all_slim self.old }
    {
        self.records.make_all_slim();
    }

    /// Whether the copy at the place of what is told stands, of as many bytes.
    fn takes_in(&self, birth: u64, content: &CopyContent) -> bool
        ensures { IsTrue result ↔ TakesIn birth content.now self.now }
    {
        let Some(session) = self.records.sessions.get(birth) else {
            return false;
        };
        let Some(row) = session.get().queue.get(content.place()) else {
            return false;
        };
        row.get().has_bytes(content)
    }

    /// Whether a copy stands at the place of each, of as many bytes.
    fn takes_all(&self, birth: u64, contents: &[CopyContent]) -> bool
        ensures { IsTrue result ↔ TakesAll birth contents.now self.now }
    {
        for content in contents {
            if !self.takes_in(birth, content) {
                return false;
            }
        }
        true
    }

    /// The copy at the place of what is told says that.
    fn take_in(&mut self, birth: u64, content: CopyContent)
        requires { TakesIn birth content self.old }
        ensures { self.new ≡ whole_at birth content self.old }
    {
        let _taken = self.records.fill(birth, content);
    }

    /// Has the copies of a session's queue say what is told of them, all or none: false, and nothing changes, if one of
    /// them doesn't stand, or has other bytes. Takes no memory.
    pub fn fill(&mut self, birth: u64, contents: Vec<CopyContent>) -> bool
        ensures exact { IsTrue result ↔ TakesAll birth contents.items self.old }
        ensures ok { IsTrue result → self.new ≡ whole_places birth contents.items self.old }
        ensures err { result ≡ false → self.new ≡ self.old }
    {
        if !self.takes_all(birth, &contents) {
            drop(contents);
            return false;
        }
        for content in contents {
            self.take_in(birth, content);
        }
        true
    }
}
