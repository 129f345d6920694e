//! A step that is stored leaves slim the copies that it put; copies are filled before a pump, and made slim after it
//! (MQTT 5.0, 3.3, 4.1).
ghost use Rattle.std.specs.Prelude.{◌≡◌, ◌↔◌, false, IsTrue};
ghost use Rattle.mqtt_records.specs.state.Slim.{all_slim};
ghost use Rattle.mqtt_keep.specs.by_name.Slimming.{slim_places, whole_places, TakesAll};
ghost use Rattle.mqtt_broker_step.specs.Undoing.{with_records};
ghost use Rattle.mqtt_broker_step.specs.Stepping.{at_rest, with_entered_slim};

use crate::call::{Outcome, take_told};
use crate::step::Step;
use mqtt_records::CopyContent;

impl Step {
    /// The copies at these places of a session's queue say nothing but their topics, while no step is under way: those that
    /// a pump filled. Nothing changes where none stands. Takes no memory.
    pub fn make_slim(&mut self, birth: u64, places: &[u64])
        requires rest { self.old ≡ at_rest self.old.limits self.old.broker }
        ensures { self.new ≡ at_rest self.old.limits (with_records
            (slim_places birth places.now self.old.broker.records) self.old.broker) }
    {
        self.tables.make_slim(birth, places);
        self.rows.clear();
    }

    /// All copies say nothing but their topics, while no step is under way: those that an opening loaded. Takes no memory.
    pub fn make_all_slim(&mut self)
        requires rest { self.old ≡ at_rest self.old.limits self.old.broker }
        ensures { self.new ≡ at_rest self.old.limits
            (with_records (all_slim self.old.broker.records) self.old.broker) }
    {
        self.tables.make_all_slim();
        self.rows.clear();
    }

    /// Has copies of a session's queue say what is told of them, while no step is under way. All or none: false, and
    /// nothing changes, if one of them doesn't stand, or has other bytes. Takes no memory.
    pub fn fill(&mut self, birth: u64, contents: Vec<CopyContent>) -> bool
        requires rest { self.old ≡ at_rest self.old.limits self.old.broker }
        ensures exact { IsTrue result
            ↔ TakesAll birth contents.items self.old.broker.records }
        ensures ok { IsTrue result → self.new ≡ at_rest self.old.limits (with_records
            (whole_places birth contents.items self.old.broker.records) self.old.broker) }
        ensures err { result ≡ false → self.new ≡ self.old }
    {
        let filled = self.tables.fill(birth, contents);
        self.rows.clear();
        filled
    }

    /// The step is done, once the store has its rows: the copies that these put say nothing but their topics, as far as they
    /// stand still. Takes no memory.
    pub fn settle_slim(&mut self) -> Outcome
        ensures step { self.new ≡ at_rest self.old.limits (with_entered_slim self.old) }
        ensures outputs { result.outputs.items ≡ self.old.outputs }
        ensures closed { result.closed.items ≡ self.old.closed }
        ensures reports { result.reports.items ≡ self.old.reports }
    {
        self.tables.settle_slim(&self.rows);
        self.rows.clear();
        take_told(
            self.alloc,
            &mut self.outputs,
            &mut self.closed,
            &mut self.reports,
        )
    }
}
