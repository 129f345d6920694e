//! A line is linked (MQTT 5.0, 3.1, 4.2).
ghost use Rattle.std.specs.Prelude.{◌≡◌, suc, length};
ghost use Rattle.mqtt_records.specs.lists.Order.{IsBelow};
ghost use Rattle.mqtt_rules.specs.step.Step.{at_moment, can_link, takes_line};
ghost use Rattle.mqtt_broker_step.specs.Lines.{line_number};
ghost use Rattle.mqtt_broker_step.specs.Undoing.{with_linked};
ghost use Rattle.mqtt_broker_step.specs.Doing.{links, next_line, after_act};
ghost use Rattle.mqtt_broker_step.specs.Stepping.{at_rest};

use crate::line::LineState;
use crate::step::Step;
use mqtt_base::{LAST_NUMBER, LINE_LIMIT};

impl Step {
    /// Whether there is room for a further line: fewer stand than the limits say, and than the tables hold.
    fn takes_line(&self) -> bool
        ensures { result ≡ takes_line self.now.limits (length self.now.broker.lines) }
    {
        let count = self.lines().len();
        count < self.limits.lines as usize && count < LINE_LIMIT
    }

    /// Whether a further line may be linked: there is room for it, and fewer than 2^62 were linked. Takes no memory.
    pub fn may_link(&self) -> bool
        ensures { result ≡ can_link self.now.limits self.now.broker }
    {
        self.takes_line() && self.tables.given() < LAST_NUMBER
    }

    /// The number that the next line gets, if one may be linked.
    fn next_line(&self) -> Option<u64>
        ensures { result ≡ next_line self.now.limits self.now.broker }
    {
        let given = self.tables.given();
        if self.takes_line() && given < LAST_NUMBER {
            Some(given + 1)
        } else {
            None
        }
    }

    /// The moment is the greatest handed in, while no step is under way. Takes no memory.
    pub fn rest_at(&mut self, moment: u64)
        requires { self.old ≡ at_rest self.old.limits self.old.broker }
        ensures { self.new ≡ at_rest self.old.limits (at_moment moment self.old.broker) }
    {
        let moment = self.tables.moment().max(moment.min(LAST_NUMBER));
        self.tables.rest_at(moment);
        self.rows.clear();
    }

    /// A line more stands.
    fn add_line(&mut self, line: LineState)
        requires { self.old ≡ at_rest self.old.limits self.old.broker }
        ensures { self.new ≡ at_rest self.old.limits (with_linked line self.old.broker) }
    {
        self.tables.add_line(line);
        self.rows.clear();
    }

    /// A line is linked at a moment in milliseconds, while no step is under way, and gets the next number: 1 for the
    /// first. None if there is no room for it, or 2^62 were linked. Takes no memory.
    pub fn link(&mut self, moment: u64) -> Option<u64>
        requires rest { self.old ≡ at_rest self.old.limits self.old.broker }
        requires given { IsBelow line_number (suc self.old.broker.given) self.old.broker.lines }
        ensures line { result ≡ next_line self.old.limits self.old.broker }
        ensures step { self.new
            ≡ at_rest self.old.limits (after_act (links self.old.limits) (at_moment moment self.old.broker)) }
    {
        self.rest_at(moment);
        let number = self.next_line()?;
        let line = LineState::new(self.alloc, number, self.moment());
        self.add_line(line);
        Some(number)
    }
}
