//! All sessions and all retained messages, in order.
ghost use Rattle.std.specs.Prelude.{◌≡◌};
ghost use Rattle.mqtt_records.specs.lists.Order.{IsAscending};
ghost use Rattle.mqtt_records.specs.state.Session.{birth_of};

use crate::step::Step;
use mqtt_records::{Boxed, RetainedMessage, Session};

impl Step {
    /// The sessions, by birth. Takes no memory.
    pub fn all_sessions(&self) -> &[Boxed<Session>]
        ensures sessions { result.now ≡ self.now.broker.records.sessions }
        ensures order { IsAscending birth_of self.now.broker.records.sessions }
    {
        self.tables.records().sessions.as_slice()
    }

    /// The retained messages, by place. Takes no memory.
    pub fn all_retained(&self) -> &[Boxed<RetainedMessage>]
        ensures { result.now ≡ self.now.broker.records.retained }
    {
        self.tables.records().retained.as_slice()
    }
}
