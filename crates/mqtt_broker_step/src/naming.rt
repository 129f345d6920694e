//! A session by its client identifier, and how many stand (MQTT 5.0, 3.1.3.1, 4.1).
ghost use Rattle.std.specs.Prelude.{◌≡◌, Some, length, option_copied};
ghost use Rattle.mqtt_records.specs.declared.state.session.Session.{Session as TheSession};
ghost use Rattle.mqtt_rules.specs.step.State.{session_at, session_named};

use crate::step::Step;
use mqtt_records::Session;

impl Step {
    /// The session of a client identifier, if it stands. Takes no memory.
    pub fn session_named(&self, client: &str) -> Option<&Session>
        ensures found { option_copied result ≡ session_named client.now self.now.broker.records }

        // It is found by its birth too.
        ensures stands { (s : TheSession)
            → session_named client.now self.now.broker.records ≡ Some s
            → session_at s.birth self.now.broker.records ≡ Some s }
    {
        self.show_order();
        self.tables.session_named(client)
    }

    /// How many sessions stand. Takes no memory.
    pub fn sessions_len(&self) -> usize
        ensures { result ≡ length self.now.broker.records.sessions }
    {
        self.tables.records().sessions.len()
    }

    /// The most sessions that may stand (ours). Takes no memory.
    pub fn session_limit(&self) -> usize
        ensures { result ≡ self.now.limits.sessions }
    {
        self.limits.sessions as usize
    }
}
