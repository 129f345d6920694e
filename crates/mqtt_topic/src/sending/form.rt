//! The forms in which the topic of a PUBLISH is said (MQTT 5.0, 3.3.2.1, 3.3.2.3.4).
ghost use Rattle.std.specs.Prelude.{◌≡◌};
ghost use Rattle.mqtt_topic.specs.sending.Told.{alias_in};

/// How the topic of a PUBLISH is said.
#[derive(Clone, Copy, Debug, PartialEq, Eq)]
pub enum Form {
    /// By itself, without an alias.
    Plain,
    /// By itself, with the alias that it gets by that.
    Named(u16),
    /// By the alias that it has, in place of the topic.
    Short(u16),
}

impl Form {
    /// The Topic Alias that stands in the packet (3.3.2.3.4).
    pub fn alias(self) -> Option<u16>
        ensures { result ≡ alias_in self }
    {
        match self {
            Form::Plain => None,
            Form::Named(alias) => Some(alias),
            Form::Short(alias) => Some(alias),
        }
    }
}
