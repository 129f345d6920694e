//! What the client on a line was told of topics (MQTT 5.0, 3.3.2.3.4).
ghost use Rattle.std.specs.Prelude.{◌≡◌, OnErr, OnOk, length};
ghost use Rattle.mqtt_topic.specs.sending.Told.{none_told};
ghost use Rattle.mqtt_broker_step.specs.Tellings.{telling_more};

use mqtt_base::Text;
use mqtt_records::{Editable, Row};
use mqtt_topic::OutAliases;
use std::alloc::{AllocError, Global};
use std::marker::Model;

/// The topics that the client on a line was told by aliases, from its CONNECT on.
#[derive(Drop)]
pub struct LineTopics {
    line: u64,
    topics: OutAliases,
}

impl Model for LineTopics {
    ghost use Rattle.mqtt_rules.specs.step.State.{Telling};

    ghost Value = { Telling };

    ghost view = { λ a. record { line = a.line; topics = a.topics } };
}

impl LineTopics {
    /// Of a client that takes so many aliases, and was told nothing. Takes no memory.
    pub(crate) fn new(alloc: Global, line: u64, most: u16) -> LineTopics
        ensures { result ≡ record { line = line; topics = none_told most } }
    {
        LineTopics {
            line,
            topics: OutAliases::new(alloc, most),
        }
    }

    /// The topics. Takes no memory.
    pub(crate) fn topics(&self) -> &OutAliases
        ensures { result.now ≡ self.now.topics }
    {
        &self.topics
    }

    /// A further topic is told, if an alias is free for it. Want of memory changes nothing.
    pub(crate) fn tell(&mut self, topic: &Text) -> Result<(), AllocError>
        ensures ok { OnOk result (self.new ≡ telling_more topic.now self.old) }
        ensures err { OnErr result (self.new ≡ self.old) }
    {
        match self.topics.tell(topic) {
            Ok(_) => Ok(()),
            Err(_) => Err(AllocError),
        }
    }
}

impl Row for LineTopics {
    ghost use Rattle.mqtt_rules.specs.step.State.{told_line};

    ghost key_of = { told_line };

    fn key(&self) -> u64 {
        self.line
    }
}

// So many of the topics stay told, and those behind them are forgotten.
impl Editable for LineTopics {
    type Part = usize;

    ghost use Rattle.std.specs.Prelude.{refl};
    ghost use Rattle.mqtt_broker_step.specs.Tellings.{telling_cut};

    ghost edited = { telling_cut };

    fn edit(&mut self, part: usize) {
        self.topics.shorten(part);
    }

    ghost key_kept = { λ part row. refl };
}
