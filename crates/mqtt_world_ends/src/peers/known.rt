//! What topic aliases stand for to an end, on its line (MQTT 5.0, 3.3.2.3.4).

ghost use Rattle.std.specs.Prelude.{◌≡◌, IfErr, IfOk, OnErr, OnOk};
ghost use Rattle.mqtt_topic.specs.names.Aliases.{RefusesAlias, Resolves, after_resolve, no_aliases};

use mqtt_topic::{Aliases, TopicFault, TopicName};
use std::alloc::Global;
use std::marker::Model;

/// The topics that aliases stand for, of an end that takes so many.
#[derive(Drop)]
pub(crate) struct Known {
    alloc: Global,
    max: u16,
    table: Aliases,
}

impl Model for Known {
    ghost use Rattle.std.specs.Prelude.{◌≡◌};
    ghost use Rattle.mqtt_topic.specs.names.Aliases.{AliasTable};

    ghost Value = { AliasTable };

    ghost view = { λ k. k.table.table };

    ghost invariant = { λ k. k.table.table.max ≡ k.max };
}

impl Known {
    /// No alias stands for anything yet. Takes no memory.
    pub(crate) fn new(alloc: Global, max: u16) -> Known
        ensures { result ≡ no_aliases max }
    {
        Known {
            alloc,
            max,
            table: Aliases::new(alloc, max),
        }
    }

    /// No alias stands for anything any more. Takes no memory.
    pub(crate) fn forget(&mut self)
        ensures { self.new ≡ no_aliases self.old.max }
    {
        self.table = Aliases::new(self.alloc, self.max);
    }

    /// The topic that a PUBLISH with this topic and alias means; a topic beside an alias is what that stands for from then
    /// on. If it means none, nothing changes.
    pub(crate) fn resolve(
        &mut self,
        topic: &str,
        alias: Option<u16>,
    ) -> Result<TopicName, TopicFault>
        ensures found { IfOk result (Resolves self.old topic.now alias) }
        ensures ok { OnOk result (self.new ≡ after_resolve self.old topic.now alias) }
        ensures refused { IfErr result (RefusesAlias self.old topic.now alias) }
        ensures err { OnErr result (self.new ≡ self.old) }
    {
        self.table.resolve(topic, alias)
    }
}
