//! The deed of a Topic Alias (MQTT 5.0, 3.3.2.3.4).
ghost use Rattle.std.specs.Prelude.{◌≡◌, ◌∷◌, [], Some, OnOk, OnErr, IfErr};
ghost use Rattle.mqtt_records.specs.lists.Order.{row_at, change_row};
ghost use Rattle.mqtt_topic.specs.names.Aliases.{IsInRange};
ghost use Rattle.mqtt_rules.specs.step.State.{Line};
ghost use Rattle.mqtt_rules.specs.step.Deeds.{SetAlias, On, always};
ghost use Rattle.mqtt_broker_step.specs.Lines.{line_number, with_alias};
ghost use Rattle.mqtt_broker_step.specs.Undoing.{with_lines};
ghost use Rattle.mqtt_broker_step.specs.Stepping.{Did, IsLeft, with_broker};

use crate::fault::StepFault;
use crate::step::Step;
use mqtt_topic::TopicName;

impl Step {
    /// Makes an alias of a line stand for a topic. A refusal changes nothing.
    fn edit_alias(&mut self, line: u64, alias: u16, topic: &TopicName) -> Result<(), StepFault>
        requires { (l : Line) → row_at line_number line self.old.broker.lines ≡ Some l
            → IsInRange l.aliases.max alias }
        ensures ok { OnOk result (self.new ≡ with_broker (with_lines
            (change_row line_number line (with_alias alias topic.now) self.old.broker.lines)
            self.old.broker) self.old) }
        ensures err { OnErr result (self.new ≡ self.old) }
        ensures fault { IfErr result (λ fault. fault ≡ StepFault.Memory) }
    {
        self.tables.set_alias(line, alias, topic)?;
        Ok(())
    }

    /// A Topic Alias of a line stands for a topic from now on (3.3.2.3.4).
    pub fn set_alias(&mut self, line: u64, alias: u16, topic: &TopicName) -> Result<(), StepFault>
        requires range { (l : Line) → row_at line_number line self.old.broker.lines ≡ Some l
            → IsInRange l.aliases.max alias }
        ensures ok { OnOk result (Did (always (On line (SetAlias alias topic.now) ∷ []))
            self.old self.new) }
        ensures left { IfErr result (λ fault. IsLeft
            (always (On line (SetAlias alias topic.now) ∷ [])) fault self.old self.new) }
    {
        self.edit_alias(line, alias, topic)
    }
}
