//! What goes out, and what is told beside it.
ghost use Rattle.std.specs.Prelude.{◌≡◌, ◌∷◌, [], IsFalse, OnErr, OnOk, IfOk, IfErr};
ghost use Rattle.mqtt_packet.specs.codec.Packets.{HasSpelling, shortest_of};
ghost use Rattle.mqtt_packet.specs.declared.codec.packet.Packet.{Packet as ThePacket};
ghost use Rattle.mqtt_packet.specs.declared.codec.packet.Packet.TheVariants as packets;
ghost use Rattle.mqtt_packet.specs.declared.codec.publish.Publish.{Publish};
ghost use Rattle.mqtt_rules.specs.step.Deeds.{Send, RefuseWill, Whose, always};
ghost use Rattle.mqtt_broker_step.specs.Stepping.{Did, IsLeft, with_broker};
ghost use Rattle.mqtt_broker_step.specs.Tellings.{IsFoundBy, IsNoPublish, IsOutgoing, form_on, takes_aliases, told_also};
ghost use Rattle.mqtt_broker_step.specs.Undoing.{with_tellings};
ghost use Rattle.mqtt_rules.specs.step.Forms.{form_for};
ghost use Rattle.mqtt_rules.specs.step.State.{told_on};
ghost use Rattle.mqtt_topic.specs.sending.Told.{none_told};

use crate::fault::StepFault;
use crate::step::Step;
use bytes::Bytes;
use mqtt_base::Text;
use mqtt_packet::{Packet, encode};
use mqtt_rules::Report;
use mqtt_topic::{Form, OtherBytes, OutAliases};
use std::alloc::Global;

/// A PUBLISH as it goes out on a line.
#[derive(Drop)]
pub struct Outgoing {
    /// Its topic, if its form tells the client an alias for it (3.3.2.3.4).
    pub told: Option<Text>,
    /// Its shortest spelling (2.1.4). Copies that are sent as equal packets share it.
    pub bytes: Bytes,
}

/// A packet in its shortest spelling (2.1.4).
fn spelling(alloc: Global, packet: &Packet) -> Result<Bytes, StepFault>
    requires { HasSpelling packet.now }
    ensures exact { IfOk result (λ bytes. bytes ≡ shortest_of packet.now) }
    ensures fault { IfErr result (λ fault. fault ≡ StepFault.Memory) }
{
    match encode(alloc, packet) {
        Ok(frame) => Ok(Bytes::from_vec(frame)?),
        Err(_) => Err(StepFault::Memory),
    }
}

impl Step {
    /// A packet that is no PUBLISH goes out on a line, in the bytes that are its shortest spelling (2.1.4).
    pub fn send_spelled(&mut self, line: u64, bytes: Bytes) -> Result<(), StepFault>
        ensures ok { (packet : ThePacket) → IsNoPublish packet → bytes ≡ shortest_of packet
            → OnOk result (Did (always (Send line packet ∷ [])) self.old self.new) }
        ensures left { (packet : ThePacket) → IfErr result (λ fault.
            IsLeft (always (Send line packet ∷ [])) fault self.old self.new) }
    {
        self.put_out(line, bytes)
    }

    /// The client on a line is told a topic, if there is one to tell. A refusal changes nothing.
    fn tell_topic(&mut self, line: u64, told: Option<Text>) -> Result<(), StepFault>
        ensures ok { OnOk result (self.new ≡ with_broker (with_tellings
            (told_also line told self.old.broker.tellings) self.old.broker) self.old) }
        ensures err { OnErr result (self.new ≡ self.old) }
        ensures fault { IfErr result (λ fault. fault ≡ StepFault.Memory) }
    {
        if let Some(topic) = told {
            self.tables.tell(line, &topic)?;
        }
        Ok(())
    }

    /// Whether there is a table of what the client on a line was told of topics: it is connected there, and takes
    /// aliases. If not, each PUBLISH goes out plain (3.1.2.11.5, 3.3.2.3.4). Takes no memory.
    pub fn takes_aliases(&self, line: u64) -> bool
        ensures exact { result ≡ takes_aliases line self.now.broker }
        ensures plain { IsFalse result → (p : Publish) → form_on line p self.now.broker ≡ Form.Plain }
        ensures untold { IsFalse result → told_on line self.now.broker.tellings ≡ none_told 0 }
    {
        self.tables.telling(line).is_some()
    }

    /// What the client on a line was told of topics, in a table of its own; nothing, nor may it be told any, if it takes
    /// no aliases (3.3.2.3.4).
    pub fn told_topics(&self, line: u64) -> Result<OutAliases, StepFault>
        ensures ok { IfOk result (λ told. told ≡ told_on line self.now.broker.tellings) }
        ensures fault { IfErr result (λ fault. fault ≡ StepFault.Memory) }
    {
        let Some(telling) = self.tables.telling(line) else {
            return Ok(OutAliases::new(self.alloc, 0));
        };
        match telling.topics().copied(self.alloc) {
            Ok(told) => Ok(told),
            Err(_) => Err(StepFault::Memory),
        }
    }

    /// The form in which a PUBLISH goes out on a line to a client that takes so many bytes, by its topic and its other
    /// bytes: the first that is within; none if it is too large in each (3.1.2.11.4, 3.3.2.3.4). Takes no memory.
    pub fn form_within(
        &self,
        line: u64,
        largest: u32,
        topic: &Text,
        other: OtherBytes,
    ) -> Option<Form>
        ensures { (p : Publish) → p.topic ≡ topic.now → IsFoundBy other p
            → result ≡ form_for largest (told_on line self.now.broker.tellings) p }
    {
        match self.tables.telling(line) {
            Some(telling) => telling.topics().form_for(largest, topic, other),
            None => OutAliases::new(self.alloc, 0).form_for(largest, topic, other),
        }
    }

    /// The form in which a PUBLISH goes out on a line, by its topic and its other bytes: the first that is within
    /// the client's Maximum Packet Size, and plain if none is (3.1.2.11.4, 3.3.2.3.4). Takes no memory.
    pub fn form_of(&self, line: u64, topic: &Text, other: OtherBytes) -> Form
        ensures { (p : Publish) → p.topic ≡ topic.now → IsFoundBy other p
            → result ≡ form_on line p self.now.broker }
    {
        let Some(state) = self.line(line) else {
            return Form::Plain;
        };
        let Some(telling) = self.tables.telling(line) else {
            return Form::Plain;
        };
        match telling.topics().form_for(state.largest(), topic, other) {
            Some(form) => form,
            None => Form::Plain,
        }
    }

    /// A PUBLISH goes out on a line as it does there; if it names its topic, the client is told it (3.3.2.3.4).
    pub fn send_publish(&mut self, line: u64, out: Outgoing) -> Result<(), StepFault>
        ensures ok { (p : Publish) → IsOutgoing line p self.old.broker out
            → OnOk result (Did (always (Send line (packets.Publish p) ∷ [])) self.old self.new) }
        ensures left { (packet : ThePacket) → IfErr result (λ fault.
            IsLeft (always (Send line packet ∷ [])) fault self.old self.new) }
    {
        let Outgoing { told, bytes } = out;
        match self.tell_topic(line, told) {
            Ok(()) => self.put_out(line, bytes),
            Err(fault) => {
                drop(bytes);
                Err(fault)
            }
        }
    }

    /// A packet that is no PUBLISH goes out on a line (2.1.4).
    pub fn send(&mut self, line: u64, packet: &Packet) -> Result<(), StepFault>
        requires spelled { HasSpelling packet.now }
        requires other { IsNoPublish packet.now }
        ensures ok { OnOk result (Did (always (Send line packet.now ∷ [])) self.old self.new) }
        ensures left { IfErr result (λ fault.
            IsLeft (always (Send line packet.now ∷ [])) fault self.old self.new) }
    {
        let bytes = spelling(self.alloc, packet)?;
        self.send_spelled(line, bytes)
    }

    /// A Will is refused and dropped (3.1.2.5).
    pub fn refuse_will(&mut self, birth: u64, client: Text) -> Result<(), StepFault>
        ensures ok { (who : Whose) → who.birth ≡ birth → who.client ≡ client
            → OnOk result (Did (always (RefuseWill who ∷ [])) self.old self.new) }
        ensures left { (who : Whose) → IfErr result (λ fault.
            IsLeft (always (RefuseWill who ∷ [])) fault self.old self.new) }
    {
        self.tell(Report::WillRefused { birth, client })
    }
}
