//! What the packets of a receiver do to a session's outbound copies (4.3).

ghost use Rattle.std.specs.Prelude.{◌≡◌, ◌≤◌};
ghost use Rattle.mqtt_flow.specs.outbound.Outbound.{after_answer, ending_by, is_refusal, order_asked, puback, puback_by, pubcomp, pubcomp_by, pubrec, pubrec_by};

use crate::inbound::FlowFault;
use crate::outbound::entry::Turn;
use crate::outbound::look::{look_puback, look_pubcomp, look_pubrec};
use crate::outbound::outflow::Outflow;
use crate::outbound::row::Entries;
use mqtt_base::{Ending, LAST_NUMBER, Phase, Qos, Reason};

/// The end that a reason code gives.
fn ending_of(code: Reason) -> Ending
    ensures { result ≡ ending_by (is_refusal code.0) }
{
    if code.0 >= 0x80 {
        Ending::Refused
    } else {
        Ending::Taken
    }
}

/// What a PUBACK asks for, by the copy that has its identifier (4.3.2).
pub(crate) fn puback_by(
    phase: Phase,
    qos: Qos,
    code: Reason,
    place: u64,
) -> Result<Option<Turn>, FlowFault>
    ensures { result ≡ puback_by phase qos code.0 place }
{
    match (phase, qos) {
        (Phase::Sent { .. }, Qos::AtLeastOnce) => Ok(Some(Turn::Leave {
            place,
            ending: ending_of(code),
        })),
        _ => Err(FlowFault::WrongStep),
    }
}

/// What a PUBREC asks for, by the copy that has its identifier (4.3.3); a release gives it this order.
pub(crate) fn pubrec_by(
    phase: Phase,
    qos: Qos,
    code: Reason,
    place: u64,
    order: u64,
) -> Result<Option<Turn>, FlowFault>
    ensures { result ≡ pubrec_by phase qos code.0 place order }
{
    match (phase, qos) {
        (Phase::Sent { identifier }, Qos::ExactlyOnce) => Ok(Some(match ending_of(code) {
            Ending::Refused => Turn::Leave {
                place,
                ending: Ending::Refused,
            },
            _ => Turn::Release {
                place,
                identifier,
                order,
            },
        })),
        (Phase::Released { identifier, .. } | Phase::Oversize { identifier, .. }, _) => Ok(Some(
            Turn::Repeat { identifier },
        )),
        _ => Err(FlowFault::WrongStep),
    }
}

/// What a PUBCOMP asks for, by the copy that has its identifier (4.3.3).
pub(crate) fn pubcomp_by(phase: Phase, place: u64) -> Result<Option<Turn>, FlowFault>
    ensures { result ≡ pubcomp_by phase place }
{
    match phase {
        Phase::Released { .. } => Ok(Some(Turn::Leave {
            place,
            ending: Ending::Taken,
        })),
        Phase::Oversize { .. } => Ok(Some(Turn::Leave {
            place,
            ending: Ending::TooLarge,
        })),
        Phase::Waiting | Phase::Sent { .. } => Err(FlowFault::WrongStep),
    }
}

impl Outflow {
    /// What a PUBACK asks for: a turn, or none if no copy has the identifier (4.3.2). Takes no
    /// memory.
    pub fn look_puback(&self, identifier: u16, code: Reason) -> Result<Option<Turn>, FlowFault>
        ensures { result ≡ puback identifier code.0 self.now.queue }
    {
        look_puback::<Entries>(self.entries(), identifier, code)
    }

    /// What a PUBREC asks for (4.3.3). Takes no memory.
    pub fn look_pubrec(&self, identifier: u16, code: Reason) -> Result<Option<Turn>, FlowFault>
        ensures { result ≡ pubrec identifier code.0 self.now.queue }
    {
        look_pubrec::<Entries>(self.entries(), identifier, code)
    }

    /// What a PUBCOMP asks for: a turn, or none if no copy has the identifier (4.3.3). Takes no
    /// memory.
    pub fn look_pubcomp(&self, identifier: u16) -> Result<Option<Turn>, FlowFault>
        ensures { result ≡ pubcomp identifier self.now.queue }
    {
        look_pubcomp::<Entries>(self.entries(), identifier)
    }

    /// Does what an answer asks for.
    fn settle(&mut self, answer: Result<Option<Turn>, FlowFault>)
        requires { order_asked answer ≤ LAST_NUMBER }
        ensures queue { self.new.queue ≡ after_answer answer self.old.queue }
        ensures room { self.old.room ≤ self.new.room }
    {
        if let Ok(Some(turn)) = answer {
            self.take(turn);
        }
    }

    /// Takes a PUBACK (4.3.2): the turn taken, or none if no copy has the identifier. Takes no
    /// memory.
    pub fn puback(&mut self, identifier: u16, code: Reason) -> Result<Option<Turn>, FlowFault>
        ensures answer { result ≡ puback identifier code.0 self.old.queue }
        ensures queue { self.new.queue ≡ after_answer result self.old.queue }
    {
        let answer = self.look_puback(identifier, code);
        self.settle(answer);
        answer
    }

    /// Takes a PUBREC (4.3.3): the turn taken. Takes no memory.
    pub fn pubrec(&mut self, identifier: u16, code: Reason) -> Result<Option<Turn>, FlowFault>
        requires { order_asked (pubrec identifier code.0 self.old.queue) ≤ LAST_NUMBER }
        ensures answer { result ≡ pubrec identifier code.0 self.old.queue }
        ensures queue { self.new.queue ≡ after_answer result self.old.queue }
    {
        let answer = self.look_pubrec(identifier, code);
        self.settle(answer);
        answer
    }

    /// Takes a PUBCOMP (4.3.3): the turn taken, or none if no copy has the identifier. Takes no
    /// memory.
    pub fn pubcomp(&mut self, identifier: u16) -> Result<Option<Turn>, FlowFault>
        ensures answer { result ≡ pubcomp identifier self.old.queue }
        ensures queue { self.new.queue ≡ after_answer result self.old.queue }
    {
        let answer = self.look_pubcomp(identifier);
        self.settle(answer);
        answer
    }
}
