//! A turn of sending: what the copies say that will be sent is fetched first (MQTT 5.0, 3.3, 4.6, 4.9).
ghost use Rattle.std.specs.Prelude.{◌≡◌, ℕ, true, false, List, IfErr, IfOk, Some};
ghost use Rattle.mqtt_base.specs.declared.limits.TheConstants.{PUMP_LIMIT};
ghost use Rattle.mqtt_records.specs.messages.Filling.{Fillings};
ghost use Rattle.mqtt_records.specs.declared.state.records.Records.{Records};
ghost use Rattle.mqtt_rules.specs.step.Contents.{HasLawfulContents};
ghost use Rattle.mqtt_rules.specs.step.Lines.{session_on};
ghost use Rattle.mqtt_rules.specs.step.Step.{Pump, at_moment};
ghost use Rattle.mqtt_rules.specs.alike.Alike.{AlikeBrokers, AlikeRecords};
ghost use Rattle.mqtt_rules.specs.alike.Slim.{slim_broker};
ghost use Rattle.mqtt_rules.specs.filling.Entered.{AreSlimBut, places_of};
ghost use Rattle.mqtt_rules.specs.filling.Filling.{AreFilledBy};
ghost use Rattle.mqtt_rules.specs.filling.Pumped.{sent_places};
ghost use Rattle.mqtt_broker_looks.specs.at_hand.Hand.{contents_at};
ghost use Rattle.mqtt_broker_looks.specs.at_hand.Reading.{AskedAtMost};
ghost use Rattle.mqtt_broker_step.specs.Stepping.{at_rest};
ghost use Rattle.mqtt_broker_queue.specs.queues.Queues.{HasKeptOrders};
ghost use Rattle.mqtt_broker_queue.specs.queues.Turning.{line_turns};
ghost use Rattle.mqtt_broker.specs.stored.Calling.{Called};
ghost use Rattle.mqtt_broker.specs.stored.Finishing.{IsAtRest};
ghost use Rattle.mqtt_broker.specs.stored.Pumping.{AreFilledAt};
ghost use Rattle.mqtt_broker.specs.stored.Viewing.{viewed};

use crate::stored::finishing::has_failed;
use crate::stored::outcome::Outcome;
use crate::stored::parts::EngineParts;
use mqtt_broker_acts::calls::send_at;
use mqtt_broker_queue::queues::{places_in, turns_at};
use mqtt_broker_step::{EngineError, Step, StepFault};
use mqtt_flow::Turn;
use mqtt_keep::{Keep, KeepError};
use mqtt_records::CopyContent;
use std::alloc::Global;

/// Why a call ends whose contents were not read.
fn unread(error: KeepError) -> EngineError
    ensures memory { error ≡ KeepError.Memory → result ≡ EngineError.Memory }
    ensures disk { error ≡ KeepError.Disk → result ≡ EngineError.Stopped }
{
    match error {
        KeepError::Memory => EngineError::Memory,
        _ => EngineError::Stopped,
    }
}

/// Where the copies stand of which this is told.
fn places_of(alloc: Global, contents: &[CopyContent]) -> Result<Vec<u64>, StepFault>
    ensures places { IfOk result (λ places. places.items ≡ places_of contents.now) }
    ensures fault { IfErr result (λ fault. fault ≡ StepFault.Memory) }
{
    let mut places = Vec::with_capacity(alloc, contents.len())?;
    for content in contents {
        places.push(content.place())?;
    }
    Ok(places)
}

/// What a pump on a line takes if it begins at a moment, and where the copies stand that it sends.
fn look_up(
    alloc: Global,
    step: &Step,
    line: u64,
    moment: u64,
) -> Result<(Vec<Turn>, Vec<u64>), EngineError>
    requires { (birth : ℕ) → HasKeptOrders birth step.now.broker.records }
    ensures turns { IfOk result (λ both. both.0.items
        ≡ line_turns line (at_moment moment step.now.broker)) }
    ensures places { IfOk result (λ both. both.1.items
        ≡ sent_places line (at_moment moment step.now.broker)) }
    ensures fault { IfErr result (λ error. error ≡ EngineError.Memory) }
{
    let turns = match turns_at(alloc, step, line, moment) {
        Ok(turns) => turns,
        Err(_) => return Err(EngineError::Memory),
    };
    match places_in(alloc, &turns) {
        Ok(places) => Ok((turns, places)),
        Err(_) => Err(EngineError::Memory),
    }
}

/// Rows say what was read of them, while no step is under way; false, and nothing changes, if one of them doesn't stand, or
/// has other bytes. Takes no memory.
fn fill(step: &mut Step, birth: u64, contents: Vec<CopyContent>) -> bool
    requires rest { step.old ≡ at_rest step.old.limits step.old.broker }

    // Whatever was read, only what alike rows may differ in changes, and only at those places.
    ensures rest { step.new ≡ at_rest step.old.limits step.new.broker }
    ensures alike { AlikeBrokers step.new.broker step.old.broker }
    ensures slim { slim_broker step.old.broker ≡ step.old.broker
        → AreSlimBut birth (places_of contents.items) step.new.broker.records }
    ensures err { result ≡ false → step.new ≡ step.old }

    // What is stored is taken in, and then the rows say what is stored.
    ensures exact { (fillings : Fillings) (places : List ℕ) (r : Records)
        → AlikeRecords step.old.broker.records r → AreFilledBy fillings r → HasLawfulContents r
        → contents.items ≡ contents_at birth places r
        → (result ≡ true) × AreFilledAt fillings birth places step.new.broker.records }
{
    step.fill(birth, contents)
}

impl<K: Keep> EngineParts<K> {
    /// A turn of sending on a line with a session. What the copies say that it will send is fetched, from hand or from the
    /// store; the step begins on rows that say it, and no row says it any more when the call ends. A store that tells what
    /// has not the bytes of its row has failed.
    pub(crate) fn fetch_and_send(
        &mut self,
        line: u64,
        birth: u64,
        moment: u64,
    ) -> Result<Outcome, EngineError>
        requires rest { IsAtRest K.Keep self.old }
        requires running { self.old.stopped ≡ false }
        requires linked { session_on line self.old.step.broker ≡ Some (Some birth) }
        ensures called { Called K.Keep moment (Pump line) (viewed K.Keep self.old) result (viewed K.Keep self.new) }
        ensures rest { IsAtRest K.Keep self.new }
        ensures reads { AskedAtMost PUMP_LIMIT (K.read_so_far self.old.keep) (K.read_so_far self.new.keep) }
    {
        let (turns, places) = look_up(self.alloc, &self.step, line, moment)?;
        let contents = match self.hand.fetch(self.alloc, &mut self.keep, birth, &places) {
            Ok(contents) => contents,
            Err(error) => {
                let refusal = unread(error);
                self.stopped = has_failed(refusal);
                return Err(refusal);
            }
        };
        let told = match places_of(self.alloc, &contents) {
            Ok(told) => told,
            Err(_) => {
                drop(contents);
                return Err(EngineError::Memory);
            }
        };
        if !fill(&mut self.step, birth, contents) {
            self.stopped = true;
            return Err(EngineError::Stopped);
        }
        match send_at(self.alloc, &mut self.step, line, turns, moment) {
            Ok(again) => self.finish_filled(Ok(()), again, birth, &told),
            Err(fault) => self.finish_filled(Err(fault), false, birth, &told),
        }
    }
}
