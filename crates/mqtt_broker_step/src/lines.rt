//! Deeds of lines (MQTT 5.0, 3.1, 3.1.2.10).
ghost use Rattle.std.specs.Prelude.{◌≡◌, ◌∷◌, [], ℕ, Some, option_copied, ◌++◌, ◌≤◌, length, IfOk, OnOk, OnErr, IfErr};
ghost use Rattle.mqtt_base.specs.declared.limits.TheConstants.{LINE_LIMIT as line_limit};
ghost use Rattle.mqtt_records.specs.lists.Order.{IsAscending, row_at};
ghost use Rattle.mqtt_rules.specs.step.State.{Line};
ghost use Rattle.mqtt_rules.specs.step.Deeds.{Gone, Hear, Greet, Went, On, always, greeted, on_line};
ghost use Rattle.mqtt_broker_step.specs.Lines.{line_changed, line_number, with_went};
ghost use Rattle.mqtt_broker_step.specs.Backs.{Makes};
ghost use Rattle.mqtt_broker_step.specs.Undoing.{with_line_changed, with_lines, with_tellings};
ghost use Rattle.mqtt_broker_step.specs.Stepping.{Did, IsKept, IsLeft, with_broker};

use crate::fault::StepFault;
use crate::line::{LineChange, LineState};
use crate::places::Places;
use crate::step::Step;
use std::alloc::{AllocError, Global};

/// The change of a line by which a place more goes out. It takes memory if there is no room.
fn sending(alloc: Global, went: &Places, place: u64) -> Result<LineChange, AllocError>
    ensures { IfOk result (Makes (with_went place) went.now) }
{
    if went.has_room() {
        return Ok(LineChange::PushWent { place });
    }
    Ok(LineChange::SetWent {
        went: went.with(alloc, place)?,
    })
}

impl Step {
    /// A line that stands. Takes no memory.
    pub fn line(&self, number: u64) -> Option<&LineState>
        ensures { option_copied result ≡ row_at line_number number self.now.broker.lines }
    {
        self.tables.line(number)
    }

    /// The lines, in the order in which they were linked. Takes no memory.
    pub fn lines(&self) -> &[LineState]
        ensures lines { result.now ≡ self.now.broker.lines }
        ensures order { IsAscending line_number self.now.broker.lines }
        ensures few { length self.now.broker.lines ≤ line_limit }
    {
        self.tables.lines()
    }

    /// Changes a part of a line. A refusal changes nothing.
    pub(crate) fn edit_line(
        &mut self,
        number: u64,
        change: LineChange,
        undo: LineChange,
    ) -> Result<(), StepFault>
        requires { (l : Line) → row_at line_number number self.old.broker.lines ≡ Some l
            → line_changed undo (line_changed change l) ≡ l }
        ensures ok { OnOk result (self.new
            ≡ with_broker (with_line_changed number change self.old.broker) self.old) }
        ensures err { OnErr result (self.new ≡ self.old) }
        ensures fault { IfErr result (λ fault. fault ≡ StepFault.Memory) }
    {
        self.tables.edit_line(number, change, undo)?;
        Ok(())
    }

    /// A packet came on a line (3.1.2.10). One that was heard at this moment before is as it was.
    pub fn hear(&mut self, line: u64) -> Result<(), StepFault>
        ensures ok { OnOk result (Did (always (On line Hear ∷ [])) self.old self.new) }
        ensures left { IfErr result (λ fault.
            IsLeft (always (On line Hear ∷ [])) fault self.old self.new) }
    {
        let Some(state) = self.line(line) else {
            return Ok(());
        };
        let before = state.heard();
        let heard = self.moment();
        if heard == before {
            return Ok(());
        }
        self.edit_line(
            line,
            LineChange::Hear { heard },
            LineChange::Hear { heard: before },
        )
    }

    /// The client on a line is told so many aliases at most, and was told nothing; none if so many is 0.
    fn begin_telling(&mut self, line: u64, most: u16) -> Result<(), StepFault>
        ensures ok { OnOk result (self.new ≡ with_broker
            (with_tellings (greeted line most self.old.broker.tellings) self.old.broker) self.old) }
        ensures left { IfErr result (λ fault. IsKept fault self.old self.new) }
    {
        if most == 0 {
            return Ok(());
        }
        self.tables.take_telling(line)?;
        self.tables.put_telling(line, most)?;
        Ok(())
    }

    /// A session is connected on a line. A refusal changes nothing.
    fn connect_line(
        &mut self,
        line: u64,
        birth: u64,
        keep_alive: u16,
        window: u16,
        largest: u32,
    ) -> Result<(), StepFault>
        ensures ok { (most : ℕ) → OnOk result (self.new ≡ with_broker
            (with_lines (on_line self.old.broker.now line (Greet birth keep_alive window largest most)
            self.old.broker.lines) self.old.broker) self.old) }
        ensures err { OnErr result (self.new ≡ self.old) }
        ensures fault { IfErr result (λ fault. fault ≡ StepFault.Memory) }
    {
        let Some(state) = self.line(line) else {
            return Ok(());
        };
        let undo = LineChange::Greet {
            session: state.session(),
            keep_alive: state.keep_alive(),
            window: state.window(),
            largest: state.largest(),
        };
        let change = LineChange::Greet {
            session: Some(birth),
            keep_alive,
            window,
            largest,
        };
        self.edit_line(line, change, undo)
    }

    /// A session is connected on a line, with the client's Keep Alive in seconds, Receive Maximum and
    /// Maximum Packet Size in bytes, and the most aliases that it is told; it was told nothing (3.1.2.10, 3.1.2.11).
    pub fn greet(
        &mut self,
        line: u64,
        birth: u64,
        keep_alive: u16,
        window: u16,
        largest: u32,
        most: u16,
    ) -> Result<(), StepFault>
        ensures ok { OnOk result (Did
            (always (On line (Greet birth keep_alive window largest most) ∷ [])) self.old self.new) }
        ensures left { IfErr result (λ fault. IsLeft
            (always (On line (Greet birth keep_alive window largest most) ∷ [])) fault
            self.old self.new) }
    {
        self.begin_telling(line, most)?;
        self.connect_line(line, birth, keep_alive, window, largest)
    }

    /// A copy's PUBLISH goes out on a line (4.3).
    pub fn went(&mut self, line: u64, place: u64) -> Result<(), StepFault>
        ensures ok { OnOk result (Did (always (On line (Went place) ∷ [])) self.old self.new) }
        ensures left { IfErr result (λ fault.
            IsLeft (always (On line (Went place) ∷ [])) fault self.old self.new) }
    {
        let Some(state) = self.line(line) else {
            return Ok(());
        };
        let change = sending(self.alloc, state.went(), place)?;
        self.edit_line(line, change, LineChange::PopWent)
    }

    /// A line leaves the table.
    pub fn gone(&mut self, line: u64) -> Result<(), StepFault>
        ensures ok { OnOk result (Did (always (Gone line ∷ [])) self.old self.new) }
        ensures left { IfErr result (λ fault.
            IsLeft (always (Gone line ∷ [])) fault self.old self.new) }
    {
        self.tables.take_line(line)?;
        self.tables.take_telling(line)?;
        self.shut(line)
    }
}
