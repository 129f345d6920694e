//! How far a script has come on its world (ours).

ghost use Rattle.std.specs.Prelude.{◌≡◌, ◌+◌, ◌++◌, OnOk, IfErr, IfOk, option_to_list};
ghost use Rattle.std.specs.String.{string_bytes};
ghost use Rattle.mqtt_script.specs.Lines.{first_word};
ghost use Rattle.mqtt_script.specs.Telling.{bad_text};
ghost use Rattle.mqtt_replay.specs.playing.Told.{told_text};
ghost use Rattle.mqtt_replay.specs.playing.Playing.{AddsLine, IsDue, last_lines, made_by, passed_over, start};

use crate::playing::ends::{End, push_ends, push_made};
use crate::playing::runs::Runs;
use crate::playing::told::push_told;
use mqtt_script::{BadLine, BadReason, Event, Played, ReplayFault, push_bad, push_broker};
use mqtt_world_ends::peers::{RunFault, Told};
use std::alloc::{AllocError, Global};
use std::marker::Model;

/// A world, how many lines of a script were played there, how many events happened, and the ends that they made, in order.
#[derive(Drop)]
pub struct Script<P: Runs> {
    lines: u64,
    number: u64,
    ends: Vec<End>,
    world: P,
}

impl<P: Runs> Model for Script<P> {
    ghost use Rattle.mqtt_replay.specs.playing.Playing.{Standing};

    ghost Value = { Standing P };

    ghost view = { λ s. record { lines = s.lines; number = s.number; ends = s.ends.items; world = s.world } };
}

/// The number behind this one; what doesn't fit is want of memory.
fn next_number(number: u64) -> Result<u64, AllocError>
    ensures { IfOk result (λ next. next ≡ number + 1) }
{
    match number.checked_add(1) {
        Some(next) => Ok(next),
        None => Err(AllocError),
    }
}

impl<P: Runs> Script<P> {
    /// None of a script's lines was played. Takes no memory.
    pub fn new(alloc: Global, world: P) -> Script<P>
        ensures { result ≡ start world }
    {
        Script {
            lines: 0,
            number: 0,
            ends: Vec::new(alloc),
            world,
        }
    }

    /// Counts a line that is passed over. Takes no memory; fails only if the count doesn't fit into 64 bits.
    pub fn pass_over(&mut self) -> Result<(), AllocError>
        ensures { OnOk result (self.new ≡ passed_over self.old) }
    {
        self.lines = next_number(self.lines)?;
        Ok(())
    }

    /// An event happens, and its line is added; or the line of one that can't happen there.
    pub fn happen(&mut self, text: &mut String, event: &Event) -> Result<Played, ReplayFault>
        ensures added { IfOk result (λ played. AddsLine P.play event.now self.old self.new
            (string_bytes text.old) (string_bytes text.new) played) }
        ensures cause { IfErr result (IsDue P.play) }
    {
        let lines = next_number(self.lines)?;
        let number = next_number(self.number)?;
        match self.world.happen(event) {
            Ok(told) => {
                self.lines = lines;
                let added = self.tell(text, number, event, &told);
                drop(told);
                added?;
                Ok(Played::Whole)
            }
            Err(RunFault::BadEvent { .. }) => {
                let bad = self.push_bad(text, BadReason::CannotHappen)?;
                Ok(Played::Bad(bad))
            }
            Err(RunFault::Memory) => Err(ReplayFault::Memory),
            Err(RunFault::Store) => Err(ReplayFault::Store),
        }
    }

    /// Counts an event that happened, keeps the end that it made, and adds its line.
    fn tell(
        &mut self,
        text: &mut String,
        number: u64,
        event: &Event,
        told: &Told,
    ) -> Result<(), AllocError>
        ensures lines { OnOk result (self.new.lines ≡ self.old.lines) }
        ensures number { OnOk result (self.new.number ≡ number) }
        ensures ends { OnOk result (self.new.ends ≡ self.old.ends ++ option_to_list (made_by event.now)) }
        ensures world { OnOk result (self.new.world ≡ self.old.world) }
        ensures text { OnOk result (string_bytes text.new ≡ string_bytes text.old
            ++ told_text number (first_word event.now) told.now.reports told.now.out) }
    {
        push_made(&mut self.ends, event)?;
        self.number = number;
        push_told(
            text,
            number,
            event.first_word(),
            told.reports.as_slice(),
            told.out,
        )
    }

    /// Adds the line of the next event, if that is none or can't happen, and answers the next line of the script as bad.
    pub fn push_bad(&self, text: &mut String, reason: BadReason) -> Result<BadLine, AllocError>
        ensures number { IfOk result (λ bad. bad.number ≡ self.now.lines + 1) }
        ensures reason { IfOk result (λ bad. bad.reason ≡ reason) }
        ensures text { OnOk result (string_bytes text.new
            ≡ string_bytes text.old ++ bad_text (self.now.number + 1)) }
    {
        let number = next_number(self.lines)?;
        push_bad(text, next_number(self.number)?)?;
        Ok(BadLine { number, reason })
    }

    /// Adds what the world came to: a line for each end, and one for the broker.
    #[tactic(auto, using(std::proofs::lemmas::List::append_assoc))]
    pub fn push_last(&self, alloc: Global, text: &mut String) -> Result<(), AllocError>
        ensures { OnOk result (string_bytes text.new
            ≡ string_bytes text.old ++ last_lines P.play self.now) }
    {
        push_ends(alloc, text, &self.world, self.ends.as_slice())?;
        push_broker(text, self.world.publications(), self.world.sessions())
    }
}
