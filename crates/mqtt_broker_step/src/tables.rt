//! What is stored and the lines, changed in place, with a journal that takes the changes back.
ghost use Rattle.std.specs.Prelude.{◌≡◌, ◌↔◌, ◌≤◌, [], None, Some, false, length, option_copied, IfOk, IsTrue, OnOk, OnErr};
ghost use Rattle.mqtt_base.specs.declared.limits.TheConstants.{LINE_LIMIT as line_limit};
ghost use Rattle.mqtt_records.specs.lists.Order.{IsAscending, row_at, put_row, change_row, remove_row};
ghost use Rattle.mqtt_records.specs.state.Records.{changed, kept_place};
ghost use Rattle.mqtt_records.specs.declared.state.session.Session.{Session as TheSession};
ghost use Rattle.mqtt_records.specs.state.Session.{birth_of, copy_place};
ghost use Rattle.mqtt_records.specs.state.Slim.{all_slim};
ghost use Rattle.mqtt_records.specs.declared.state.change.Change.TheVariants.{RemoveSession, RemoveCopy, RemoveRetained};
ghost use Rattle.mqtt_keep.specs.by_name.Slimming.{slim_entered, slim_places, whole_places, TakesAll};
ghost use Rattle.mqtt_topic.specs.names.Aliases.{IsInRange};
ghost use Rattle.mqtt_rules.specs.step.Laws.{HasTables};
ghost use Rattle.mqtt_rules.specs.step.State.{Line, session_at, session_named, told_line};
ghost use Rattle.mqtt_topic.specs.sending.Told.{none_told};
ghost use Rattle.mqtt_broker_step.specs.Lines.{line_changed, line_number, with_alias};
ghost use Rattle.mqtt_broker_step.specs.Backs.{TakesLineBack, TakesTellingBack};
ghost use Rattle.mqtt_broker_step.specs.Tellings.{telling_more};
ghost use Rattle.mqtt_broker_step.specs.Undoing.{become, settled, taken_back, undone, broker_of, with_change, with_records, with_lines, with_line_changed, with_linked, with_tellings, with_moment_of, moment_of};

use crate::line::{LineChange, LineState};
use crate::seeking::row_of;
use crate::started::{publications_before, subscribes_before};
use crate::telling::LineTopics;
use crate::undo::Undo;
use mqtt_base::{LINE_LIMIT, Text};
use mqtt_keep::NamedRecords;
use mqtt_records::{Change, CopyContent, Records, Rows, Session};
use mqtt_topic::TopicName;
use std::alloc::{AllocError, Global};
use std::marker::Model;

/// The tables, and what takes back all that changed since the step began.
#[derive(Drop)]
pub(crate) struct Tables {
    records: NamedRecords,
    lines: Rows<LineState, LINE_LIMIT>,
    tellings: Rows<LineTopics, LINE_LIMIT>,
    given: u64,
    moment: u64,
    journal: Vec<Undo>,
}

impl Model for Tables {
    ghost use Rattle.mqtt_broker_step.specs.Undoing.{Changing, changing, broker_of};

    ghost Value = { Changing };

    ghost view = { λ a. changing a.journal.items (broker_of a.records a.lines a.tellings a.given a.moment) };
}

/// Takes one change back.
fn undo_one(
    records: &mut NamedRecords,
    lines: &mut Rows<LineState, LINE_LIMIT>,
    tellings: &mut Rows<LineTopics, LINE_LIMIT>,
    given: &mut u64,
    moment: &mut u64,
    undo: Undo,
)
    ensures { broker_of records.new lines.new tellings.new given.new moment.new
        ≡ undone undo (broker_of records.old lines.old tellings.old given.old moment.old) }
{
    match undo {
        Undo::Make { change } => records.change(change),
        Undo::PutSession { session } => records.put_session(session),
        Undo::PutLine { line } => lines.put(line),
        Undo::RemoveLine {
            number,
            given: before,
        } => {
            lines.remove(number);
            *given = before;
        }
        Undo::EditLine { number, change } => lines.edit(number, change),
        Undo::PutTelling { telling } => tellings.put(telling),
        Undo::RemoveTelling { line } => tellings.remove(line),
        Undo::CutTelling { line, count } => tellings.edit(line, count),
        Undo::SetMoment { moment: before } => *moment = before,
    }
}

/// Takes changes back, the last one first.
fn undo_all(
    records: &mut NamedRecords,
    lines: &mut Rows<LineState, LINE_LIMIT>,
    tellings: &mut Rows<LineTopics, LINE_LIMIT>,
    given: &mut u64,
    moment: &mut u64,
    journal: &mut Vec<Undo>,
)
    ensures tables { broker_of records.new lines.new tellings.new given.new moment.new
        ≡ taken_back journal.old.items (broker_of records.old lines.old tellings.old given.old moment.old) }
    ensures journal { journal.new.items ≡ [] }
{
    while let Some(undo) = journal.pop() {
        undo_one(records, lines, tellings, given, moment, undo);
    }
}

/// Makes an alias of a line stand for a topic, if the line stands, and gives what takes that back.
fn set_alias_of(
    lines: &mut Rows<LineState, LINE_LIMIT>,
    number: u64,
    alias: u16,
    topic: &TopicName,
) -> Result<Option<LineChange>, AllocError>
    requires { (l : Line) → row_at line_number number lines.old ≡ Some l
        → IsInRange l.aliases.max alias }
    ensures ok { OnOk result (lines.new
        ≡ change_row line_number number (with_alias alias topic.now) lines.old) }
    ensures back { IfOk result (TakesLineBack number lines.old lines.new) }
    ensures err { OnErr result (lines.new ≡ lines.old) }
{
    lines.as_slice();
    let Some(mut line) = lines.take(number) else {
        return Ok(None);
    };
    let set = line.set_alias(alias, topic);
    lines.put(line);
    match set {
        Ok(before) => Ok(Some(LineChange::RestoreAlias { alias, before })),
        Err(fault) => Err(fault),
    }
}

/// The client on a line is told a further topic, if it takes aliases and one is free; gives how many it was told before.
fn tell_in(
    tellings: &mut Rows<LineTopics, LINE_LIMIT>,
    line: u64,
    topic: &Text,
) -> Result<Option<usize>, AllocError>
    ensures ok { OnOk result (tellings.new
        ≡ change_row told_line line (telling_more topic.now) tellings.old) }
    ensures back { IfOk result (TakesTellingBack line tellings.old tellings.new) }
    ensures err { OnErr result (tellings.new ≡ tellings.old) }
{
    tellings.as_slice();
    let Some(mut telling) = tellings.take(line) else {
        return Ok(None);
    };
    let count = telling.topics().count();
    let told = telling.tell(topic);
    tellings.put(telling);
    match told {
        Ok(()) => Ok(Some(count)),
        Err(fault) => Err(fault),
    }
}

impl Tables {
    /// Tables without lines, on which no step is under way.
    pub(crate) fn new(alloc: Global, records: Records, moment: u64) -> Result<Tables, AllocError>
        ensures { IfOk result (λ tables. tables ≡ settled (broker_of records [] [] 0 moment)) }
    {
        Ok(Tables {
            records: NamedRecords::new(alloc, records)?,
            lines: Rows::new(alloc)?,
            tellings: Rows::new(alloc)?,
            given: 0,
            moment,
            journal: Vec::new(alloc),
        })
    }

    /// A session that stands.
    pub(crate) fn session(&self, birth: u64) -> Option<&Session>
        ensures { option_copied result ≡ session_at birth self.now.broker.records }
    {
        match row_of(&self.records.records().sessions, birth) {
            Some(session) => Some(session.get()),
            None => None,
        }
    }

    /// What is stored.
    pub(crate) fn records(&self) -> &Records
        ensures { result.now ≡ self.now.broker.records }
    {
        self.records.records()
    }

    /// The session of a client identifier, if it stands.
    pub(crate) fn session_named(&self, client: &str) -> Option<&Session>
        ensures { option_copied result ≡ session_named client.now self.now.broker.records }
    {
        self.records.session_named(client)
    }

    /// The number of the last publication before the step.
    pub(crate) fn publications_before(&self) -> u64
        ensures { result ≡ self.now.start.records.publications }
    {
        publications_before(&self.journal, self.records.records().publications)
    }

    /// The number of the last granted filter before the step.
    pub(crate) fn subscribes_before(&self) -> u64
        ensures { result ≡ self.now.start.records.subscribes }
    {
        subscribes_before(&self.journal, self.records.records().subscribes)
    }

    /// The moment.
    pub(crate) fn moment(&self) -> u64
        ensures { result ≡ moment_of self.now.broker }
    {
        self.moment
    }

    /// Sets the moment, if it is another one. Want of memory changes nothing.
    pub(crate) fn set_moment(&mut self, moment: u64) -> Result<(), AllocError>
        ensures ok { OnOk result (self.new
            ≡ become (with_moment_of moment self.old.broker) self.old) }
        ensures err { OnErr result (self.new ≡ self.old) }
    {
        if moment == self.moment {
            return Ok(());
        }
        self.journal.push(Undo::SetMoment {
            moment: self.moment,
        })?;
        self.moment = moment;
        Ok(())
    }

    /// Makes a change that another takes back. Want of memory changes nothing.
    pub(crate) fn make(&mut self, change: Change, undo: Change) -> Result<(), AllocError>
        requires { changed undo (changed change self.old.broker.records)
            ≡ self.old.broker.records }
        ensures ok { OnOk result (self.new
            ≡ become (with_change change self.old.broker) self.old) }
        ensures err { OnErr result (self.new ≡ self.old) }
    {
        if self.journal.reserve(1).is_err() {
            drop(change);
            drop(undo);
            return Err(AllocError);
        }
        self.journal.push(Undo::Make { change: undo }).unwrap();
        self.records.change(change);
        Ok(())
    }

    /// A line that stands.
    pub(crate) fn line(&self, number: u64) -> Option<&LineState>
        ensures { option_copied result ≡ row_at line_number number self.now.broker.lines }
    {
        row_of(&self.lines, number)
    }

    /// The lines, in the order in which they were linked.
    pub(crate) fn lines(&self) -> &[LineState]
        ensures lines { result.now ≡ self.now.broker.lines }
        ensures order { IsAscending line_number self.now.broker.lines }
        ensures few { length self.now.broker.lines ≤ line_limit }
    {
        self.lines.as_slice()
    }

    /// What the client on a line was told of topics, if it takes aliases. Takes no memory.
    pub(crate) fn telling(&self, line: u64) -> Option<&LineTopics>
        ensures { option_copied result ≡ row_at told_line line self.now.broker.tellings }
    {
        self.tellings.get(line)
    }

    /// The client on a line takes so many aliases, and was told nothing. Want of memory changes nothing.
    pub(crate) fn put_telling(&mut self, line: u64, most: u16) -> Result<(), AllocError>
        requires new { row_at told_line line self.old.broker.tellings ≡ None }
        ensures ok { OnOk result (self.new ≡ become (with_tellings
            (put_row told_line line_limit (record { line = line; topics = none_told most })
            self.old.broker.tellings) self.old.broker) self.old) }
        ensures err { OnErr result (self.new ≡ self.old) }
    {
        self.tellings.as_slice();
        self.journal.push(Undo::RemoveTelling { line })?;
        let alloc = *self.journal.allocator();
        self.tellings.put(LineTopics::new(alloc, line, most));
        Ok(())
    }

    /// The client on a line is told a further topic, if it takes aliases and one is free. Want of memory changes nothing.
    pub(crate) fn tell(&mut self, line: u64, topic: &Text) -> Result<(), AllocError>
        ensures ok { OnOk result (self.new ≡ become (with_tellings
            (change_row told_line line (telling_more topic.now) self.old.broker.tellings)
            self.old.broker) self.old) }
        ensures err { OnErr result (self.new ≡ self.old) }
    {
        self.journal.reserve(1)?;
        match tell_in(&mut self.tellings, line, topic)? {
            Some(count) => self.journal.push(Undo::CutTelling { line, count }).unwrap(),
            None => {}
        }
        Ok(())
    }

    /// What the client on a line was told is forgotten; the journal keeps it. Want of memory changes nothing.
    pub(crate) fn take_telling(&mut self, line: u64) -> Result<(), AllocError>
        ensures ok { OnOk result (self.new ≡ become (with_tellings
            (remove_row told_line line self.old.broker.tellings) self.old.broker) self.old) }
        ensures err { OnErr result (self.new ≡ self.old) }
    {
        self.journal.reserve(1)?;
        self.tellings.as_slice();
        match self.tellings.take(line) {
            Some(telling) => self.journal.push(Undo::PutTelling { telling }).unwrap(),
            None => {}
        }
        Ok(())
    }

    /// Changes a part of a line, if it stands. Want of memory changes nothing.
    pub(crate) fn edit_line(
        &mut self,
        number: u64,
        change: LineChange,
        undo: LineChange,
    ) -> Result<(), AllocError>
        requires { (l : Line) → row_at line_number number self.old.broker.lines ≡ Some l
            → line_changed undo (line_changed change l) ≡ l }
        ensures ok { OnOk result (self.new
            ≡ become (with_line_changed number change self.old.broker) self.old) }
        ensures err { OnErr result (self.new ≡ self.old) }
    {
        if self.journal.reserve(1).is_err() {
            drop(change);
            drop(undo);
            return Err(AllocError);
        }
        let undo = Undo::EditLine {
            number,
            change: undo,
        };
        self.journal.push(undo).unwrap();
        self.lines.edit(number, change);
        Ok(())
    }

    /// Makes an alias of a line stand for a topic, if the line stands. Want of memory changes nothing.
    pub(crate) fn set_alias(
        &mut self,
        number: u64,
        alias: u16,
        topic: &TopicName,
    ) -> Result<(), AllocError>
        requires { (l : Line) → row_at line_number number self.old.broker.lines ≡ Some l
            → IsInRange l.aliases.max alias }
        ensures ok { OnOk result (self.new ≡ become
            (with_lines (change_row line_number number (with_alias alias topic.now)
            self.old.broker.lines) self.old.broker) self.old) }
        ensures err { OnErr result (self.new ≡ self.old) }
    {
        self.journal.reserve(1)?;
        match set_alias_of(&mut self.lines, number, alias, topic)? {
            Some(change) => {
                self.journal
                    .push(Undo::EditLine { number, change })
                    .unwrap();
            }
            None => {}
        }
        Ok(())
    }

    /// Removes a line, if it stands; the journal keeps it whole. Want of memory changes nothing.
    pub(crate) fn take_line(&mut self, number: u64) -> Result<(), AllocError>
        ensures ok { OnOk result (self.new ≡ become
            (with_lines (remove_row line_number number self.old.broker.lines) self.old.broker)
            self.old) }
        ensures err { OnErr result (self.new ≡ self.old) }
    {
        self.journal.reserve(1)?;
        self.lines.as_slice();
        match self.lines.take(number) {
            Some(line) => self.journal.push(Undo::PutLine { line }).unwrap(),
            None => {}
        }
        Ok(())
    }

    /// Removes a session whole, if it stands; the journal keeps it. Want of memory changes nothing.
    pub(crate) fn take_session(&mut self, birth: u64) -> Result<(), AllocError>
        ensures ok { OnOk result (self.new
            ≡ become (with_change (RemoveSession birth) self.old.broker) self.old) }
        ensures err { OnErr result (self.new ≡ self.old) }
    {
        self.journal.reserve(1)?;
        self.records.records().sessions.as_slice();
        match self.records.take_session(birth) {
            Some(session) => self.journal.push(Undo::PutSession { session }).unwrap(),
            None => {}
        }
        Ok(())
    }

    /// Removes a copy from a session's queue, if it stands; the journal keeps it. Want of memory changes nothing.
    pub(crate) fn take_copy(&mut self, birth: u64, place: u64) -> Result<(), AllocError>
        requires { (s : TheSession) → session_at birth self.old.broker.records ≡ Some s → HasTables s }
        ensures ok { OnOk result (self.new
            ≡ become (with_change (RemoveCopy birth place) self.old.broker) self.old) }
        ensures err { OnErr result (self.new ≡ self.old) }
    {
        self.journal.reserve(1)?;
        match self.records.take_copy(birth, place) {
            Some(row) => {
                let change = Change::PutCopy { birth, row };
                self.journal.push(Undo::Make { change }).unwrap();
            }
            None => {}
        }
        Ok(())
    }

    /// Removes a retained message, if it stands; the journal keeps it. Want of memory changes nothing.
    pub(crate) fn take_retained(&mut self, place: u64) -> Result<(), AllocError>
        ensures ok { OnOk result (self.new
            ≡ become (with_change (RemoveRetained place) self.old.broker) self.old) }
        ensures err { OnErr result (self.new ≡ self.old) }
    {
        self.journal.reserve(1)?;
        self.records.records().retained.as_slice();
        match self.records.take_retained(place) {
            Some(kept) => {
                let change = Change::PutRetained { kept };
                self.journal.push(Undo::Make { change }).unwrap();
            }
            None => {}
        }
        Ok(())
    }

    /// The number of the last line that was linked; 0 before the first.
    pub(crate) fn given(&self) -> u64
        ensures { result ≡ self.now.broker.given }
    {
        self.given
    }

    /// A line more stands; from here on nothing is taken back. Takes no memory.
    pub(crate) fn add_line(&mut self, line: LineState)
        ensures { self.new ≡ settled (with_linked line self.old.broker) }
    {
        self.journal.clear();
        self.given = line.number();
        self.lines.put(line);
    }

    /// The moment is this one; from here on nothing is taken back. Takes no memory.
    pub(crate) fn rest_at(&mut self, moment: u64)
        ensures { self.new ≡ settled (with_moment_of moment self.old.broker) }
    {
        self.journal.clear();
        self.moment = moment;
    }

    /// Takes everything back. Takes no memory.
    pub(crate) fn take_back(&mut self)
        ensures { self.new ≡ settled self.old.start }
    {
        undo_all(
            &mut self.records,
            &mut self.lines,
            &mut self.tellings,
            &mut self.given,
            &mut self.moment,
            &mut self.journal,
        );
    }

    /// From here on nothing is taken back. Takes no memory.
    pub(crate) fn settle(&mut self)
        ensures { self.new ≡ settled self.old.broker }
    {
        self.journal.clear();
    }

    /// The copies that these changes put say nothing but their topics; from here on nothing is taken back. Takes no memory.
    pub(crate) fn settle_slim(&mut self, changes: &[Change])
        ensures { self.new ≡ settled (with_records
            (slim_entered changes.now self.old.broker.records) self.old.broker) }
    {
        self.journal.clear();
        self.records.make_entered_slim(changes);
    }

    /// The copies at these places say nothing but their topics; from here on nothing is taken back. Takes no memory.
    pub(crate) fn make_slim(&mut self, birth: u64, places: &[u64])
        ensures { self.new ≡ settled (with_records
            (slim_places birth places.now self.old.broker.records) self.old.broker) }
    {
        self.journal.clear();
        self.records.make_slim(birth, places);
    }

    /// All copies say nothing but their topics; from here on nothing is taken back. Takes no memory.
    pub(crate) fn make_all_slim(&mut self)
        ensures { self.new ≡ settled (with_records
            (all_slim self.old.broker.records) self.old.broker) }
    {
        self.journal.clear();
        self.records.make_all_slim();
    }

    /// Has copies say what is told of them, all or none; from here on nothing is taken back. Takes no memory.
    pub(crate) fn fill(&mut self, birth: u64, contents: Vec<CopyContent>) -> bool
        ensures exact { IsTrue result
            ↔ TakesAll birth contents.items self.old.broker.records }
        ensures ok { IsTrue result → self.new ≡ settled (with_records
            (whole_places birth contents.items self.old.broker.records) self.old.broker) }
        ensures err { result ≡ false → self.new ≡ settled self.old.broker }
    {
        self.journal.clear();
        self.records.fill(birth, contents)
    }
}
