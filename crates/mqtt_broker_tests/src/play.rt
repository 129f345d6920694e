//! A script is played, line by line.

use crate::broker::{Answer, Broker, Call};
use crate::reading::{halves, limits_of, number, read_bytes, read_connect, tell_turned};
use crate::telling::Telling;
use mqtt_broker::{EngineError, Limits};
use mqtt_flow::Full;
use std::alloc::Global;

/// The limits of the tables, if a full queue refuses.
const LIMITS: Limits = Limits {
    full: Full::Refuse,
    queue: 1000,
    sessions: 1000,
    retained: 1000,
};

/// How many calls a broker is asked for, openings among them, and whether its store has failed.
#[derive(Clone, Copy)]
pub(crate) struct Asking {
    /// How many were made.
    pub(crate) asked: u64,
    /// How many are made at most.
    pub(crate) most: u64,
    /// Whether one was answered so that no further one is made.
    pub(crate) is_stopped: bool,
    /// How many were answered so that memory was wanting.
    pub(crate) wanted: u64,
}

impl Asking {
    /// Counts a further call; answers whether it is made.
    pub(crate) fn goes_on(&mut self) -> bool {
        if self.is_stopped || self.asked >= self.most {
            return false;
        }
        self.asked = self.asked.wrapping_add(1);
        true
    }

    /// Counts an answer by which memory was wanting.
    pub(crate) fn want(&mut self) {
        self.wanted = self.wanted.wrapping_add(1);
    }
}

/// Why no further line is played.
#[derive(Clone, Copy)]
pub(crate) enum Stop {
    /// There is none.
    End,
    /// The broker is to be opened anew.
    Restart,
    /// The last one tells something else than it says.
    Other,
}

/// What plays a script.
///
/// A script has a call a line, and behind ` -> ` what it tells, or `*` for anything but an error:
///
/// - `link`: a line, which tells its number; `at MS`: the moment of the calls to come;
/// - `on LINE HEX ..`: bytes, given until all are taken and nothing more is whole; `by SIZE`: from now on in pieces of this
///   size;
/// - `connect LINE CLIENT`: a CONNECT with Keep Alive 0 and a session that doesn't expire, without Clean Start;
/// - `pump LINE`, `lost LINE`, `tick`: as named; `restart`: the broker is closed and opened over its store;
/// - `limits refuse|drop QUEUE SESSIONS RETAINED`: the same with these limits;
/// - `copy LINE ID`: the number of the publication whose copy has this packet identifier, or `none`;
/// - `times COUNT CALL; CALL ..`: the calls as often, in which `#` is the turn's number, `@` a topic of its four digits and
///   `%` a packet identifier; what the last call tells;
/// - a line behind `+` is played in the script as it is, one behind `-` in its place in the script without what is refused;
///   one behind `--`, and an empty one, tell nothing.
#[derive(Drop)]
pub(crate) struct Play {
    /// What the last call told.
    pub(crate) told: Telling,
    /// The bytes that it gave.
    bytes: Vec<u8>,
    /// How many lines were played.
    pub(crate) lines: usize,
    pub(crate) moment: u64,
    pub(crate) limits: Limits,
    pub(crate) asking: Asking,
    /// Whether a broker whose store had failed refused all that it was asked for then.
    pub(crate) refuses_all: bool,
    /// The most bytes of a piece.
    size: usize,
    /// Lines behind this are passed over.
    passed_over: &'static str,
}

/// Makes a call, and once more if memory was wanting.
fn ask<B: Broker>(
    told: &mut Telling,
    asking: &mut Asking,
    broker: &mut B,
    call: Call<'_>,
    moment: u64,
) -> Answer {
    match broker.call(told, call, moment) {
        Answer::Refused(EngineError::Memory) => {
            asking.want();
            broker.call(told, call, moment)
        }
        answer => answer,
    }
}

/// The same unless as many were made, or the store has failed.
fn ask_on<B: Broker>(
    told: &mut Telling,
    asking: &mut Asking,
    broker: &mut B,
    call: Call<'_>,
    moment: u64,
) -> Answer {
    if !asking.goes_on() {
        return Answer::Refused(EngineError::Stopped);
    }
    let answer = ask(told, asking, broker, call, moment);
    if let Answer::Refused(EngineError::Stopped) = answer {
        asking.is_stopped = true;
    }
    answer
}

fn tell_error(told: &mut Telling, error: EngineError) {
    told.word(match error {
        EngineError::Memory => " Memory",
        EngineError::Stopped => " Stopped",
        EngineError::Spent => " Spent",
    });
}

/// Gives bytes until all are taken and nothing more is whole, or the broker refuses.
fn offer<B: Broker>(
    told: &mut Telling,
    asking: &mut Asking,
    broker: &mut B,
    line: u64,
    bytes: &[u8],
    moment: u64,
) {
    let mut bytes = bytes;
    for _ in 0..=bytes.len() {
        match ask_on(told, asking, broker, Call::Piece { line, bytes }, moment) {
            Answer::Done { taken, again } => {
                bytes = bytes.get(taken..).unwrap_or(&[]);
                if !again && (bytes.is_empty() || taken == 0) {
                    return;
                }
            }
            Answer::Refused(error) => return tell_error(told, error),
        }
    }
}

/// A line without its sign; none if it is passed over.
fn without_sign<'a>(line: &'a str, passed_over: &str) -> &'a str {
    match line.split_once(' ') {
        Some((sign, _)) if sign == passed_over => "",
        Some(("+" | "-", line)) => line,
        _ => line,
    }
}

/// Whether what was told is what was wanted.
fn is_wanted(told: &str, want: &str) -> bool {
    if want == "*" {
        return !told.contains("Memory") && !told.contains("Stopped") && !told.contains("Spent");
    }
    told.trim() == want
}

impl Play {
    /// Nothing was played yet. Lines behind a word are passed over, and so many calls are made at most.
    pub(crate) fn new(alloc: Global, passed_over: &'static str, most: u64) -> Play {
        Play {
            told: Telling::new(alloc),
            bytes: Vec::new(alloc),
            lines: 0,
            moment: 0,
            limits: LIMITS,
            asking: Asking {
                asked: 0,
                most,
                is_stopped: false,
                wanted: 0,
            },
            refuses_all: false,
            size: usize::MAX,
            passed_over,
        }
    }

    /// How many lines were played, and what the last one told.
    pub(crate) fn end(self) -> (usize, Telling) {
        let Play {
            told,
            bytes,
            lines,
            moment: _,
            limits: _,
            asking: _,
            refuses_all: _,
            size: _,
            passed_over: _,
        } = self;
        drop(bytes);
        (lines, told)
    }

    /// A number, or `none`.
    fn tell_some(&mut self, number: Option<u64>) {
        match number {
            Some(number) => self.told.number(number),
            None => self.told.word("none"),
        }
    }

    fn copy<B: Broker>(&mut self, broker: &mut B, words: &str) {
        let (line, identifier) = halves(words);
        let identifier = identifier.parse::<u16>().unwrap_or(0);
        self.tell_some(broker.publication(number(line), identifier));
    }

    /// The bytes come on a line, if memory sufficed for them.
    fn give<B: Broker>(&mut self, broker: &mut B, line: &str, is_whole: bool) {
        if !is_whole {
            return self.told.shorten();
        }
        let line = number(line);
        for piece in self.bytes.chunks(self.size.max(1)) {
            let (told, asking) = (&mut self.told, &mut self.asking);
            offer(told, asking, broker, line, piece, self.moment);
        }
    }

    fn on<B: Broker>(&mut self, broker: &mut B, words: &str) {
        let (line, words) = halves(words);
        let is_whole = read_bytes(&mut self.bytes, words);
        self.give(broker, line, is_whole);
    }

    fn connect<B: Broker>(&mut self, broker: &mut B, words: &str) {
        let (line, client) = halves(words);
        let is_whole = read_connect(&mut self.bytes, client);
        self.give(broker, line, is_whole);
    }

    /// A turn of sending, of the clock, or a loss.
    fn turn<B: Broker>(&mut self, broker: &mut B, call: Call<'_>) {
        let (told, asking) = (&mut self.told, &mut self.asking);
        match ask_on(told, asking, broker, call, self.moment) {
            Answer::Done { again: true, .. } => self.told.word(" again"),
            Answer::Done { .. } => {}
            Answer::Refused(error) => tell_error(&mut self.told, error),
        }
    }

    /// What is said of the calls to come.
    fn set(&mut self, verb: &str, word: &str) {
        match verb {
            "at" => self.moment = number(word),
            "by" => self.size = word.parse::<usize>().unwrap_or(1),
            "--" | "" => {}
            _ => self.told.word("no call"),
        }
    }

    /// One call.
    fn call<B: Broker>(&mut self, broker: &mut B, call: &str) {
        let (verb, words) = halves(call);
        match verb {
            "link" => self.tell_some(broker.link(self.moment)),
            "on" => self.on(broker, words),
            "connect" => self.connect(broker, words),
            "copy" => self.copy(broker, words),
            "pump" => {
                let line = number(words);
                self.turn(broker, Call::Pump { line });
            }
            "lost" => {
                let line = number(words);
                self.turn(broker, Call::Lost { line });
            }
            "tick" => self.turn(broker, Call::Tick),
            _ => self.set(verb, words),
        }
    }

    /// Calls, one after the other; what the last one tells.
    fn calls<B: Broker>(&mut self, broker: &mut B, calls: &str) {
        for call in calls.split("; ") {
            self.told.clear();
            self.call(broker, call);
        }
    }

    /// Calls as often.
    fn times<B: Broker>(&mut self, broker: &mut B, turned: &mut Telling, words: &str) {
        let (count, calls) = halves(words);
        for turn in 1..=number(count) {
            turned.clear();
            tell_turned(turned, calls, turn);
            self.calls(broker, turned.as_str());
        }
    }

    /// A line; answers whether it tells what it says.
    fn line<B: Broker>(
        &mut self,
        broker: &mut B,
        turned: &mut Telling,
        call: &str,
        want: &str,
    ) -> bool {
        match call.strip_prefix("times ") {
            Some(words) => self.times(broker, turned, words),
            None => self.calls(broker, call),
        }
        is_wanted(self.told.as_str(), want)
    }

    /// Whether the broker is to be opened anew; with which limits is set.
    fn restarts(&mut self, call: &str) -> bool {
        match call.strip_prefix("limits ") {
            Some(words) => {
                self.limits = limits_of(words);
                true
            }
            None => call == "restart",
        }
    }

    /// The lines up to a number of them that weren't played yet, up to a restart, or one that tells something else than it
    /// says.
    pub(crate) fn play<B: Broker>(
        &mut self,
        broker: &mut B,
        turned: &mut Telling,
        script: &str,
        count: usize,
    ) -> Stop {
        for line in script.lines().take(count).skip(self.lines) {
            self.lines = self.lines.wrapping_add(1);
            let line = without_sign(line, self.passed_over);
            let (call, want) = line.split_once(" -> ").unwrap_or((line, ""));
            if self.restarts(call) {
                return Stop::Restart;
            }
            if !self.line(broker, turned, call, want) {
                return Stop::Other;
            }
        }
        Stop::End
    }
}
