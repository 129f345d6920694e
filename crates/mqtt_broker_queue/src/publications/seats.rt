//! On which line a session is connected, without a look at those before it (ours).
ghost use Rattle.std.specs.Prelude.{◌≡◌, ◌≤◌, ◌<◌, List, length, find, drop, Some, None, option_copied};
ghost use Rattle.mqtt_base.specs.declared.limits.TheConstants.{LINE_LIMIT as line_limit};
ghost use Rattle.mqtt_rules.specs.step.State.{Line, is_of, line_at, line_of};
ghost use Rattle.mqtt_broker_queue.specs.publications.Seats.{AreSeats, AreSeatsOf, IsNoneBefore, seat_of, seated};

use mqtt_broker_step::{LineState, Step};

/// How many seats there are: some more than lines may stand.
pub(crate) const SEATS: usize = 1_024;

/// For so few copies the lines are not looked at first, and no room is made at once.
pub(crate) const FEW: usize = 4;

/// The seats of sessions, by their births: the line of a session stands at its seat or behind it. Sessions with births that
/// leave the same rest have one seat.
#[derive(Drop)]
pub(crate) struct Seats {
    pub(crate) known: Option<[u16; SEATS]>,
}

/// The number of a birth's seat.
fn seat_of(birth: u64) -> usize
    ensures seat { result ≡ seat_of birth }
    ensures below { result < SEATS }
{
    (birth % SEATS as u64) as usize
}

/// The session of the line at an index, if there is one, takes its seat.
fn take_seat(seats: &mut [u16; SEATS], session: Option<u64>, at: u16)
    ensures { seats.new ≡ seated session at seats.old }
{
    if let Some(birth) = session {
        seats[seat_of(birth)] = at;
    }
}

/// The seats of the sessions that are connected on lines. The first of those that have one seat gives it its index.
fn seats_of(lines: &[LineState]) -> [u16; SEATS]
    requires { length lines.now ≤ line_limit }
    ensures { AreSeatsOf result lines.now }
{
    let mut seats = [lines.len() as u16; SEATS];
    let mut at = lines.len();
    while at > 0 {
        at -= 1;
        take_seat(&mut seats, lines[at].session(), at as u16);
    }
    seats
}

/// The first line that a session is connected on.
fn line_in(lines: &[LineState], birth: u64) -> Option<&LineState>
    ensures { option_copied result ≡ find (λ l. is_of l.session birth) lines.now }
{
    lines.iter().find(|line| line.is_of(birth))
}

/// The first line from an index on that a session is connected on.
#[tactic(auto, using(std::proofs::lemmas::List::drop_min))]
fn line_from(lines: &[LineState], at: usize, birth: u64) -> Option<&LineState>
    ensures { option_copied result ≡ find (λ l. is_of l.session birth) (drop at lines.now) }
{
    let (_, behind) = lines.split_at(at.min(lines.len()));
    line_in(behind, birth)
}

impl Seats {
    /// No seat is known: each line is looked at.
    pub(crate) fn unknown() -> Seats
        ensures { (lines : List Line) → AreSeats result lines }
    {
        Seats { known: None }
    }

    /// The seats for so many copies: known if they are more than a few.
    pub(crate) fn for_copies(count: usize, step: &Step) -> Seats
        ensures { AreSeats result step.now.broker.lines }
    {
        if count <= FEW {
            return Seats::unknown();
        }
        Seats {
            known: Some(seats_of(step.lines())),
        }
    }

    /// No seat is known from here on: the lines may change.
    pub(crate) fn forget(&mut self)
        ensures { (lines : List Line) → AreSeats self.new lines }
    {
        self.known = None;
    }

    /// The seat of a birth; the first if none is known.
    fn seat(&self, birth: u64) -> usize
        ensures { (lines : List Line) → AreSeats self.now lines → IsNoneBefore birth result lines }
    {
        match &self.known {
            Some(seats) => seats[seat_of(birth)] as usize,
            None => 0,
        }
    }

    /// The line that a session is connected on, which is that with its number.
    pub(crate) fn line_of<'a>(&self, step: &'a Step, birth: u64) -> Option<&'a LineState>
        requires { AreSeats self.now step.now.broker.lines }
        ensures line { option_copied result ≡ line_of birth step.now.broker }
        ensures own { (l : Line) → line_of birth step.now.broker ≡ Some l
            → line_at l.number step.now.broker ≡ Some l }
    {
        line_from(step.lines(), self.seat(birth), birth)
    }
}
