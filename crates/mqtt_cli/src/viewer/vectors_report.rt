//! The report on the vectors (ours).

ghost use Rattle.std.specs.Prelude.{◌≡◌, ◌+◌, ◌<◌, ◌++◌, ◌==◌, if◌then◌else◌, length, OnOk};
ghost use Rattle.std.specs.String.{string_bytes};
ghost use Rattle.mqtt_cli.specs.viewer.Vectors.{vector_line, lines_from, how_many, report};

use crate::viewer::viewer::Status;
use std::alloc::AllocError;

/// Adds the line of a vector.
fn push_line(text: &mut String, number: usize, is_right: bool) -> Result<(), AllocError>
    ensures { OnOk result (string_bytes text.new
        ≡ string_bytes text.old ++ vector_line number is_right) }
{
    let outcome = if is_right { "ok" } else { "wrong" };
    writeln!(text, "V{number} {outcome}")
}

/// Adds a line for each vector, of which the first has this number.
fn push_lines(text: &mut String, first: usize, rights: &[bool]) -> Result<(), AllocError>
    requires { first + length rights.now < 18446744073709551616 }
    ensures { OnOk result (string_bytes text.new
        ≡ string_bytes text.old ++ lines_from first rights.now) }
{
    let mut number = first;
    let mut rest = rights;
    while let Some((is_right, after)) = rest.split_first() {
        push_line(text, number, *is_right)?;
        number += 1;
        rest = after;
    }
    Ok(())
}

/// How many are right.
fn count_of(rights: &[bool]) -> usize
    ensures { result ≡ how_many rights.now }
{
    let mut count: usize = 0;
    let mut rest = rights;
    while let Some((is_right, after)) = rest.split_first() {
        count += usize::from(*is_right);
        rest = after;
    }
    count
}

/// Adds the report on vectors of which these are right.
#[tactic(auto, using(std::proofs::lemmas::List::append_assoc))]
pub fn push_report(text: &mut String, rights: &[bool]) -> Result<(), AllocError>
    requires { length rights.now < 1000 }
    ensures { OnOk result (string_bytes text.new ≡ string_bytes text.old ++ report rights.now) }
{
    push_lines(text, 1, rights)?;
    let count = count_of(rights);
    let all = rights.len();
    writeln!(text, "{count} of {all}")
}

/// The status of a report.
pub fn status_of(rights: &[bool]) -> Status
    ensures { result ≡ (if how_many rights.now == length rights.now then Status.Whole else Status.Faulty) }
{
    if count_of(rights) == rights.len() {
        Status::Whole
    } else {
        Status::Faulty
    }
}
