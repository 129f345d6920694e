//! Which value of a command line is not of its form, and what it has to be (ours).

use crate::command::values::{address_read, commit_read, count_read, full_read, size_read};
use clap::ArgMatches;

/// An option whose value is not of its form.
#[derive(Clone, Copy)]
pub(crate) struct WrongValue<'a> {
    /// The option's name.
    pub(crate) option: &'static str,
    /// The value that it was given.
    pub(crate) value: &'a str,
    /// What it takes.
    pub(crate) form: &'static str,
}

/// What `--queue`, `--sessions`, `--retained` and `--connections` take.
const SIZE: &str = "a number from 1 to 1000";

/// Each option that takes a value of some form, and that form.
const FORMS: [(&str, &str); 8] = [
    (
        "listen",
        "an IPv4 address and a port without leading zeros, as 127.0.0.1:1883",
    ),
    ("turns", "a number from 1 to 4294967295"),
    ("commit", "turn or step"),
    ("full", "refuse or drop"),
    ("queue", SIZE),
    ("sessions", SIZE),
    ("retained", SIZE),
    ("connections", SIZE),
];

/// The first option in the matches of a command whose value is not of its form.
pub(crate) fn wrong_value<'a>(matches: &ArgMatches<'a>) -> Option<WrongValue<'a>> {
    for (option, form) in FORMS {
        if let Some(value) = matches.get_str(option) {
            if !is_of_form(option, value) {
                return Some(WrongValue {
                    option,
                    value,
                    form,
                });
            }
        }
    }
    None
}

/// Whether a value is of the form that an option takes.
fn is_of_form(option: &str, value: &str) -> bool {
    match option {
        "listen" => address_read(value).is_some(),
        "turns" => count_read(value).is_some(),
        "commit" => commit_read(value).is_some(),
        "full" => full_read(value).is_some(),
        _ => size_read(value, 1_000).is_some(),
    }
}
