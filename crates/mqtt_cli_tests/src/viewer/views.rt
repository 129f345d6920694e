//! Views of inputs that come whole, and of the same a byte a read.

use mqtt_cli::{Details, Status, ViewFault, view};
use std::alloc::Global;
use std::io::{self, Read};

/// The fields alone.
const FIELDS: Details = Details {
    payload: false,
    properties: false,
    json: false,
};

/// A reader that gives a byte a read.
#[derive(Drop)]
struct Bytewise<'a> {
    bytes: &'a [u8],
}

impl Read for Bytewise<'_> {
    fn read(&mut self, buf: &mut [u8]) -> io::Result<usize> {
        let Some((byte, rest)) = self.bytes.split_first() else {
            return Ok(0);
        };
        let Some(place) = buf.first_mut() else {
            return Ok(0);
        };
        *place = *byte;
        self.bytes = rest;
        Ok(1)
    }
}

/// Why there is no view. If an allocation is refused, nothing but want of memory may be told.
pub(crate) fn why(fault: ViewFault) -> &'static str {
    match fault {
        ViewFault::Read => "a failed read",
        ViewFault::Write => "a failed write",
        ViewFault::Memory => "want of memory",
    }
}

/// Writes the view of an input that comes a byte a read.
fn view_bytewise(alloc: Global, input: &[u8], written: &mut Vec<u8>) -> Result<Status, ViewFault> {
    let mut reader = Bytewise { bytes: input };
    let status = view(alloc, &mut reader, written, FIELDS);
    drop(reader);
    status
}

/// The status of an input's view, whose text is written, or none if it isn't the same a byte a read: text, and with
/// it each place, or status.
pub(crate) fn one_view(
    alloc: Global,
    input: &[u8],
    written: &mut Vec<u8>,
    again: &mut Vec<u8>,
) -> Result<Option<Status>, ViewFault> {
    written.clear();
    again.clear();
    let mut reader = input;
    let status = view(alloc, &mut reader, written, FIELDS)?;
    if view_bytewise(alloc, input, again)? == status && again.as_slice() == written.as_slice() {
        Ok(Some(status))
    } else {
        Ok(None)
    }
}
