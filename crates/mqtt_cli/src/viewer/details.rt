//! What the lines of a view show beside the fields of each packet (ours).

/// What the lines of a view show beside the fields of each packet.
#[derive(Clone, Copy, Debug, PartialEq, Eq)]
pub struct Details {
    /// The first bytes of the payload of a PUBLISH.
    pub payload: bool,
    /// Each property; of a CONNECT its Will and its User Name too.
    pub properties: bool,
    /// One JSON object a line, which has each property, the Will and the User Name in any case.
    pub json: bool,
}
