//! Changes of sessions, copies and open identifiers (4.1).

use bytes::Bytes;
use mqtt_base::{Cause, CopyId, Phase, Qos, Text};
use mqtt_records::{
    Boxed, Change, Columns, Content, CopyRow, MessageCopy, PassedOn, SessionRow,
    SubscriptionIdentifiers,
};
use std::alloc::{AllocError, Global};

/// A text that is one.
fn text(alloc: Global, text: &str) -> Result<Text, AllocError> {
    if !Text::may_hold(text) {
        return Err(AllocError);
    }
    Text::new(alloc, text)
}

/// What makes changes: what all messages say.
#[derive(Drop)]
pub(crate) struct Maker {
    alloc: Global,
    content: Content,
}

impl Maker {
    /// Messages of five bytes to `a/b`.
    pub(crate) fn new(alloc: Global) -> Result<Maker, AllocError> {
        let topic = text(alloc, "a/b")?;
        match Bytes::copy_from_slice(alloc, b"12345") {
            Ok(payload) => Ok(Maker {
                alloc,
                content: Content {
                    topic,
                    properties: PassedOn::new(),
                    payload,
                    arrived: 0,
                },
            }),
            Err(fault) => {
                drop(topic);
                Err(fault)
            }
        }
    }

    pub(crate) fn alloc(&self) -> Global {
        self.alloc
    }

    fn message_copy(&self, birth: u64, publication: u64) -> Result<MessageCopy, AllocError> {
        let content = self.content.clone()?;
        Ok(MessageCopy {
            id: CopyId {
                publication,
                birth,
                cause: Cause::Direct,
            },
            qos: Qos::ExactlyOnce,
            retain: false,
            identifiers: SubscriptionIdentifiers::new(self.alloc),
            content,
        })
    }

    /// A copy of a publication waits in a session, at the place of the publication's number.
    pub(crate) fn copy(&self, birth: u64, publication: u64) -> Result<Change, AllocError> {
        let copy = self.message_copy(birth, publication)?;
        let Ok(row) = CopyRow::new(self.alloc, publication, Phase::Waiting, copy) else {
            return Err(AllocError);
        };
        Ok(Change::PutCopy {
            birth,
            row: Boxed::new(self.alloc, row)?,
        })
    }

    /// The client identifier of a session: `c` and its number.
    fn client(&self, birth: u64) -> Result<Text, AllocError> {
        let name = format!(in self.alloc; "c{birth}")?;
        let client = text(self.alloc, name.as_str());
        drop(name);
        client
    }

    /// A session that is connected.
    pub(crate) fn session(&self, birth: u64) -> Result<Change, AllocError> {
        let columns = Columns {
            birth,
            client: self.client(birth)?,
            expiry: u32::MAX,
            closed: None,
        };
        Ok(Change::PutSession {
            row: SessionRow::new(self.alloc, columns)?,
        })
    }

    /// Adds a session with so many copies.
    pub(crate) fn add_session(
        &self,
        changes: &mut Vec<Change>,
        birth: u64,
        copies: u64,
    ) -> Result<(), AllocError> {
        let session = self.session(birth)?;
        changes.push(session)?;
        for publication in 1..=copies {
            let copy = self.copy(birth, publication)?;
            changes.push(copy)?;
        }
        Ok(())
    }
}
