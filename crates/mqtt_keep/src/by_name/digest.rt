//! A digest of a client identifier, and the row that a session has in the list of them (ours).
ghost use Rattle.std.specs.Prelude.{◌≡◌};
ghost use Rattle.mqtt_keep.specs.by_name.Digests.{digest_of, digest_row};

use mqtt_records::{Editable, Row, Session};

/// A digest is below this, so that the next step of it stays within 64 bits.
const DIGEST_LIMIT: u64 = 1 << 32;

/// The digest of a client identifier.
pub(crate) fn digest_of(client: &str) -> u64
    ensures { result ≡ digest_of client.now }
{
    let bytes = client.as_bytes();
    let mut digest: u64 = 0;
    for byte in bytes {
        digest = (digest * 31 + u64::from(*byte)) % DIGEST_LIMIT;
    }
    digest
}

/// A session's birth, and the digest of its client identifier.
#[derive(Clone, Copy, Drop)]
pub(crate) struct DigestRow {
    pub(crate) birth: u64,
    pub(crate) digest: u64,
}

impl Row for DigestRow {
    ghost key_of = { λ row. row.birth };

    fn key(&self) -> u64 {
        self.birth
    }
}

impl Editable for DigestRow {
    type Part = u64;

    ghost use Rattle.mqtt_keep.specs.by_name.Digests.{with_digest};

    ghost edited = { with_digest };

    fn edit(&mut self, digest: u64) {
        self.digest = digest;
    }

    ghost use Rattle.std.proofs.Common.{refl};

    ghost key_kept = { λ digest row. refl };
}

/// The row of a session.
pub(crate) fn digest_row(session: &Session) -> DigestRow
    ensures { result ≡ digest_row session.now }
{
    DigestRow {
        birth: session.birth,
        digest: digest_of(session.client.as_str()),
    }
}
