//! What packets are made of: why one is refused, blocks and bits as parts, owned parts (2.2, 4.13).

mod bits;
mod blocks;
mod fault;
mod owned;

pub use self::bits::qos_of;
pub use self::blocks::stands;
pub use self::fault::Fault;
pub use self::owned::both;
