//! Pairs of texts (1.5.7).

ghost use Rattle.std.specs.Prelude.{◌≡◌, IfOk};
ghost use Rattle.mqtt_base.specs.Values.{FitsText};

use crate::text::Text;
use std::alloc::{AllocError, Global};

/// An owned pair of texts (1.5.7): a User Property. Clones share the bytes.
#[derive(Debug, PartialEq, Eq, Hash, Drop)]
pub struct Pair {
    /// The name.
    pub name: Text,
    /// The value.
    pub value: Text,
}

impl Pair {
    /// Copies both texts.
    pub fn new(alloc: Global, name: &str, value: &str) -> Result<Pair, AllocError>
        requires name { FitsText name.now }
        requires value { FitsText value.now }
        ensures { IfOk result (λ pair. pair ≡ record { name = name.now; value = value.now }) }
    {
        Ok(Pair {
            name: Text::new(alloc, name)?,
            value: Text::new(alloc, value)?,
        })
    }
}

impl Clone for Pair {
    ghost is_clone = { λ pair copy. copy ≡ pair };

    /// Another owner of the same bytes.
    fn clone(&self) -> Result<Pair, AllocError> {
        Ok(Pair {
            name: self.name.clone()?,
            value: self.value.clone()?,
        })
    }
}
