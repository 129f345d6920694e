//! Lists of properties made from others (2.2.2).

ghost use Rattle.std.specs.Prelude.{◌≡◌, ◌+◌, ◌^◌, ◌<◌, ◌≤◌, ◌++◌, ◌∷◌, [], ℕ, length, slice_index, IfOk, IfErr, OnOk, OnErr};
ghost use Rattle.mqtt_props.specs.Edits.{only, without, AddRefuses, IsTooLong};
ghost use Rattle.mqtt_props.specs.Properties.{props};
ghost use Rattle.mqtt_props.specs.Views.{prop_of};

use super::{PAIRS_LIMIT, PropList, PropsRef};
use crate::fault::PropFault;
use crate::prop::prop_push;
use crate::table::PropName;
use crate::value::PropRef;
use bytes::Bytes;
use std::alloc::{AllocError, Global};

/// The pairs of one list, and behind them those of another.
fn joined(alloc: Global, first: &[u8], second: &[u8]) -> Result<Bytes, PropFault>
    requires first_short { length first.now < 2 ^ 28 }
    requires second_short { length second.now < 2 ^ 63 }
    ensures exact { IfOk result (λ all. all ≡ first.now ++ second.now) }
    ensures bytes { IfOk result (λ all. (i : ℕ) → slice_index all i < 256) }
    ensures short { OnOk result (length first.now + length second.now < 2 ^ 28) }
    ensures refused { IfErr result (IsTooLong (length first.now + length second.now)) }
{
    let len = first.len() + second.len();
    if len >= PAIRS_LIMIT {
        return Err(PropFault::Malformed);
    }
    let mut all = Vec::with_capacity(alloc, len)?;
    all.extend_from_slice(first)?;
    all.extend_from_slice(second)?;
    Ok(Bytes::from_vec(all)?)
}

impl PropsRef<'_> {
    /// A copy of the list with only the properties of that name.
    pub fn only(&self, alloc: Global, name: PropName) -> Result<PropList, AllocError>
        ensures { IfOk result (λ list. list ≡ only name self.now) }
    {
        let mut pairs = Vec::with_capacity(alloc, self.pairs.len())?;
        self.push_only(&mut pairs, name)?;
        Ok(PropList {
            pairs: Bytes::from_vec(pairs)?,
        })
    }

    /// A copy of the list without the properties of that name.
    pub fn without(&self, alloc: Global, name: PropName) -> Result<PropList, AllocError>
        ensures { IfOk result (λ list. list ≡ without name self.now) }
    {
        let mut pairs = Vec::with_capacity(alloc, self.pairs.len())?;
        self.push_without(&mut pairs, name)?;
        Ok(PropList {
            pairs: Bytes::from_vec(pairs)?,
        })
    }

    /// Writes the pairs of the properties with that name at the end.
    fn push_only(&self, out: &mut Vec<u8>, name: PropName) -> Result<(), AllocError>
        ensures ok { OnOk result (out.new.items ≡ out.old.items ++ props (only name self.now)) }
        ensures bytes { (i : ℕ) → slice_index out.new.items i < 256 }
    {
        let mut rest = self.reborrow();
        while let Some((prop, after)) = rest.split_first() {
            if prop.name.id() == name.id() {
                prop_push(out, prop)?;
            }
            rest = after;
        }
        Ok(())
    }

    /// Writes the pairs of the properties with another name at the end.
    fn push_without(&self, out: &mut Vec<u8>, name: PropName) -> Result<(), AllocError>
        ensures ok { OnOk result (out.new.items ≡ out.old.items ++ props (without name self.now)) }
        ensures bytes { (i : ℕ) → slice_index out.new.items i < 256 }
    {
        let mut rest = self.reborrow();
        while let Some((prop, after)) = rest.split_first() {
            if prop.name.id() != name.id() {
                prop_push(out, prop)?;
            }
            rest = after;
        }
        Ok(())
    }
}

impl PropList {
    /// Adds the property at the end.
    ///
    /// The bytes are copied, so that lists which share them stay as they are. `Malformed` if the
    /// longer list has no spelling as a block: the value is not of its kind or passes its limits,
    /// or the pairs would have more than 268,435,455 bytes.
    pub fn push(&mut self, alloc: Global, prop: PropRef<'_>) -> Result<(), PropFault>
        ensures ok { OnOk result (self.new ≡ self.old ++ prop_of prop.entry ∷ []) }
        ensures err { OnErr result (self.new ≡ self.old) }
        ensures refused { IfErr result (AddRefuses (self.old ++ prop_of prop.entry ∷ [])) }
    {
        if !prop.fits() {
            return Err(PropFault::Malformed);
        }
        let mut pair = Vec::new(alloc);
        prop_push(&mut pair, prop)?;
        self.pairs = joined(alloc, self.pairs.as_slice(), pair.as_slice())?;
        Ok(())
    }

    /// Adds the properties of the other list at the end.
    ///
    /// The bytes are copied, so that lists which share them stay as they are. `Malformed` if the
    /// pairs would have more than 268,435,455 bytes.
    pub fn append(&mut self, alloc: Global, list: &PropsRef<'_>) -> Result<(), PropFault>
        ensures ok { OnOk result (self.new ≡ self.old ++ list.now) }
        ensures err { OnErr result (self.new ≡ self.old) }
        ensures refused { IfErr result (AddRefuses (self.old ++ list.now)) }
    {
        self.pairs = joined(alloc, self.pairs.as_slice(), list.pairs)?;
        Ok(())
    }
}
