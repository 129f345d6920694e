//! Owned values and their clones (1.5.4, 1.5.6, 1.5.7, 4.8).

use mqtt_base::{Blob, Cause, CopyId, Pair, Text};
use std::alloc::AllocError;
use std::test::Fail;

/// A clone, which outlives its source.
fn clone_of<T: Clone + Drop>(value: T) -> Result<T, AllocError> {
    let copy: Result<_, _> = value.clone();
    drop(value);
    copy
}

#[test]
fn a_clone_of_a_text_outlives_its_source(rt: HostRuntime) -> Result<(), Fail> {
    assert!(rt; Text::may_hold("caf\u{e9}"));
    let copy = clone_of(Text::new(rt.alloc(), "caf\u{e9}")?)?;
    let is_same = copy.as_str() == "caf\u{e9}";
    drop(copy);
    assert!(rt; is_same);
    Ok(())
}

#[test]
fn a_clone_of_binary_data_has_its_bytes(rt: HostRuntime) -> Result<(), Fail> {
    let blob = Blob::new(rt.alloc(), &[0, 0xff])?;
    let is_made = blob.as_slice() == [0, 0xff].as_slice();
    let copy = clone_of(blob)?;
    let is_same = copy.as_slice() == [0, 0xff].as_slice();
    drop(copy);
    assert!(rt; is_made && is_same);
    Ok(())
}

#[test]
fn shared_binary_data_has_its_bytes(rt: HostRuntime) -> Result<(), Fail> {
    let blob = Blob::new(rt.alloc(), &[0, 0xff])?;
    let shared = blob.share();
    drop(blob);
    let shared = shared?;
    let is_same = shared.as_slice() == [0, 0xff].as_slice();
    drop(shared);
    assert!(rt; is_same);
    Ok(())
}

#[test]
fn a_clone_of_a_pair_has_its_texts(rt: HostRuntime) -> Result<(), Fail> {
    assert!(rt; Text::may_hold("caf\u{e9}") && Text::may_hold("drink"));
    let copy = clone_of(Pair::new(rt.alloc(), "drink", "caf\u{e9}")?)?;
    let is_same = copy.name.as_str() == "drink" && copy.value.as_str() == "caf\u{e9}";
    drop(copy);
    assert!(rt; is_same);
    Ok(())
}

/// Whether the name of a copy that a session got for this cause is cloned.
fn is_cloned(cause: Cause) -> Result<bool, AllocError> {
    let id = CopyId {
        publication: 1,
        birth: 2,
        cause,
    };
    let copy: Result<CopyId, AllocError> = id.clone();
    let is_same = match copy {
        Ok(copy) => {
            let is_same = copy == id;
            drop(copy);
            Ok(is_same)
        }
        Err(error) => Err(error),
    };
    drop(id);
    is_same
}

#[test]
fn a_clone_names_the_same_copy(rt: HostRuntime) -> Result<(), Fail> {
    let group = "name/a/b";
    assert!(rt; Text::may_hold(group));
    let group = Text::new(rt.alloc(), group)?;
    assert!(rt; is_cloned(Cause::Share { group })?);
    assert!(rt; is_cloned(Cause::Direct)?);
    assert!(rt; is_cloned(Cause::Retained { subscribe: 3 })?);
    Ok(())
}
