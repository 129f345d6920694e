//! Numbers from the standard's tables, read and written (1.5.1 to 1.5.3, 1.5.5).

use mqtt_base::{
    ReadFault, blob_push, blob_read, text_read, u8_read, u16_push, u32_read, varint_len,
    varint_push, varint_read, varint_write,
};
use std::test::Fail;

/// The least and the greatest number of each length (Table 1-1 of 1.5.5), and how they are written.
fn varints() -> &'static [(u32, &'static [u8])] {
    &[
        (0, &[0x00]),
        (127, &[0x7f]),
        (128, &[0x80, 0x01]),
        (16_383, &[0xff, 0x7f]),
        (16_384, &[0x80, 0x80, 0x01]),
        (2_097_151, &[0xff, 0xff, 0x7f]),
        (2_097_152, &[0x80, 0x80, 0x80, 0x01]),
        (268_435_455, &[0xff, 0xff, 0xff, 0x7f]),
        (321, &[0xc1, 0x02]),
    ]
}

#[test]
fn varints_are_those_of_table_1_1(rt: HostRuntime) {
    for (value, bytes) in varints() {
        let value = *value;
        let found = varint_read(bytes);
        assert!(rt; found == Ok((value, bytes.len())), "reading {value}");
        let mut out = [0xee; 4];
        assert!(rt; value < 268_435_456);
        assert!(rt; varint_len(value) == bytes.len(), "length of {value}");
        let len = varint_write(value, &mut out);
        assert!(rt; len == bytes.len() && len <= 4, "writing {value}");
        assert!(rt; &out[..len] == *bytes, "writing {value}");
    }
}

/// Bytes, and why they are no variable byte integer.
fn bad_varints() -> &'static [(&'static [u8], ReadFault)] {
    &[
        (&[], ReadFault::Short),
        (&[0x80], ReadFault::Short),
        (&[0xff, 0xff], ReadFault::Short),
        (&[0xff, 0xff, 0xff], ReadFault::Short),
        (&[0x80, 0x00], ReadFault::Overlong),
        (&[0x80, 0x80, 0x00], ReadFault::Overlong),
        (&[0xff, 0xff, 0xff, 0x00], ReadFault::Overlong),
        (&[0xff, 0xff, 0xff, 0xff, 0x01], ReadFault::Overlong),
        (&[0xff, 0xff, 0xff, 0x80], ReadFault::Overlong),
    ]
}

#[test]
fn varints_that_end_early_or_are_too_long_are_refused(rt: HostRuntime) {
    for (bytes, fault) in bad_varints() {
        let found = varint_read(bytes);
        assert!(rt; found == Err(*fault), "at {bytes:?}");
    }
}

#[test]
fn what_follows_a_value_is_left(rt: HostRuntime) {
    assert!(rt; varint_read(&[0x7f, 0x00, 0xff]) == Ok((127, 1)));
    assert!(rt; text_read(&[0, 1, 0x41, 0x42]) == Ok(("A", 3)));
    assert!(rt; blob_read(&[0, 1, 0x00, 0x42]) == Ok(([0x00].as_slice(), 3)));
    assert!(rt; u8_read(&[0xff, 1]) == Ok((255, 1)));
    assert!(rt; u32_read(&[0, 1, 0, 2, 9]) == Ok((65_538, 4)));
}

#[test]
fn values_are_written_at_the_end(rt: HostRuntime) -> Result<(), Fail> {
    let mut out = Vec::new(rt.alloc());
    varint_push(&mut out, 321)?;
    u16_push(&mut out, 10)?;
    blob_push(&mut out, b"a/b")?;
    assert!(rt; out.as_slice() == [0xc1, 0x02, 0, 10, 0, 3, b'a', b'/', b'b'].as_slice());
    Ok(())
}

#[test]
fn a_refused_growth_leaves_what_stood(rt: HostRuntime) -> Result<(), Fail> {
    // Room for one byte: whatever of the rest is refused, nothing of it is written.
    let mut out = Vec::with_capacity(rt.alloc(), 1)?;
    out.push(0xaa)?;
    let pushed = blob_push(&mut out, b"a/b");
    let is_same = pushed.is_ok() || out.as_slice() == [0xaa].as_slice();
    let before = out.len();
    let pushed = varint_push(&mut out, 268_435_455);
    let is_left = pushed.is_ok() || out.len() == before;
    drop(out);
    assert!(rt; is_same, "binary data");
    assert!(rt; is_left, "a variable byte integer");
    Ok(())
}
