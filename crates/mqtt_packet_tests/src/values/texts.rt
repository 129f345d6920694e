//! Texts and binary data from the standard's sections, read (1.5.4, 1.5.6).

use mqtt_base::{ReadFault, Text, blob_read, text_read, u8_read, u32_read};

/// Bytes, and the text that they are.
fn texts() -> &'static [(&'static [u8], &'static str)] {
    &[
        (&[0, 0], ""),
        // The example of 1.5.4: U+0041, then U+2A6D4.
        (&[0, 5, 0x41, 0xf0, 0xaa, 0x9b, 0x94], "A\u{2a6d4}"),
        // U+FEFF is kept (1.5.4), first or not.
        (&[0, 3, 0xef, 0xbb, 0xbf], "\u{feff}"),
        (&[0, 4, 0x41, 0xef, 0xbb, 0xbf], "A\u{feff}"),
        // Control characters and noncharacters are accepted (ours).
        (&[0, 2, 0x01, 0x1f], "\u{1}\u{1f}"),
        (&[0, 3, 0x7f, 0xc2, 0x9f], "\u{7f}\u{9f}"),
        (&[0, 3, 0xef, 0xbf, 0xbf], "\u{ffff}"),
        (&[0, 4, 0xf4, 0x8f, 0xbf, 0xbf], "\u{10ffff}"),
    ]
}

#[test]
fn texts_are_utf8_without_null(rt: HostRuntime) {
    for (bytes, text) in texts() {
        let found = text_read(bytes);
        assert!(rt; found == Ok((*text, bytes.len())), "at {bytes:?}");
    }
}

/// Bytes, and why they are no text.
fn bad_texts() -> &'static [(&'static [u8], ReadFault)] {
    &[
        (&[], ReadFault::Short),
        (&[0], ReadFault::Short),
        (&[0, 1], ReadFault::Short),
        // Bad bytes that are not all there: the input ends first.
        (&[0, 2, 0x00], ReadFault::Short),
        (&[1, 0, 0xff], ReadFault::Short),
        // U+0000, alone and between others.
        (&[0, 1, 0x00], ReadFault::BadText),
        (&[0, 3, 0x41, 0x00, 0x42], ReadFault::BadText),
        // U+D800 and U+DFFF, surrogates.
        (&[0, 3, 0xed, 0xa0, 0x80], ReadFault::BadText),
        (&[0, 3, 0xed, 0xbf, 0xbf], ReadFault::BadText),
        // Overlong UTF-8 of U+0000 and of '/'.
        (&[0, 2, 0xc0, 0x80], ReadFault::BadText),
        (&[0, 2, 0xc0, 0xaf], ReadFault::BadText),
        // Above U+10FFFF, and a character that the text cuts off.
        (&[0, 4, 0xf4, 0x90, 0x80, 0x80], ReadFault::BadText),
        (&[0, 2, 0xe2, 0x82, 0xac], ReadFault::BadText),
    ]
}

#[test]
fn bad_texts_are_refused_once_all_bytes_are_there(rt: HostRuntime) {
    for (bytes, fault) in bad_texts() {
        let found = text_read(bytes);
        assert!(rt; found == Err(*fault), "at {bytes:?}");
    }
}

#[test]
fn binary_data_may_hold_any_byte(rt: HostRuntime) {
    assert!(rt; blob_read(&[0, 0]) == Ok(([].as_slice(), 2)));
    assert!(rt; blob_read(&[0, 3, 0, 0xff, 0xed]) == Ok(([0, 0xff, 0xed].as_slice(), 5)));
    assert!(rt;
        blob_read(&[0, 3, 0, 0xff]) == Err(ReadFault::Short),
        "a byte is missing"
    );
    assert!(rt; blob_read(&[0]) == Err(ReadFault::Short), "half a length");
    assert!(rt; u8_read(&[]) == Err(ReadFault::Short));
    assert!(rt; u32_read(&[0, 1, 0]) == Err(ReadFault::Short));
}

#[test]
fn texts_may_hold_all_but_u_0000(rt: HostRuntime) {
    for (text, holds) in [("", true), ("\u{feff}a\u{1}", true), ("a\0b", false)] {
        assert!(rt; Text::may_hold(text) == holds, "at {text:?}");
    }
}
