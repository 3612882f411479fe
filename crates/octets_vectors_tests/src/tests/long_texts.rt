//! Encodings of many codes, compared with a decoder that reads bit by bit.

use super::assert_held;
use super::decoding::{ANY, Wanted, all_decode};
use super::walk::{agrees, is_copied};
use std::alloc::{AllocError, Global};

/// Eight codes of `a`, 00011 each.
static EIGHT_A: [u8; 5] = [0x18, 0xc6, 0x31, 0x8c, 0x63];

/// Returns the codes of `count` times `a`, and one bits up to the end of the byte.
pub fn text_of_a(alloc: Global, count: u32) -> Result<Vec<u8>, AllocError> {
    let bits = u64::from(count) * 5;
    let mut text = Vec::new(alloc);
    for i in 0..bits.div_ceil(8) {
        text.push(EIGHT_A[(i % 5) as usize])?;
    }
    if let Some(last) = text.last_mut() {
        let fill = (8 - bits % 8) % 8;
        *last |= (1 << fill) - 1;
    }
    Ok(text)
}

/// Whether the encoding of `count` times `a` is decoded to as many within `limit`, all of its bytes
/// are passed, and each takes two steps.
fn gives_a(alloc: Global, text: &[u8], count: u32, limit: usize) -> Result<bool, AllocError> {
    let mut value = Vec::new(alloc);
    value.resize(count as usize, b'a')?;
    let wanted = Wanted {
        value: Some(value.as_slice()),
        off: text.len(),
        steps: 2 * text.len() as u128,
    };
    Ok(all_decode(alloc, text, limit, &wanted))
}

/// Whether the decodes fail at the last code under a limit of one byte less than the value has.
fn fails_below(alloc: Global, text: &[u8], count: u32) -> bool {
    let wanted = Wanted {
        value: None,
        off: text.len(),
        steps: (u128::from(count) * 5).div_ceil(4),
    };
    all_decode(alloc, text, (count as usize).saturating_sub(1), &wanted)
}

/// Whether the value is decoded under a limit of as many bytes, and not under one byte less, as by
/// the decoder by bits; and the encoding is copied.
fn is_decoded(alloc: Global, count: u32) -> Result<bool, AllocError> {
    let text = text_of_a(alloc, count)?;
    let length = count as usize;
    Ok(
        gives_a(alloc, &text, count, length)?
            && fails_below(alloc, &text, count)
            && agrees(alloc, &text, length.saturating_sub(1))?
            && is_copied(alloc, &text)?,
    )
}

#[test]
fn decodes_texts_of_up_to_4096_codes(rt: HostRuntime) {
    for count in 1..=4_096 {
        let is_decoded = is_decoded(rt.alloc(), count);
        assert_held(&rt, "codes of a", count as usize, is_decoded);
    }
}

/// Whether 120,000 codes, which have 600,000 bits, are decoded from 75,000 bytes without padding.
fn is_decoded_from_75000(alloc: Global) -> Result<bool, AllocError> {
    let text = text_of_a(alloc, 120_000)?;
    Ok(
        text.len() == 75_000
            && gives_a(alloc, &text, 120_000, ANY)?
            && agrees(alloc, &text, 120_000)?
            && is_decoded(alloc, 120_000)?,
    )
}

#[test]
fn decodes_a_text_of_75000_bytes(rt: HostRuntime) {
    assert_held(&rt, "bytes", 75_000, is_decoded_from_75000(rt.alloc()));
}
