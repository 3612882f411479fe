//! A cursor over a buffer that owns its bytes.

use octets::Cursor;
use octets_vectors::owned::{Datagram, address, mark};
use std::alloc::{AllocError, Global};

/// Returns a datagram of so many bytes 9.
fn nines(alloc: Global, len: usize) -> Result<Datagram, AllocError> {
    Ok(Datagram::new(Vec::from_elem(alloc, 9, len)?))
}

/// Whether the datagram has these bytes.
fn has(datagram: Datagram, bytes: &[u8]) -> bool {
    datagram.into_payload().as_slice() == bytes
}

/// Whether bytes and an encoding are written into a datagram, and the datagram is given back.
fn is_written(alloc: Global) -> Result<bool, AllocError> {
    let mut cursor = Cursor::with_buffer(nines(alloc, 6)?);
    let is_written = cursor.put_bytes(&[1, 2]).is_ok()
        && cursor.put_huffman_encoded::<false>(b"a").is_ok()
        && cursor.off() == 3
        && cursor.put_bytes(&[1, 2, 3, 4]).is_err();
    Ok(is_written && has(cursor.into_buffer(), &[1, 2, 0x1f, 9, 9, 9]))
}

/// Whether a datagram of so many bytes is addressed and then has these, or is too short.
fn is_addressed(alloc: Global, len: usize, wanted: Option<&[u8]>) -> Result<bool, AllocError> {
    match (address(nines(alloc, len)?, 7, b"a"), wanted) {
        (Ok(addressed), Some(bytes)) => Ok(has(addressed, bytes)),
        (Err(_), None) => Ok(true),
        _ => Ok(false),
    }
}

/// Whether a byte of a datagram is marked.
fn is_marked(alloc: Global) -> Result<bool, AllocError> {
    let datagram = Datagram::new([9; 3].to_vec(alloc)?);
    Ok(has(mark(datagram, 2, 5), &[9, 9, 5]))
}

#[test]
fn writes_and_gives_back(rt: HostRuntime) {
    assert!(rt; is_written(rt.alloc()) == Ok(true));
    assert!(rt; is_addressed(rt.alloc(), 3, Some(&[7, 0x1f, 9])) == Ok(true));
    assert!(rt; is_addressed(rt.alloc(), 1, None) == Ok(true));
    assert!(rt; is_marked(rt.alloc()) == Ok(true));
}
