//! Cursors at an offset.
ghost use Rattle.std.specs.Prelude.{◌≡◌, ◌↔◌, ◌+◌, ◌≤◌, ◌<◌, drop, length, IsOk, IfOk};
ghost use Rattle.std.specs.Prelude.{OnErr};
ghost use Rattle.octets.specs.Bytes.{part};
ghost use Rattle.octets.specs.Cursor.{bytes, position};

use octets::{BufferTooShortError, Octets, Result};

/// Returns a cursor that has passed `off` bytes. It fails if the buffer has fewer.
pub(crate) fn at(buffer: &[u8], off: usize) -> Result<Octets<'_>>
    ensures fits { IsOk result ↔ (off ≤ length buffer.now) }
    ensures none_behind { OnErr result (length (drop off buffer.now) ≡ 0) }
    ensures stands { IfOk result (λ c. (bytes c ≡ buffer.now) × (position c ≡ off)) }
{
    let mut cursor = Octets::with_slice(buffer);
    cursor.skip(off)?;
    Ok(cursor)
}

/// Returns a cursor that has passed `off` bytes, if at least one more byte remains. If this is
/// inlined, a read of the next byte doesn't test again whether the byte is there.
pub(crate) fn at_byte(buffer: &[u8], off: usize) -> Result<Octets<'_>>
    ensures fits { IsOk result ↔ (off < length buffer.now) }
    ensures none_behind { OnErr result (length (drop off buffer.now) ≡ 0) }
    ensures stands { IfOk result (λ c. (bytes c ≡ buffer.now) × (position c ≡ off)) }
{
    if buffer.len() <= off {
        return Err(BufferTooShortError);
    }
    at(buffer, off)
}

/// Returns a cursor over the byte at `off` and the `more` bytes after it. It fails if one of them
/// is missing.
///
/// If this is inlined, a read of these bytes doesn't test again whether they are there, and a loop
/// over it computes the difference once.
pub(crate) fn over(buffer: &[u8], off: usize, more: usize) -> Result<Octets<'_>>
    ensures fits { IsOk result ↔ (off + more < length buffer.now) }
    ensures shows { IfOk result
        (λ c. (bytes c ≡ part buffer.now off (more + 1)) × (position c ≡ 0)) }
{
    if buffer.len().saturating_sub(more) <= off {
        return Err(BufferTooShortError);
    }
    Ok(Octets::with_slice(&buffer[off..off + more + 1]))
}

/// Reads `count` bytes at the offset by a cursor over them, and moves the offset past them.
macro_rules! read_at {
    ($bytes:ident, $off:ident, $value:ident, $count:literal, $cursor:ident => $read:expr) => {{
        let Ok(mut $cursor) = over($bytes, *$off, $count - 1) else {
            return SHORT;
        };
        let Ok(read) = $read else {
            return SHORT;
        };
        *$value = read;
        *$off += $cursor.off();
        DONE
    }};
}

/// Writes by a cursor at the offset, and moves the offset past what was written.
macro_rules! write_at {
    ($bytes:ident, $off:ident, $cursor:ident => $write:expr) => {{
        let mut $cursor = OctetsMut::with_slice($bytes);
        if $cursor.skip(*$off).is_err() || $write.is_err() {
            return SHORT;
        }
        *$off = $cursor.off();
        DONE
    }};
}

pub(crate) use read_at;
pub(crate) use write_at;
