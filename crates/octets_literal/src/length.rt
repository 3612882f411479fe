//! The length of a literal: an integer with a prefix of 7 bits (RFC 7541, section 5.1), with the
//! flag H before it.
ghost use Rattle.std.specs.Prelude.{◌≡◌, ◌*◌, ◌<◌, ◌≤◌, IfOk, IfErr, is_ok};
ghost use Rattle.octets_code.specs.Texts.{AreBytes};
ghost use Rattle.octets_literal.specs.Integers.{groups_of, integer};
ghost use Rattle.octets_literal.specs.Literals.{flag};
ghost use Rattle.octets_literal.specs.Faults.{BeginsLength};
ghost use Rattle.octets_literal.specs.Lengths.{AreGroups, HasNoGroups, HasNoLength};
ghost use Rattle.octets_literal.specs.Puts.{Puts};

use crate::error::LiteralError;
use octets::OctetsWriter;

/// The greatest number of data bytes of a literal that is read or written: 2 to the power 32, less
/// one.
pub const MAX_LITERAL_LEN: usize = 4_294_967_295;

/// What comes before the data of a literal.
#[derive(Clone, Copy)]
pub(crate) struct Length {
    /// The flag H: whether the data are Huffman-encoded.
    pub(crate) huffman: bool,
    /// How many data bytes follow, at most `MAX_LITERAL_LEN`.
    pub(crate) len: u32,
    /// How many bytes this length has.
    pub(crate) width: usize,
}

/// The groups of 7 bits after a prefix of one bits.
#[derive(Clone, Copy)]
struct Groups {
    number: u64,
    width: usize,
}

/// Returns the length with which the bytes begin.
#[tactic(auto, using(crate::proofs::Heads::lengths_read))]
pub(crate) fn read_length(bytes: &[u8]) -> Result<Length, LiteralError>
    ensures reads { IfOk result (λ r. BeginsLength bytes.now r.width r.huffman r.len) }
    ensures refused { IfErr result (HasNoLength bytes.now) }
    ensures bytes { AreBytes bytes.now }
{
    let Some((first, more)) = bytes.split_first() else {
        return Err(LiteralError::Short);
    };
    let huffman = *first >= 128;
    let prefix = u32::from(*first % 128);
    if prefix < 127 {
        return Ok(Length {
            huffman,
            len: prefix,
            width: 1,
        });
    }
    let groups = read_groups(more, 5)?;
    let Ok(len) = u32::try_from(groups.number + 127) else {
        return Err(LiteralError::Length);
    };
    Ok(Length {
        huffman,
        len,
        width: groups.width + 1,
    })
}

/// Returns the number whose groups the bytes begin with. There may be at most `most` groups.
#[tactic(auto, using(crate::proofs::Heads::groups_read))]
fn read_groups(bytes: &[u8], most: usize) -> Result<Groups, LiteralError>
    requires some { 0 < most }
    requires few { most ≤ 5 }
    ensures reads { IfOk result (λ r. AreGroups bytes.now most r.width r.number) }
    ensures refused { IfErr result (HasNoGroups bytes.now most) }
{
    let Some((first, more)) = bytes.split_first() else {
        return Err(LiteralError::Short);
    };
    if *first < 128 {
        return Ok(Groups {
            number: u64::from(*first),
            width: 1,
        });
    }
    if most == 1 {
        return Err(LiteralError::Length);
    }
    let groups = read_groups(more, most - 1)?;
    Ok(Groups {
        number: u64::from(*first % 128) + 128 * groups.number,
        width: groups.width + 1,
    })
}

/// Appends the shortest length of `len` data bytes to the sink, with the flag.
#[tactic(auto, using(crate::proofs::Putting::calls, crate::proofs::Written::lengths_written))]
pub(crate) fn put_length<W: OctetsWriter>(
    sink: &mut W,
    huffman: bool,
    len: usize,
) -> Result<(), W::Error>
    requires { len ≤ 4294967295 }
    ensures puts { Puts W.written W.room W.whole sink.old sink.new (is_ok result)
        (integer 7 (flag huffman) len) }
{
    let bit = flag_bit(huffman);
    if len < 127 {
        return sink.put_bytes(&[bit + len as u8]);
    }
    sink.put_bytes(&[bit + 127])?;
    put_groups(sink, len - 127)
}

/// Returns the flag as bit 7 of a byte.
#[tactic(auto, unfolding(crate::specs::Literals::flag))]
fn flag_bit(huffman: bool) -> u8
    ensures { result ≡ flag huffman * 128 }
{
    if huffman { 128 } else { 0 }
}

/// Appends a number to the sink in groups of 7 bits, as few as hold it.
#[tactic(auto, using(crate::proofs::Putting::calls, crate::proofs::Groups::groups_written))]
fn put_groups<W: OctetsWriter>(sink: &mut W, number: usize) -> Result<(), W::Error>
    requires { number ≤ 4294967295 }
    ensures puts { Puts W.written W.room W.whole sink.old sink.new (is_ok result)
        (groups_of 4 number) }
{
    if number < 128 {
        return sink.put_bytes(&[number as u8]);
    }
    sink.put_bytes(&[(number % 128) as u8 + 128])?;
    put_groups(sink, number / 128)
}
