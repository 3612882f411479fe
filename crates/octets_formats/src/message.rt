//! Messages after their length. One length has three bytes, as in TLS, and shows how to write a
//! length prefix of your own. The other has two bytes, as DNS has them over TCP, and is written
//! after the message.
ghost use Rattle.std.specs.Prelude.{◌≡◌, ◌↔◌, ◌+◌, ◌^◌, ◌≤◌, ◌<◌, ◌++◌, ℕ, List, drop};
ghost use Rattle.std.specs.Prelude.{take, length, IsOk, IsOkAnd, IfOk, OnOk, OnErr};
ghost use Rattle.octets.specs.Bytes.{network, number, part};
ghost use Rattle.octets.specs.Cursor.{bytes, rest, IsUnchanged, IsViewOf, Passes, position, Writes};
ghost use Rattle.octets_formats.specs.DnsMessages.{framed, message};

use octets::{Buffer, BufferTooShortError, Cursor, Octets, OctetsMut, Result};

/// Reads a length of three bytes, as of a certificate in TLS (RFC 8446, section 4.4.2), and returns
/// a cursor over as many bytes as it says.
///
/// If fewer bytes follow, the call fails and leaves the offset after the length. If the length is
/// incomplete, it fails and leaves the offset where it was.
#[tactic(auto, using(octets::proofs::CallerLemmas::read_back))]
pub fn get_bytes_with_u24_length<'a>(cursor: &mut Octets<'a>) -> Result<Octets<'a>>
    ensures fits { IsOk result
        ↔ (3 + number (take 3 (rest cursor.old)) ≤ length (rest cursor.old)) }
    ensures view { IfOk result
        (IsViewOf (part (rest cursor.old) 3 (number (take 3 (rest cursor.old))))) }
    ensures passes { OnOk result
        (Passes cursor.old cursor.new (3 + number (take 3 (rest cursor.old)))) }

    // What is written for some bytes is read as these bytes, whatever follows.
    ensures written { (run after : List ℕ) → length run < 2 ^ 24
        → rest cursor.old ≡ network 3 (length run) ++ run ++ after
        → IsOkAnd result (λ v. bytes v ≡ run) × (rest cursor.new ≡ after) }

    // Where the offset is after an error.
    ensures no_length { length (rest cursor.old) < 3 → IsUnchanged cursor.old cursor.new }
    ensures no_bytes { 3 ≤ length (rest cursor.old)
        → OnErr result (Passes cursor.old cursor.new 3) }
{
    let len = cursor.get_u24()?;
    cursor.get_bytes(len as usize)
}

/// Writes a length of three bytes, and `v`, which must have fewer than 2 to the power 24 bytes.
///
/// If they don't fit, it fails and writes nothing.
pub fn put_bytes_with_u24_length<B: Buffer>(cursor: &mut Cursor<B>, v: &[u8]) -> Result<()>
    requires { length v.now < 2 ^ 24 }
    ensures fits { IsOk result ↔ (3 + length v.now ≤ length (rest cursor.old)) }
    ensures writes { IfOk result
        (λ _. Writes cursor.old cursor.new (network 3 (length v.now) ++ v.now)) }
    ensures past { IfOk result
        (λ _. position cursor.new ≡ position cursor.old + (3 + length v.now)) }
    ensures unchanged { OnErr result (IsUnchanged cursor.old cursor.new) }
{
    if cursor.cap() < 3 + v.len() {
        return Err(BufferTooShortError);
    }
    cursor.write_u24(v.len() as u32)?;
    cursor.put_bytes(v)
}

/// Writes a DNS message as TCP carries it: a length of two bytes, and the message (RFC 1035,
/// section 4.2.2). The message is its identification, its flags, and everything after them. It
/// must have fewer than 2 to the power 16 bytes.
///
/// If it doesn't fit, the call fails and writes nothing.
#[tactic(auto, using(crate::proofs::Sets::messages), unfolding(crate::specs::DnsMessages::framed))]
pub fn put_message<B: Buffer>(
    cursor: &mut Cursor<B>,
    id: u16,
    flags: u16,
    sections: &[u8],
) -> Result<()>
    requires { 4 + length sections.now < 2 ^ 16 }
    ensures fits { IsOk result ↔ (6 + length sections.now ≤ length (rest cursor.old)) }
    ensures writes { IfOk result
        (λ _. Writes cursor.old cursor.new (framed (message id flags sections.now))) }
    ensures unchanged { OnErr result (IsUnchanged cursor.old cursor.new) }
{
    if cursor.cap() < 6 + sections.len() {
        return Err(BufferTooShortError);
    }
    cursor.write_u16(0)?;
    let start = cursor.off();
    cursor.write_u16(id)?;
    cursor.write_u16(flags)?;
    cursor.put_bytes(sections)?;
    let len = cursor.off() - start;
    cursor.rewind(2 + len)?;
    cursor.write_u16(len as u16)?;
    cursor.skip(len)
}

/// Writes the same at the start of `buffer`, and returns its length.
pub fn write_message(buffer: &mut [u8], id: u16, flags: u16, sections: &[u8]) -> Result<usize>
    requires { 4 + length sections.now < 2 ^ 16 }
    ensures fits { IsOk result ↔ (6 + length sections.now ≤ length buffer.old) }
    ensures count { IfOk result (λ n. n ≡ length (framed (message id flags sections.now))) }
    ensures written { IfOk result
        (λ n. buffer.new ≡ framed (message id flags sections.now) ++ drop n buffer.old) }
    ensures unchanged { OnErr result (buffer.new ≡ buffer.old) }
{
    let mut cursor = OctetsMut::with_slice(buffer);
    put_message(&mut cursor, id, flags, sections)?;
    Ok(cursor.off())
}
