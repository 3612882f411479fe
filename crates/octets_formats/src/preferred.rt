//! QUIC's transport parameter `preferred_address` (RFC 9000, section 18.2): addresses and ports, a
//! connection ID of 1 to 20 bytes after its length, and a token.
//!
//! Each function below `read_fields` reads two fields. Its clause `every` states the bytes by a
//! definition that no other reader expands. `read_sixteen` copies a run into an array, as the
//! module `arrays` of `octets_fields` does. `read_id` has the clause `fits` in addition to one for
//! each error: without it the clauses of its caller about errors aren't proved.
//!
//! `read_preferred` goes back if `read_fields` fails. As in the module `stream`, the clause
//! `leaves` says what remains, which `every` of a function that goes back can't say.
//! `write_preferred` compares the length with the free space before it writes. It writes the
//! definition that `every` is about, so what is written is read back: `write_and_read` states
//! this.
ghost use Rattle.std.specs.Prelude.{◌≡◌, ◌↔◌, ◌≤◌, ◌<◌, ◌+◌, ◌^◌, ◌++◌, ℕ, List, length, drop};
ghost use Rattle.std.specs.Prelude.{IsOk, IsOkAnd, IfOk, OnOk, OnErr, IsErrOf};
ghost use Rattle.octets.specs.Bytes.{number, part};
ghost use Rattle.octets.specs.Cursor.{bytes, position, rest, Advances, IsUnchanged, IsViewOf};
ghost use Rattle.octets.specs.Cursor.{Passes, Writes};
ghost use Rattle.octets_formats.specs.Preferred.{four_bytes, six_bytes, addresses, id_bytes};
ghost use Rattle.octets_formats.specs.Preferred.{preferred, HasId, LacksId, HasBadId};
ghost use Rattle.octets_formats.specs.Preferred.{LacksPreferred, HasBadLength};
ghost use Rattle.octets_formats.specs.declared.preferred.PreferredError.TheVariants.{Short, BadId};

use octets::{BufferTooShortError, Octets, OctetsMut, Result};

/// An IPv6 address.
pub type Ipv6Address = [u8; 16];

/// A stateless reset token.
pub type ResetToken = [u8; 16];

/// Why no parameter was read.
#[derive(Clone, Copy, Debug, PartialEq, Eq)]
pub enum PreferredError {
    /// Bytes are missing.
    Short,
    /// The connection ID has no byte, or more than 20.
    BadId,
}

/// A preferred address.
#[derive(Debug, Drop)]
pub struct Preferred<'a> {
    /// The IPv4 address, and its port.
    pub four: u32,
    pub four_port: u16,
    /// The IPv6 address, and its port.
    pub six: Ipv6Address,
    pub six_port: u16,
    /// A cursor over the connection ID.
    pub id: Octets<'a>,
    /// The stateless reset token.
    pub token: ResetToken,
}

/// Reads a run of a length that the caller knows.
fn read_run<'a>(cursor: &mut Octets<'a>, len: usize) -> Result<Octets<'a>>
    ensures fits { IsOk result ↔ (len ≤ length (rest cursor.old)) }
    ensures view { IfOk result (λ v. bytes v ≡ part (rest cursor.old) 0 len) }
    ensures start { IfOk result (λ v. position v ≡ 0) }
    ensures every { (run after : List ℕ) → len ≡ length run → rest cursor.old ≡ run ++ after
        → IsOkAnd result (λ v. bytes v ≡ run) × (rest cursor.new ≡ after) }
    ensures passes { OnOk result (Passes cursor.old cursor.new len) }
    ensures advances { Advances cursor.old cursor.new }
{
    cursor.get_bytes(len)
}

/// Reads 16 bytes.
fn read_sixteen(cursor: &mut Octets<'_>) -> Result<[u8; 16]>
    ensures fits { IsOk result ↔ (16 ≤ length (rest cursor.old)) }
    ensures value { IfOk result (λ a. a ≡ part (rest cursor.old) 0 16) }
    ensures every { (a after : List ℕ) → 16 ≡ length a → rest cursor.old ≡ a ++ after
        → IsOkAnd result (λ r. r ≡ a) × (rest cursor.new ≡ after) }
    ensures passes { OnOk result (Passes cursor.old cursor.new 16) }
    ensures advances { Advances cursor.old cursor.new }
{
    let mut array = [0; 16];
    array.copy_from_slice(read_run(cursor, 16)?.buf());
    Ok(array)
}

/// Reads an IPv4 address and a port.
#[tactic(auto, using(octets::proofs::CallerLemmas::parts), unfolding(crate::specs::Preferred::four_bytes))]
fn read_four(cursor: &mut Octets<'_>) -> Result<(u32, u16)>
    ensures fits { IsOk result ↔ (6 ≤ length (rest cursor.old)) }
    ensures address { IfOk result (λ r. r.0 ≡ number (part (rest cursor.old) 0 4)) }
    ensures port { IfOk result (λ r. r.1 ≡ number (part (rest cursor.old) 4 2)) }
    ensures passes { OnOk result (Passes cursor.old cursor.new 6) }
    ensures every { (address port : ℕ) (after : List ℕ) → address < 2 ^ 32 → port < 2 ^ 16
        → rest cursor.old ≡ four_bytes address port ++ after
        → IsOkAnd result (λ r. (r.0 ≡ address) × (r.1 ≡ port)) × (rest cursor.new ≡ after) }
    ensures advances { Advances cursor.old cursor.new }
{
    Ok((cursor.get_u32()?, cursor.get_u16()?))
}

/// Reads an IPv6 address and a port.
#[tactic(auto, using(octets::proofs::CallerLemmas::parts), unfolding(crate::specs::Preferred::six_bytes))]
fn read_six(cursor: &mut Octets<'_>) -> Result<(Ipv6Address, u16)>
    ensures fits { IsOk result ↔ (18 ≤ length (rest cursor.old)) }
    ensures address { IfOk result (λ r. r.0 ≡ part (rest cursor.old) 0 16) }
    ensures port { IfOk result (λ r. r.1 ≡ number (part (rest cursor.old) 16 2)) }
    ensures passes { OnOk result (Passes cursor.old cursor.new 18) }
    ensures every { (address : List ℕ) (port : ℕ) (after : List ℕ) → 16 ≡ length address
        → port < 2 ^ 16 → rest cursor.old ≡ six_bytes address port ++ after
        → IsOkAnd result (λ r. (r.0 ≡ address) × (r.1 ≡ port)) × (rest cursor.new ≡ after) }
    ensures advances { Advances cursor.old cursor.new }
{
    let address = read_sixteen(cursor)?;
    Ok((address, cursor.get_u16()?))
}

/// Reads both addresses and ports.
#[tactic(auto, using(octets::proofs::CallerLemmas::parts), unfolding(crate::specs::Preferred::addresses))]
fn read_addresses(cursor: &mut Octets<'_>) -> Result<(u32, u16, Ipv6Address, u16)>
    ensures fits { IsOk result ↔ (24 ≤ length (rest cursor.old)) }
    ensures passes { OnOk result (Passes cursor.old cursor.new 24) }
    ensures every { (four port port6 : ℕ) (six after : List ℕ) → four < 2 ^ 32 → port < 2 ^ 16
        → 16 ≡ length six → port6 < 2 ^ 16
        → rest cursor.old ≡ addresses four port six port6 ++ after
        → IsOkAnd result (λ r. (r.0 ≡ four) × (r.1 ≡ port) × (r.2 ≡ six) × (r.3 ≡ port6))
        × (rest cursor.new ≡ after) }
    ensures advances { Advances cursor.old cursor.new }
{
    let (four, four_port) = read_four(cursor)?;
    let (six, six_port) = read_six(cursor)?;
    Ok((four, four_port, six, six_port))
}

/// Reads a connection ID after its length.
#[tactic(auto, using(octets::proofs::CallerLemmas::parts), unfolding(crate::specs::Preferred::id_bytes, crate::specs::Preferred::HasId, crate::specs::Preferred::LacksId, crate::specs::Preferred::HasBadId))]
fn read_id<'a>(cursor: &mut Octets<'a>) -> std::result::Result<Octets<'a>, PreferredError>
    ensures short { IsErrOf result Short ↔ LacksId (rest cursor.old) }
    ensures bad { IsErrOf result BadId ↔ HasBadId (rest cursor.old) }
    ensures fits { IsOk result ↔ HasId (rest cursor.old) }
    ensures view { IfOk result
        (IsViewOf (part (rest cursor.old) 1 (number (part (rest cursor.old) 0 1)))) }
    ensures passes { OnOk result
        (Passes cursor.old cursor.new (1 + number (part (rest cursor.old) 0 1))) }
    ensures every { (id after : List ℕ) → 1 ≤ length id → length id ≤ 20
        → rest cursor.old ≡ id_bytes id ++ after
        → IsOkAnd result (λ v. bytes v ≡ id) × (rest cursor.new ≡ after) }
    ensures advances { Advances cursor.old cursor.new }
{
    let len = cursor.get_u8().map_err(|_| PreferredError::Short)?;
    if len == 0 || len > 20 {
        return Err(PreferredError::BadId);
    }
    read_run(cursor, usize::from(len)).map_err(|_| PreferredError::Short)
}

/// Reads a parameter. If it fails, the offset may be after some of it.
#[tactic(auto, using(octets::proofs::CallerLemmas::parts), unfolding(crate::specs::Preferred::preferred, crate::specs::Preferred::LacksPreferred, crate::specs::Preferred::HasBadLength, crate::specs::Preferred::HasId, crate::specs::Preferred::LacksId, crate::specs::Preferred::HasBadId))]
fn read_fields<'a>(cursor: &mut Octets<'a>) -> std::result::Result<Preferred<'a>, PreferredError>
    ensures short { IsErrOf result Short ↔ LacksPreferred (rest cursor.old) }
    ensures bad { IsErrOf result BadId ↔ HasBadLength (rest cursor.old) }
    ensures every { (four port port6 : ℕ) (six id token after : List ℕ) → four < 2 ^ 32
        → port < 2 ^ 16 → 16 ≡ length six → port6 < 2 ^ 16 → 1 ≤ length id → length id ≤ 20
        → 16 ≡ length token → rest cursor.old ≡ preferred four port six port6 id token ++ after
        → IsOkAnd result (λ p. (p.four ≡ four) × (p.four_port ≡ port) × (p.six ≡ six)
        × (p.six_port ≡ port6) × (bytes p.id ≡ id) × (p.token ≡ token)) }
    ensures leaves { (four port port6 : ℕ) (six id token after : List ℕ) → four < 2 ^ 32
        → port < 2 ^ 16 → 16 ≡ length six → port6 < 2 ^ 16 → 1 ≤ length id → length id ≤ 20
        → 16 ≡ length token → rest cursor.old ≡ preferred four port six port6 id token ++ after
        → OnOk result (rest cursor.new ≡ after) }
    ensures start { IfOk result (λ p. position p.id ≡ 0) }
    ensures advances { Advances cursor.old cursor.new }
{
    let (four, four_port, six, six_port) = read_addresses(cursor).map_err(
        |_| PreferredError::Short,
    )?;
    let id = read_id(cursor)?;
    let token = read_sixteen(cursor).map_err(|_| PreferredError::Short)?;
    Ok(Preferred {
        four,
        four_port,
        six,
        six_port,
        id,
        token,
    })
}

/// Reads a parameter, and leaves the cursor unchanged if it fails.
pub fn read_preferred<'a>(
    cursor: &mut Octets<'a>,
) -> std::result::Result<Preferred<'a>, PreferredError>
    ensures short { IsErrOf result Short ↔ LacksPreferred (rest cursor.old) }
    ensures bad { IsErrOf result BadId ↔ HasBadLength (rest cursor.old) }
    ensures every { (four port port6 : ℕ) (six id token after : List ℕ) → four < 2 ^ 32
        → port < 2 ^ 16 → 16 ≡ length six → port6 < 2 ^ 16 → 1 ≤ length id → length id ≤ 20
        → 16 ≡ length token → rest cursor.old ≡ preferred four port six port6 id token ++ after
        → IsOkAnd result (λ p. (p.four ≡ four) × (p.four_port ≡ port) × (p.six ≡ six)
        × (p.six_port ≡ port6) × (bytes p.id ≡ id) × (p.token ≡ token)) }
    ensures leaves { (four port port6 : ℕ) (six id token after : List ℕ) → four < 2 ^ 32
        → port < 2 ^ 16 → 16 ≡ length six → port6 < 2 ^ 16 → 1 ≤ length id → length id ≤ 20
        → 16 ≡ length token → rest cursor.old ≡ preferred four port six port6 id token ++ after
        → OnOk result (rest cursor.new ≡ after) }
    ensures start { IfOk result (λ p. position p.id ≡ 0) }
    ensures advances { Advances cursor.old cursor.new }
    ensures unchanged { OnErr result (IsUnchanged cursor.old cursor.new) }
{
    let before = cursor.off();
    match read_fields(cursor) {
        Ok(parameter) => Ok(parameter),
        Err(error) => {
            let _ = cursor.rewind(cursor.off() - before);
            Err(error)
        }
    }
}

/// Writes a parameter, or nothing if it doesn't fit. The connection ID must have 1 to 20 bytes.
#[tactic(auto, using(octets::proofs::CallerLemmas::rows), unfolding(crate::specs::Preferred::preferred, crate::specs::Preferred::addresses, crate::specs::Preferred::four_bytes, crate::specs::Preferred::six_bytes, crate::specs::Preferred::id_bytes))]
pub fn write_preferred(
    cursor: &mut OctetsMut<'_>,
    four: (u32, u16),
    six: (Ipv6Address, u16),
    id: &[u8],
    token: ResetToken,
) -> Result<()>
    requires some { 1 ≤ length id.now }
    requires few { length id.now ≤ 20 }
    ensures fits { IsOk result ↔ (41 + length id.now ≤ length (rest cursor.old)) }
    ensures writes { IfOk result (λ _. Writes cursor.old cursor.new
        (preferred four.0 four.1 six.0 six.1 id.now token)) }
    ensures past { IfOk result (λ _. position cursor.new
        ≡ position cursor.old + (41 + length id.now)) }
    ensures unchanged { OnErr result (IsUnchanged cursor.old cursor.new) }
{
    if cursor.cap() < 41 + id.len() {
        return Err(BufferTooShortError);
    }
    cursor.write_u32(four.0)?;
    cursor.write_u16(four.1)?;
    cursor.put_bytes(&six.0)?;
    cursor.write_u16(six.1)?;
    cursor.write_u8(id.len() as u8)?;
    cursor.put_bytes(id)?;
    cursor.put_bytes(&token)
}

/// Writes a parameter at the start of `buffer`, and returns how many bytes it has.
fn write_at_start(
    buffer: &mut [u8],
    four: (u32, u16),
    six: (Ipv6Address, u16),
    id: &[u8],
    token: ResetToken,
) -> Result<usize>
    requires some { 1 ≤ length id.now }
    requires few { length id.now ≤ 20 }
    ensures fits { IsOk result ↔ (41 + length id.now ≤ length buffer.old) }
    ensures count { IfOk result (λ n. n ≡ 41 + length id.now) }
    ensures written { IfOk result (λ n. buffer.new
        ≡ preferred four.0 four.1 six.0 six.1 id.now token ++ drop n buffer.old) }
    ensures unchanged { OnErr result (buffer.new ≡ buffer.old) }
{
    let mut writer = OctetsMut::with_slice(buffer);
    write_preferred(&mut writer, four, six, id, token)?;
    Ok(writer.off())
}

/// Writes a parameter at the start of `buffer`, and reads it back.
pub fn write_and_read<'a>(
    buffer: &'a mut [u8],
    four: (u32, u16),
    six: (Ipv6Address, u16),
    id: &[u8],
    token: ResetToken,
) -> std::result::Result<Preferred<'a>, PreferredError>
    requires some { 1 ≤ length id.now }
    requires few { length id.now ≤ 20 }
    ensures fits { IsOk result ↔ (41 + length id.now ≤ length buffer.old) }
    ensures four { IfOk result (λ p. (p.four ≡ four.0) × (p.four_port ≡ four.1)) }
    ensures six { IfOk result (λ p. (p.six ≡ six.0) × (p.six_port ≡ six.1)) }
    ensures id { IfOk result (λ p. bytes p.id ≡ id.now) }
    ensures start { IfOk result (λ p. position p.id ≡ 0) }
    ensures token { IfOk result (λ p. p.token ≡ token) }
{
    write_at_start(buffer, four, six, id, token).map_err(|_| PreferredError::Short)?;
    read_preferred(&mut Octets::with_slice(buffer))
}
