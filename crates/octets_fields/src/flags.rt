//! Flags and fields of a few bits.
//!
//! `AreFlags f n` says of each flag of the struct f which bit of the number n it is. A file of
//! `specs` imports a struct of the crate from `specs.declared`. The clause `every` quantifies
//! over the whole byte n. Only the reader expands `AreFlags`; the clauses of its callers
//! mention `AreFlags`, and need no attribute for it.
//!
//! Fields of bits in two bytes are read as one number, and each field is stated by a division
//! and a remainder. The clause `every` quantifies over this number.
ghost use Rattle.std.specs.Prelude.{◌≡◌, ◌↔◌, ◌+◌, ◌*◌, ◌≤◌, ◌<◌, ◌^◌, ◌++◌, ℕ, List, length, IsOk, IsOkAnd};
ghost use Rattle.std.specs.Prelude.{IfOk, OnOk, ◌/◌, ◌%◌, IsTrue, false};
ghost use Rattle.octets.specs.Bytes.{network, number, part};
ghost use Rattle.octets.specs.Cursor.{rest, Passes, Writes};
ghost use Rattle.octets_fields.specs.Flags.{AreFlags};

use octets::{Octets, OctetsMut, Result};

/// Six flags of a TCP segment.
#[derive(Clone, Copy, Debug, PartialEq, Eq)]
pub struct TcpFlags {
    pub urg: bool,
    pub ack: bool,
    pub psh: bool,
    pub rst: bool,
    pub syn: bool,
    pub fin: bool,
}

/// Reads a byte of flags.
#[tactic(auto, using(octets::proofs::CallerLemmas::parts), unfolding(crate::specs::Flags::AreFlags))]
pub fn read_flags(cursor: &mut Octets<'_>) -> Result<TcpFlags>
    ensures fits { IsOk result ↔ (1 ≤ length (rest cursor.old)) }
    ensures value { IfOk result (λ f. AreFlags f (number (part (rest cursor.old) 0 1))) }
    ensures every { (n : ℕ) (after : List ℕ) → n < 2 ^ 8 → rest cursor.old ≡ network 1 n ++ after
        → IsOkAnd result (λ f. AreFlags f n) × (rest cursor.new ≡ after) }
    ensures passes { OnOk result (Passes cursor.old cursor.new 1) }
{
    let byte = cursor.get_u8()?;
    Ok(TcpFlags {
        urg: byte / 32 % 2 == 1,
        ack: byte / 16 % 2 == 1,
        psh: byte / 8 % 2 == 1,
        rst: byte / 4 % 2 == 1,
        syn: byte / 2 % 2 == 1,
        fin: byte % 2 == 1,
    })
}

/// Some flags of a DNS message.
#[derive(Clone, Copy, Debug, PartialEq, Eq)]
pub struct DnsFlags {
    pub response: bool,
    pub opcode: u8,
    pub rcode: u8,
}

/// Reads the flags.
#[tactic(auto, using(octets::proofs::CallerLemmas::parts))]
pub fn read_dns_flags(cursor: &mut Octets<'_>) -> Result<DnsFlags>
    ensures fits { IsOk result ↔ (2 ≤ length (rest cursor.old)) }
    ensures every { (n : ℕ) (after : List ℕ) → n < 2 ^ 16 → rest cursor.old ≡ network 2 n ++ after
        → IsOkAnd result (λ f. (IsTrue f.response ↔ (n / 32768 ≡ 1))
        × (f.opcode ≡ n / 2048 % 16) × (f.rcode ≡ n % 16)) × (rest cursor.new ≡ after) }
    ensures passes { OnOk result (Passes cursor.old cursor.new 2) }
{
    let n = cursor.get_u16()?;
    Ok(DnsFlags {
        response: n / 32768 == 1,
        opcode: (n / 2048 % 16) as u8,
        rcode: (n % 16) as u8,
    })
}

/// Writes flags whose other bits are 0.
pub fn write_dns_flags(cursor: &mut OctetsMut<'_>, flags: DnsFlags) -> Result<()>
    requires { (flags.opcode < 16) × (flags.rcode < 16) }
    ensures fits { IsOk result ↔ (2 ≤ length (rest cursor.old)) }
    ensures response { IsTrue flags.response → OnOk result (Writes cursor.old cursor.new
        (network 2 (32768 + flags.opcode * 2048 + flags.rcode))) }
    ensures query { flags.response ≡ false → OnOk result (Writes cursor.old cursor.new
        (network 2 (flags.opcode * 2048 + flags.rcode))) }
{
    let top = if flags.response { 32768 } else { 0 };
    cursor.write_u16(top + u16::from(flags.opcode) * 2048 + u16::from(flags.rcode))
}
