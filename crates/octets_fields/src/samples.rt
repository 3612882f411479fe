//! Many numbers of a fixed width, as a struct.
//!
//! A sample of a sensor has seven numbers, which have 44 bytes. Two limits of the search make
//! such a reader longer than one function. The clause `every` of one function is proved for up
//! to six numbers only. And the search doesn't find some sums of lengths that `Passes` needs,
//! such as those of four calls of `get_u64`, or of 12, 24 and 8 bytes. So groups of up to three
//! numbers are read by functions of their own, each with a definition of its bytes. Then all
//! groups are read from a view, and all bytes passed by one `skip`.
//!
//! `read_sample_fields` states no `passes`. `read_sample` has its other clauses, word for word.
//! Each definition is expanded only by the function that reads its bytes, and by the writer.
//!
//! An error of `read_sample` leaves the cursor unchanged. If the header also has a version to
//! check, add a function that calls `read_sample`, checks the version, and goes back by
//! `rewind` if it is wrong, as in the module `tagged`. Check the length by the reads, as here,
//! and not by an early return such as `if cursor.cap() < 44`: at such a return the proof of
//! `every` would have to know that `sample_bytes s` has 44 bytes.
ghost use Rattle.std.specs.Prelude.{◌≡◌, ◌↔◌, ◌≤◌, ◌<◌, ◌^◌, ◌++◌, ℕ, List, length, IsOk, IsOkAnd, IfOk, OnOk, OnErr};
ghost use Rattle.octets.specs.Bytes.{number, part};
ghost use Rattle.octets.specs.Cursor.{rest, IsUnchanged, Passes, Writes};
ghost use Rattle.octets_fields.specs.Samples.{ids, times, sample_bytes, ReadsEvery};

use octets::{BufferTooShortError, Octets, OctetsMut, Result};

/// A sample of a sensor.
#[derive(Clone, Copy, Debug, PartialEq, Eq)]
pub struct Sample {
    pub source: u32,
    pub sensor: u32,
    pub count: u32,
    pub begun: u64,
    pub ended: u64,
    pub sent: u64,
    pub value: u64,
}

/// Reads the first three numbers.
#[tactic(auto, using(octets::proofs::CallerLemmas::parts), unfolding(crate::specs::Samples::ids))]
fn read_sample_ids(cursor: &mut Octets<'_>) -> Result<(u32, u32, u32)>
    ensures fits { IsOk result ↔ (12 ≤ length (rest cursor.old)) }
    ensures source { IfOk result (λ r. r.0 ≡ number (part (rest cursor.old) 0 4)) }
    ensures sensor { IfOk result (λ r. r.1 ≡ number (part (rest cursor.old) 4 4)) }
    ensures count { IfOk result (λ r. r.2 ≡ number (part (rest cursor.old) 8 4)) }
    ensures passes { OnOk result (Passes cursor.old cursor.new 12) }
    ensures every { (source sensor count : ℕ) (after : List ℕ) → source < 2 ^ 32 → sensor < 2 ^ 32
        → count < 2 ^ 32 → rest cursor.old ≡ ids source sensor count ++ after
        → IsOkAnd result (λ r. (r.0 ≡ source) × (r.1 ≡ sensor) × (r.2 ≡ count))
        × (rest cursor.new ≡ after) }
{
    Ok((cursor.get_u32()?, cursor.get_u32()?, cursor.get_u32()?))
}

/// Reads the three times.
#[tactic(auto, using(octets::proofs::CallerLemmas::parts), unfolding(crate::specs::Samples::times))]
fn read_sample_times(cursor: &mut Octets<'_>) -> Result<(u64, u64, u64)>
    ensures fits { IsOk result ↔ (24 ≤ length (rest cursor.old)) }
    ensures begun { IfOk result (λ r. r.0 ≡ number (part (rest cursor.old) 0 8)) }
    ensures ended { IfOk result (λ r. r.1 ≡ number (part (rest cursor.old) 8 8)) }
    ensures sent { IfOk result (λ r. r.2 ≡ number (part (rest cursor.old) 16 8)) }
    ensures passes { OnOk result (Passes cursor.old cursor.new 24) }
    ensures every { (begun ended sent : ℕ) (after : List ℕ) → begun < 2 ^ 64 → ended < 2 ^ 64
        → sent < 2 ^ 64 → rest cursor.old ≡ times begun ended sent ++ after
        → IsOkAnd result (λ r. (r.0 ≡ begun) × (r.1 ≡ ended) × (r.2 ≡ sent))
        × (rest cursor.new ≡ after) }
{
    Ok((cursor.get_u64()?, cursor.get_u64()?, cursor.get_u64()?))
}

/// Reads the numbers of a sample. Its contract doesn't say where the cursor is afterwards.
#[tactic(auto, using(octets::proofs::CallerLemmas::parts), unfolding(crate::specs::Samples::sample_bytes))]
fn read_sample_fields(cursor: &mut Octets<'_>) -> Result<Sample>
    ensures fits { IsOk result ↔ (44 ≤ length (rest cursor.old)) }
    ensures source { IfOk result (λ s. s.source ≡ number (part (rest cursor.old) 0 4)) }
    ensures sensor { IfOk result (λ s. s.sensor ≡ number (part (rest cursor.old) 4 4)) }
    ensures count { IfOk result (λ s. s.count ≡ number (part (rest cursor.old) 8 4)) }
    ensures begun { IfOk result (λ s. s.begun ≡ number (part (rest cursor.old) 12 8)) }
    ensures ended { IfOk result (λ s. s.ended ≡ number (part (rest cursor.old) 20 8)) }
    ensures sent { IfOk result (λ s. s.sent ≡ number (part (rest cursor.old) 28 8)) }
    ensures value { IfOk result (λ s. s.value ≡ number (part (rest cursor.old) 36 8)) }
    ensures every { ReadsEvery (rest cursor.old) result }
{
    let (source, sensor, count) = read_sample_ids(cursor)?;
    let (begun, ended, sent) = read_sample_times(cursor)?;
    let value = cursor.get_u64()?;
    Ok(Sample {
        source,
        sensor,
        count,
        begun,
        ended,
        sent,
        value,
    })
}

/// Reads a sample.
pub fn read_sample(cursor: &mut Octets<'_>) -> Result<Sample>
    ensures fits { IsOk result ↔ (44 ≤ length (rest cursor.old)) }
    ensures source { IfOk result (λ s. s.source ≡ number (part (rest cursor.old) 0 4)) }
    ensures sensor { IfOk result (λ s. s.sensor ≡ number (part (rest cursor.old) 4 4)) }
    ensures count { IfOk result (λ s. s.count ≡ number (part (rest cursor.old) 8 4)) }
    ensures begun { IfOk result (λ s. s.begun ≡ number (part (rest cursor.old) 12 8)) }
    ensures ended { IfOk result (λ s. s.ended ≡ number (part (rest cursor.old) 20 8)) }
    ensures sent { IfOk result (λ s. s.sent ≡ number (part (rest cursor.old) 28 8)) }
    ensures value { IfOk result (λ s. s.value ≡ number (part (rest cursor.old) 36 8)) }
    ensures passes { OnOk result (Passes cursor.old cursor.new 44) }
    ensures every { ReadsEvery (rest cursor.old) result }
    ensures unchanged { OnErr result (IsUnchanged cursor.old cursor.new) }
{
    let mut ahead = cursor.peek_bytes(cursor.cap())?;
    let sample = read_sample_fields(&mut ahead)?;
    cursor.skip(44)?;
    Ok(sample)
}

/// Writes a sample, or nothing if it doesn't fit.
#[tactic(auto, using(octets::proofs::CallerLemmas::rows), unfolding(crate::specs::Samples::sample_bytes, crate::specs::Samples::ids, crate::specs::Samples::times))]
pub fn write_sample(cursor: &mut OctetsMut<'_>, s: Sample) -> Result<()>
    ensures fits { IsOk result ↔ (44 ≤ length (rest cursor.old)) }
    ensures writes { OnOk result (Writes cursor.old cursor.new (sample_bytes s)) }
    ensures unchanged { OnErr result (IsUnchanged cursor.old cursor.new) }
{
    if cursor.cap() < 44 {
        return Err(BufferTooShortError);
    }
    cursor.write_u32(s.source)?;
    cursor.write_u32(s.sensor)?;
    cursor.write_u32(s.count)?;
    cursor.write_u64(s.begun)?;
    cursor.write_u64(s.ended)?;
    cursor.write_u64(s.sent)?;
    cursor.write_u64(s.value)
}
