//! Reports of a station: a header, followed by records.
#![tactic(auto)]

mod c;
pub mod counted;

ghost use Rattle.std.specs.Prelude.{◌≡◌, ◌↔◌, ◌≤◌, ◌<◌, ◌+◌, ◌*◌, ◌-◌, ◌/◌, ◌%◌, ◌^◌, ◌++◌, ◌⊎◌};
ghost use Rattle.std.specs.Prelude.{ℕ, Bool, List, [], true, false, None, Some, length, IsOk, IsOkAnd, IfOk};
ghost use Rattle.std.specs.Prelude.{OnOk, OnErr, MatchOption, MatchResult, is_some, IsSome};
ghost use Rattle.std.specs.Iterator.{at_most};
ghost use Rattle.octets.specs.Bytes.{network, number, part, prefixed};
ghost use Rattle.octets.specs.Cursor.{bytes, position, rest, Advances, Passes, Reads, Writes};
ghost use Rattle.reports.specs.Format.{flags, sensor_bytes};

use octets::{Octets, OctetsMut, Result};

/// The byte of flags.
#[derive(Clone, Copy, Debug, PartialEq, Eq)]
pub struct Flags {
    /// The report can't wait.
    pub urgent: bool,
    /// The number of a sensor follows.
    pub numbered: bool,
    /// The station, from 0 to 63.
    pub station: u8,
}

/// Reads the byte of flags.
#[tactic(auto, using(octets::proofs::CallerLemmas::parts), unfolding(crate::specs::Format::flags, crate::specs::Format::bit))]
fn read_flags(cursor: &mut Octets<'_>) -> Result<Flags>
    ensures fits { IsOk result ↔ (1 ≤ length (rest cursor.old)) }
    ensures passes { OnOk result (Passes cursor.old cursor.new 1) }
    ensures plain { number (part (rest cursor.old) 0 1) / 64 % 2 ≡ 0
        → IfOk result (λ f. f.numbered ≡ false) }
    ensures numbered { number (part (rest cursor.old) 0 1) / 64 % 2 ≡ 1
        → IfOk result (λ f. f.numbered ≡ true) }
    ensures every { (urgent numbered : Bool) (station : ℕ) (after : List ℕ) → station < 64
        → rest cursor.old ≡ network 1 (flags urgent numbered station) ++ after
        → IsOkAnd result
        (λ f. (f.urgent ≡ urgent) × (f.numbered ≡ numbered) × (f.station ≡ station))
        × (rest cursor.new ≡ after) }
{
    let first = cursor.get_u8()?;
    Ok(Flags {
        urgent: first / 128 == 1,
        numbered: first / 64 % 2 == 1,
        station: first % 64,
    })
}

/// The header of a report.
#[derive(Clone, Copy, Debug, PartialEq, Eq)]
pub struct Header {
    /// The report can't wait.
    pub urgent: bool,
    /// The station, from 0 to 63.
    pub station: u8,
    /// The number of the sensor, if the header has one.
    pub sensor: Option<u32>,
}

/// Reads a header.
#[tactic(auto, using(octets::proofs::CallerLemmas::parts))]
pub fn read_header(cursor: &mut Octets<'_>) -> Result<Header>
    ensures short { number (part (rest cursor.old) 0 1) / 64 % 2 ≡ 0
        → IsOk result ↔ (1 ≤ length (rest cursor.old)) }
    ensures long { number (part (rest cursor.old) 0 1) / 64 % 2 ≡ 1
        → IsOk result ↔ (5 ≤ length (rest cursor.old)) }
    ensures plain { (urgent : Bool) (station : ℕ) (after : List ℕ) → station < 64
        → rest cursor.old ≡ network 1 (flags urgent false station) ++ after
        → IsOkAnd result
        (λ h. (h.urgent ≡ urgent) × (h.station ≡ station) × (h.sensor ≡ None))
        × (rest cursor.new ≡ after) }
    ensures numbered { (urgent : Bool) (station sensor : ℕ) (after : List ℕ)
        → station < 64 → sensor < 2 ^ 32
        → rest cursor.old ≡ network 1 (flags urgent true station) ++ network 4 sensor ++ after
        → IsOkAnd result
        (λ h. (h.urgent ≡ urgent) × (h.station ≡ station) × (h.sensor ≡ Some sensor))
        × (rest cursor.new ≡ after) }
    ensures advances { OnOk result (Advances cursor.old cursor.new) }
    ensures refused { OnErr result ((length (rest cursor.old) < 1)
        ⊎ ((number (part (rest cursor.old) 0 1) / 64 % 2 ≡ 1)
        × (length (rest cursor.old) < 5))) }
{
    let flags = read_flags(cursor)?;
    let sensor = if flags.numbered {
        Some(cursor.get_u32()?)
    } else {
        None
    };
    Ok(Header {
        urgent: flags.urgent,
        station: flags.station,
        sensor,
    })
}

/// One record.
#[derive(Debug, Drop, PartialEq, Eq)]
pub struct Record<'a> {
    /// What was measured.
    pub kind: u8,
    /// A cursor over the value.
    pub value: Octets<'a>,
}

/// Reads one record.
#[tactic(auto, using(octets::proofs::CallerLemmas::reads_more))]
fn read_record<'a>(cursor: &mut Octets<'a>) -> Result<Record<'a>>
    ensures fits { IsOk result
        ↔ (2 + number (part (rest cursor.old) 1 1) ≤ length (rest cursor.old)) }
    ensures spelled { IfOk result (λ r. Reads cursor.old cursor.new
        (network 1 r.kind ++ prefixed 1 (bytes r.value))) }
    ensures start { IfOk result (λ r. position r.value ≡ 0) }
    ensures small { IfOk result (λ r. length (bytes r.value) < 2 ^ 8) }
    ensures refused { OnErr result (length (rest cursor.old)
        < 2 + number (part (rest cursor.old) 1 1)) }
    ensures shorter { IfOk result (λ _. length (rest cursor.new) < length (rest cursor.old)) }
{
    Ok(Record {
        kind: cursor.get_u8()?,
        value: cursor.get_bytes_with_u8_length()?,
    })
}

/// The records after a header.
#[derive(Debug, Drop)]
pub struct Records<'a> {
    cursor: Octets<'a>,
}

impl<'a> Records<'a> {
    /// The records that remain in the cursor.
    pub fn of(cursor: Octets<'a>) -> Records<'a>
        ensures { rest result.cursor ≡ rest cursor.entry }
    {
        Records { cursor }
    }
}

impl<'a> Iterator for Records<'a> {
    type Item = Result<Record<'a>>;

    ghost remaining = { λ s. at_most (length (rest s.cursor)) };

    ghost next_gives = { λ s item t. MatchOption item
        ((length (rest s.cursor) ≡ 0) × (length (rest t.cursor) ≡ 0))
        (λ r. MatchResult r
        (λ one. (length (bytes one.value) < 2 ^ 8) × (position one.value ≡ 0)
        × (rest s.cursor ≡ network 1 one.kind ++ prefixed 1 (bytes one.value) ++ rest t.cursor))
        (λ _. (1 ≤ length (rest s.cursor))
        × (length (rest s.cursor) < 2 + number (part (rest s.cursor) 1 1))
        × (length (rest t.cursor) ≡ 0))) };

    #[tactic(auto, using(octets::proofs::CallerLemmas::reads_rest))]
    fn next(&mut self) -> Option<Result<Record<'a>>> {
        if self.cursor.cap() == 0 {
            return None;
        }
        match read_record(&mut self.cursor) {
            Ok(record) => Some(Ok(record)),
            Err(error) => {
                pass_all(&mut self.cursor);
                Some(Err(error))
            }
        }
    }
}

/// Passes all bytes that remain.
fn pass_all(cursor: &mut Octets<'_>)
    ensures { length (rest cursor.new) ≡ 0 }
{
    let _ = cursor.skip(cursor.cap());
}

/// Reads records until one is cut off, and returns how many are whole.
pub fn count_records(cursor: &mut Octets<'_>) -> usize
    ensures bounded { result ≤ length (rest cursor.old) }
    ensures none { result ≡ 0
        → length (rest cursor.old) < 2 + number (part (rest cursor.old) 1 1) }
{
    let _cap = cursor.cap();
    let mut count = 0;
    'records: loop {
        if read_record(cursor).is_err() {
            return count;
        }
        count += 1;
    }
}

/// Writes a header.
#[tactic(auto, using(octets::proofs::CallerLemmas::rows), unfolding(crate::specs::Format::flags, crate::specs::Format::bit, crate::specs::Format::sensor_bytes))]
pub fn write_header(cursor: &mut OctetsMut<'_>, header: Header) -> Result<()>
    requires { header.station < 64 }
    ensures plain { header.sensor ≡ None → IsOk result ↔ (1 ≤ length (rest cursor.old)) }
    ensures numbered { IsSome header.sensor → IsOk result ↔ (5 ≤ length (rest cursor.old)) }
    ensures writes { IfOk result (λ _. Writes cursor.old cursor.new
        (network 1 (flags header.urgent (is_some header.sensor) header.station)
        ++ sensor_bytes header.sensor)) }
{
    let urgent = if header.urgent { 128 } else { 0 };
    match header.sensor {
        Some(sensor) => {
            cursor.write_u8(urgent + 64 + header.station)?;
            cursor.write_u32(sensor)
        }
        None => cursor.write_u8(urgent + header.station),
    }
}

/// Writes one record.
pub fn write_record(cursor: &mut OctetsMut<'_>, kind: u8, value: &[u8]) -> Result<()>
    requires { length value.now < 2 ^ 8 }
    ensures fits { IsOk result ↔ (2 + length value.now ≤ length (rest cursor.old)) }
    ensures writes { IfOk result (λ _. Writes cursor.old cursor.new
        (network 1 kind ++ network 1 (length value.now) ++ value.now)) }
    ensures past { IfOk result (λ _. position cursor.new
        ≡ position cursor.old + (2 + length value.now)) }
{
    cursor.write_u8(kind)?;
    cursor.write_u8(value.len() as u8)?;
    cursor.put_bytes(value)
}

#[cfg(test)]
mod tests {
    use super::*;

    #[test]
    fn stops_at_a_cut_record(rt: HostRuntime) {
        let mut records = Records::of(Octets::with_slice(&[7, 1, 0xaa, 8, 2, 0]));
        assert!(rt; records.next().is_some_and(|record| record.is_ok()));
        assert!(rt; records.next().is_some_and(|record| record.is_err()));
        assert!(rt; records.next().is_none());
    }

    #[test]
    fn reads_a_report(rt: HostRuntime) {
        let report = [0xc5, 0, 0, 1, 2, 7, 1, 0xaa, 8, 0];
        let mut cursor = Octets::with_slice(&report);
        let header = read_header(&mut cursor);
        assert!(rt;
            header
                == Ok(Header {
                    urgent: true,
                    station: 5,
                    sensor: Some(258)
                })
        );
        let mut kinds = [0; 3];
        let mut count = 0;
        for record in Records::of(cursor) {
            assert!(rt; count < 3);
            if let Ok(record) = record {
                kinds[count] = record.kind;
            }
            count += 1;
        }
        assert!(rt; count == 2 && kinds == [7, 8, 0]);
    }
}
