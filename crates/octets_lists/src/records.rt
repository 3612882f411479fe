//! Records of a kind, a length and a value, like the capabilities of a BGP speaker (RFC 5492,
//! section 4). They are read to the end of a buffer, found by their kind, and written one by one.
ghost use Rattle.std.specs.Prelude.{◌≡◌, ◌≢◌, ◌↔◌, ◌+◌, ◌<◌, ◌≤◌, ◌++◌, ℕ, List, [], map, length};
ghost use Rattle.std.specs.Prelude.{MatchResult, IsOk, IsOkAnd, IfOk, IfErr, IfSome, IfNone, OnErr};
ghost use Rattle.std.specs.List.{All};
ghost use Rattle.octets.specs.Cursor.{bytes, position, rest, IsUnchanged, Passes, Writes};
ghost use Rattle.octets_lists.specs.Records.{Fields, IsUnread, fields_of, record_of, record_bytes};
ghost use Rattle.octets_lists.specs.Records.{records_bytes, AreNoRecords, BeginsNone, BeginsOthers};
ghost use Rattle.octets_lists.specs.declared.records.RecordsError.TheVariants.{Short, Memory};

use octets::{Buffer, BufferTooShortError, Cursor, Octets};
use std::alloc::Global;
use std::error::Error;
use std::fmt;

/// A record.
#[derive(Debug, Drop, PartialEq, Eq)]
pub struct Record<'a> {
    /// The kind, which has one byte.
    pub kind: u8,
    /// A cursor over the value, at its start. In the record a length of one byte comes before the
    /// value.
    pub value: Octets<'a>,
}

/// Why a buffer has no list of records.
#[derive(Clone, Copy, Debug, PartialEq, Eq)]
pub enum RecordsError {
    /// The buffer ends within a record.
    Short,
    /// An allocation for the list failed.
    Memory,
}

impl fmt::Display for RecordsError {
    ghost use Rattle.std.specs.Prelude.{Some};
    ghost use Rattle.octets_lists.specs.ErrorTexts.{records_error_text};

    ghost output = { λ e. Some (records_error_text e) };

    fn fmt<W: fmt::Write>(&self, f: &mut fmt::Formatter<W>) -> fmt::Result {
        match self {
            RecordsError::Short => write!(f, "the buffer ends within a record"),
            RecordsError::Memory => write!(f, "out of memory"),
        }
    }
}

impl Error for RecordsError {}

impl From<BufferTooShortError> for RecordsError {
    ghost from_gives = { λ e r. r ≡ Short };

    fn from(_error: BufferTooShortError) -> Self {
        Self::Short
    }
}

/// Reads the next record, and moves the offset past it.
///
/// It fails if the remaining bytes don't begin with a record. If no byte remained, it leaves the
/// offset where it was; if only the kind remained, after the kind; and if fewer bytes follow than
/// the length says, after the kind and the length.
pub fn read_record<'a>(cursor: &mut Octets<'a>) -> octets::Result<Record<'a>>
    ensures reads { IfOk result
        (λ r. rest cursor.old ≡ record_bytes (fields_of r) ++ rest cursor.new) }
    ensures passes { IfOk result
        (λ r. Passes cursor.old cursor.new (length (record_bytes (fields_of r)))) }
    ensures start { IfOk result IsUnread }
    ensures refused { OnErr result ((f : Fields) (after : List ℕ)
        → rest cursor.old ≢ record_bytes f ++ after) }
    ensures every { (f : Fields) (after : List ℕ) → rest cursor.old ≡ record_bytes f ++ after
        → IsOkAnd result (λ r. fields_of r ≡ f) }

    // Where the offset is after an error.
    ensures no_kind { length (rest cursor.old) < 1 → IsUnchanged cursor.old cursor.new }
    ensures past_kind { length (rest cursor.old) ≡ 1 → Passes cursor.old cursor.new 1 }
    ensures past_length { 2 ≤ length (rest cursor.old)
        → OnErr result (Passes cursor.old cursor.new 2) }
{
    let kind = cursor.get_u8()?;
    let value = cursor.get_bytes_with_u8_length()?;
    Ok(Record { kind, value })
}

/// Reads records up to the end of the buffer.
///
/// It fails with [`RecordsError::Short`] if the buffer ends within a record; then there are no
/// records with these bytes. It fails with [`RecordsError::Memory`] if an allocation for the list
/// fails; an empty list allocates nothing. After an error, what was read is dropped.
pub fn read_records<'a>(
    alloc: Global,
    buffer: &'a [u8],
) -> std::result::Result<Vec<Record<'a>>, RecordsError>
    ensures records { IfOk result
        (λ records. buffer.now ≡ records_bytes (map fields_of records.items)) }
    ensures start { IfOk result (λ records. All IsUnread records.items) }
    ensures refused { IfErr result (λ e. e ≡ Short → AreNoRecords buffer.now) }

    // The bytes of records are read as exactly these records, unless an allocation fails.
    ensures every { (fs : List Fields) → buffer.now ≡ records_bytes fs
        → MatchResult result (λ records. map fields_of records.items ≡ fs) (λ e. e ≡ Memory) }
    ensures empty { buffer.now ≡ [] → IsOk result }

    // Memory is allocated only after a record was read.
    ensures memory { IfErr result (λ e. e ≡ Memory
        → (f : Fields) × (after : List ℕ) × (buffer.now ≡ record_bytes f ++ after)) }
{
    let mut cursor = Octets::with_slice(buffer);
    let mut records = Vec::new(alloc);
    'records: while cursor.cap() > 0 {
        let record = read_record(&mut cursor)?;
        if records.push(record).is_err() {
            return Err(RecordsError::Memory);
        }
    }
    Ok(records)
}

/// Returns the value of the first record of a kind, or `None` if the buffer has only records of
/// other kinds. It allocates nothing.
///
/// It fails if the buffer ends within a record before a record of the kind was found.
#[tactic(auto, using(crate::proofs::RecordLists::no_others, crate::proofs::RecordLists::one_other))]
pub fn find_record<'a>(buffer: &'a [u8], kind: u8) -> octets::Result<Option<Octets<'a>>>
    ensures found { IfOk result (λ o. IfSome o (λ value. (after : List ℕ)
        × BeginsOthers kind buffer.now (record_of kind (bytes value) ++ after))) }
    ensures start { IfOk result (λ o. IfSome o (λ value. position value ≡ 0)) }
    ensures none { IfOk result (λ o. IfNone o (BeginsOthers kind buffer.now [])) }
    ensures refused { OnErr result ((left : List ℕ)
        × BeginsOthers kind buffer.now left × BeginsNone left) }

    // The call doesn't fail if the buffer is the bytes of records.
    ensures every { (fs : List Fields) → buffer.now ≡ records_bytes fs → IsOk result }
{
    let mut cursor = Octets::with_slice(buffer);
    'records: while cursor.cap() > 0 {
        let record = read_record(&mut cursor)?;
        if record.kind == kind {
            return Ok(Some(record.value));
        }
    }
    Ok(None)
}

/// Writes a record: a kind, and a value of at most 255 bytes after its length.
///
/// It fails if fewer than `2 + value.len()` bytes remain, and then writes nothing.
pub fn put_record<B: Buffer>(cursor: &mut Cursor<B>, kind: u8, value: &[u8]) -> octets::Result<()>
    requires { length value.now < 256 }
    ensures fits { IsOk result ↔ (2 + length value.now ≤ length (rest cursor.old)) }
    ensures writes { IfOk result (λ _. Writes cursor.old cursor.new (record_of kind value.now)) }
    ensures unchanged { OnErr result (IsUnchanged cursor.old cursor.new) }
{
    if cursor.cap() < 2 + value.len() {
        return Err(BufferTooShortError);
    }
    cursor.write_u8(kind)?;
    cursor.write_u8(value.len() as u8)?;
    cursor.put_bytes(value)?;
    Ok(())
}
