//! HPACK header fields whose name is in no table (RFC 7541, sections 6.2.1 to 6.2.3), read and
//! written. A field is a byte that says how the field is indexed, and the string literals of its
//! name and its value.
ghost use Rattle.std.specs.Prelude.{◌≡◌, ◌≢◌, ◌↔◌, ◌≤◌, ◌++◌, ℕ, List, length};
ghost use Rattle.std.specs.Prelude.{MatchResult, IsOk, IfOk, IfErr, IfSome, OnOk, OnErr};
ghost use Rattle.octets.specs.Cursor.{rest, Passes, Keeps, Writes};
ghost use Rattle.octets.specs.Sinks.{AppendsFront, SomeFront, capacity_of};
ghost use Rattle.octets_lists.specs.HeaderFields.{mark, header_field, BeginsField, IsRefusedAt};
ghost use Rattle.octets_literal.specs.declared.error.LiteralError.TheVariants.{Short, OutOfMemory};
ghost use Rattle.octets_lists.specs.declared.header_field.FieldError.TheVariants.{NotNew, Literal};

use octets::{BufferTooShortError, Octets, OctetsMut, OctetsWriter};
use octets_literal::{LiteralError, get_string, put_string, write_string};
use std::alloc::Global;
use std::error::Error;
use std::fmt;

/// How a field is indexed (RFC 7541, section 6.2).
#[derive(Clone, Copy, Debug, PartialEq, Eq)]
pub enum Indexing {
    /// The field is added to the dynamic table (section 6.2.1).
    Incremental,
    /// The field isn't added to the dynamic table (section 6.2.2).
    Without,
    /// The field isn't added to the dynamic table, and an intermediary must not add it to any table
    /// either (section 6.2.3).
    Never,
}

/// A field that owns its name and its value.
#[derive(Debug, Drop, PartialEq, Eq)]
pub struct HeaderField {
    /// How the field is indexed, which its first byte says.
    pub indexing: Indexing,
    /// The name, whether or not its literal was Huffman-encoded.
    pub name: Vec<u8>,
    /// The value, whether or not its literal was Huffman-encoded.
    pub value: Vec<u8>,
}

/// Why bytes don't begin with a field of a new name.
#[derive(Clone, Copy, Debug, PartialEq, Eq)]
pub enum FieldError {
    /// The first byte isn't that of a field with a new name.
    NotNew,
    /// There is no byte, or a read of the literal of the name or of the value failed.
    Literal(LiteralError),
}

impl fmt::Display for FieldError {
    ghost use Rattle.std.specs.Prelude.{Some};
    ghost use Rattle.octets_lists.specs.ErrorTexts.{field_error_text};

    ghost output = { λ e. Some (field_error_text e) };

    fn fmt<W: fmt::Write>(&self, f: &mut fmt::Formatter<W>) -> fmt::Result {
        match self {
            FieldError::NotNew => write!(f, "the first byte begins no field of a new name"),
            FieldError::Literal(why) => write!(f, "{why}"),
        }
    }
}

impl Error for FieldError {}

impl From<BufferTooShortError> for FieldError {
    ghost from_gives = { λ e r. r ≡ Literal Short };

    fn from(_error: BufferTooShortError) -> Self {
        FieldError::Literal(LiteralError::Short)
    }
}

impl From<LiteralError> for FieldError {
    ghost from_gives = { λ e r. r ≡ Literal e };

    fn from(error: LiteralError) -> Self {
        FieldError::Literal(error)
    }
}

/// Returns what the first byte of a field says, if the name of the field is new.
#[tactic(auto, unfolding(crate::specs::HeaderFields::mark))]
fn indexing_of(first: u8) -> Result<Indexing, FieldError>
    ensures marked { IfOk result (λ i. first ≡ mark i) }
    ensures other { IfErr result (λ e. (e ≡ NotNew) × ((i : Indexing) → first ≢ mark i)) }
{
    match first {
        0x40 => Ok(Indexing::Incremental),
        0x00 => Ok(Indexing::Without),
        0x10 => Ok(Indexing::Never),
        _ => Err(FieldError::NotNew),
    }
}

/// Returns the first byte of a field whose name is new.
#[tactic(auto, unfolding(crate::specs::HeaderFields::mark))]
fn mark_of(indexing: Indexing) -> u8
    ensures { result ≡ mark indexing }
{
    match indexing {
        Indexing::Incremental => 0x40,
        Indexing::Without => 0x00,
        Indexing::Never => 0x10,
    }
}

/// Reads a field whose name and value have at most `max_len` bytes each.
///
/// If it fails, it leaves the offset before the first part at fault: the first byte, the name or
/// the value.
#[tactic(auto, using(crate::proofs::Fields::one_mark, crate::proofs::Fields::refusals))]
pub fn read_field(
    alloc: Global,
    cursor: &mut Octets<'_>,
    max_len: usize,
) -> Result<HeaderField, FieldError>
    ensures field { IfOk result (λ f. (n : ℕ)
        × BeginsField (rest cursor.old) f.indexing f.name.items f.value.items n
        × Passes cursor.old cursor.new n) }
    ensures within { IfOk result
        (λ f. (length f.name.items ≤ max_len) × (length f.value.items ≤ max_len)) }

    // A field within the limit at the offset is read as this field, unless an allocation fails.
    ensures every { (i : Indexing) (name value : List ℕ) (n : ℕ)
        → BeginsField (rest cursor.old) i name value n
        → length name ≤ max_len → length value ≤ max_len
        → MatchResult result
        (λ f. (f.indexing ≡ i) × (f.name.items ≡ name) × (f.value.items ≡ value))
        (λ e. e ≡ Literal OutOfMemory) }
    ensures refused { IfErr result (λ e. (n : ℕ)
        × IsRefusedAt (rest cursor.old) max_len e n × Passes cursor.old cursor.new n) }
{
    let indexing = indexing_of(cursor.peek_u8()?)?;
    cursor.skip(1)?;
    let name = get_string(alloc, cursor, max_len)?;
    let value = get_string(alloc, cursor, max_len)?;
    Ok(HeaderField {
        indexing,
        name,
        value,
    })
}

/// Writes a field, whose name and value must have at most 4294967295 bytes each.
///
/// If the field doesn't fit, the call fails. It has then written a prefix of the field, and the
/// offset is after that prefix.
#[tactic(auto, using(crate::proofs::Sets::fields), unfolding(octets::specs::Encodes::cased))]
pub fn write_field(
    cursor: &mut OctetsMut<'_>,
    indexing: Indexing,
    name: &[u8],
    value: &[u8],
) -> octets::Result<()>
    requires name { length name.now ≤ 4294967295 }
    requires value { length value.now ≤ 4294967295 }
    ensures fits { IsOk result
        ↔ (length (header_field indexing name.now value.now) ≤ length (rest cursor.old)) }
    ensures writes { OnOk result
        (Writes cursor.old cursor.new (header_field indexing name.now value.now)) }
    ensures front { OnErr result (SomeFront (header_field indexing name.now value.now)
        (Writes cursor.old cursor.new)) }
    ensures keeps { Keeps cursor.old cursor.new }
{
    cursor.write_u8(mark_of(indexing))?;
    write_string::<false>(cursor, name)?;
    write_string::<false>(cursor, value)
}

/// Appends a field to `sink`. The name and the value must have at most 4294967295 bytes each.
///
/// The call stops at the first call on the sink that fails, and what was appended before stays
/// appended.
pub fn put_field<W: OctetsWriter>(
    sink: &mut W,
    indexing: Indexing,
    name: &[u8],
    value: &[u8],
) -> Result<(), W::Error>
    requires name { length name.now ≤ 4294967295 }
    requires value { length value.now ≤ 4294967295 }
    ensures ok { OnOk result (W.written sink.new
        ≡ W.written sink.old ++ header_field indexing name.now value.now) }
    ensures err { OnErr result (AppendsFront (W.written sink.old) (W.written sink.new)
        (header_field indexing name.now value.now)) }
    ensures fits { IfSome (W.room sink.old)
        (λ c. IsOk result ↔ (length (header_field indexing name.now value.now) ≤ c)) }
    ensures capacity { capacity_of (W.written sink.new) (W.room sink.new)
        ≡ capacity_of (W.written sink.old) (W.room sink.old) }
    ensures same_kind { W.whole sink.new ≡ W.whole sink.old }
{
    sink.put_bytes(&[mark_of(indexing)])?;
    put_string::<false, W>(sink, name)?;
    put_string::<false, W>(sink, value)
}
