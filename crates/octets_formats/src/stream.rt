//! QUIC's STREAM frame (RFC 9000, section 19.8), with an error for each field.
//!
//! A small function reads the type, a varint that may be absent, or the data. It has two kinds of
//! clauses. `fits`, `value` and `passes` state the field by its position: the definitions compute
//! from the first byte of a varint where the varint ends. `every` states that the bytes that a
//! writer writes are read. Only the functions of a field that may be absent, and `read_fields`,
//! expand `optional`. No function has a lemma or a proof of its own, but two lists of lemmas of the
//! library and of the kit, `widths` and `numbers` in `proofs/Sets.antt`.
//!
//! `EachFrame` has a variable for each flag. With a variable for a struct of the flags, `every` of
//! `read_fields` isn't proved, because the search doesn't put one value in place of another where
//! that is a field, as in `t.has_offset`. It also needs a bound for each number, and not only for
//! the sum of the offset and the length.
//!
//! `read_fields` says of each field when it is the first that isn't complete. `read_stream` also
//! checks where the data end, and goes back by `rewind`. `leaves` is a clause of its own, because
//! `every` of a function that goes back can't say what remains, as the module `tagged` explains.
//! `write_stream` compares the length of the frame with the free space before it writes. Its
//! clause `writes` has the same definition as `every` and `leaves`, so what is written is read
//! back.
ghost use Rattle.std.specs.Prelude.{◌≡◌, ◌≢◌, ◌↔◌, ◌+◌, ◌/◌, ◌%◌, ◌^◌, ◌≤◌, ◌<◌, ◌++◌, ℕ, Bool, false};
ghost use Rattle.std.specs.Prelude.{List, [], length, take, IsOk, IsOkAnd, IfOk, IfErr, OnOk, OnErr, IsErrOf};
ghost use Rattle.octets.specs.Bytes.{network};
ghost use Rattle.octets.specs.Varints.{BeginsVarint, marked_width, shortest, varint};
ghost use Rattle.octets.specs.Cursor.{bytes, position, rest, Advances, IsUnchanged, Passes, Writes};
ghost use Rattle.octets_formats.specs.StreamFrames.{type_byte, least_if, frame_of, EachFrame, IsFrame};
ghost use Rattle.octets_formats.specs.StreamFrames.{width_if, value_if, count_if, after_if, has_offset};
ghost use Rattle.octets_formats.specs.StreamFrames.{has_length, is_last, id_of, offset_of, count_of};
ghost use Rattle.octets_formats.specs.StreamFrames.{data_of, after_data, Has, HasRun, HasData, HasType};
ghost use Rattle.octets_formats.specs.StreamFrames.{HasOtherType, Lacks, LacksRun, LacksType, LacksId};
ghost use Rattle.octets_formats.specs.StreamFrames.{LacksOffset, LacksLength, LacksData, EndsTooFar};
ghost use Rattle.octets_formats.specs.declared.stream.StreamError.TheVariants.{NoType, OtherType, NoId};
ghost use Rattle.octets_formats.specs.declared.stream.StreamError.TheVariants.{NoOffset, NoLength};
ghost use Rattle.octets_formats.specs.declared.stream.StreamError.TheVariants.{NoData, TooFar};

use octets::{Buffer, BufferTooShortError, Cursor, Octets, Result, varint_len};

/// Why no frame was read.
#[derive(Clone, Copy, Debug, PartialEq, Eq)]
pub enum StreamError {
    /// No byte remains.
    NoType,
    /// The type isn't that of a STREAM frame.
    OtherType,
    /// The number of the stream isn't complete.
    NoId,
    /// The offset isn't complete.
    NoOffset,
    /// The length isn't complete.
    NoLength,
    /// The data aren't complete.
    NoData,
    /// The offset after the data is 2 to the power 62 or more, which no stream may have.
    TooFar,
}

/// What the type of a frame says.
#[derive(Clone, Copy, Debug, PartialEq, Eq)]
pub struct StreamType {
    /// Whether the frame has an offset. If it has none, the data are at the start of the stream.
    pub has_offset: bool,
    /// Whether the frame has a length. If it has none, the data go on to the end of the packet.
    pub has_length: bool,
    /// Whether the stream ends with these data.
    pub is_last: bool,
}

/// A frame.
#[derive(Debug, Drop, PartialEq, Eq)]
pub struct StreamFrame<'a> {
    /// The number of the stream.
    pub id: u64,
    /// The offset of the data in the stream.
    pub offset: u64,
    /// Whether the stream ends with these data.
    pub is_last: bool,
    /// A cursor over the data.
    pub data: Octets<'a>,
}

/// Reads the type.
#[tactic(auto, using(octets::proofs::CallerLemmas::parts))]
fn read_type(cursor: &mut Octets<'_>) -> std::result::Result<StreamType, StreamError>
    ensures no_type { IsErrOf result NoType ↔ LacksType (rest cursor.old) }
    ensures other_type { IsErrOf result OtherType ↔ HasOtherType (rest cursor.old) }
    ensures fits { IsOk result ↔ HasType (rest cursor.old) }
    ensures offset { IfOk result (λ t. t.has_offset ≡ has_offset (rest cursor.old)) }
    ensures len { IfOk result (λ t. t.has_length ≡ has_length (rest cursor.old)) }
    ensures last { IfOk result (λ t. t.is_last ≡ is_last (rest cursor.old)) }
    ensures passes { OnOk result (Passes cursor.old cursor.new 1) }
    ensures every { (offset len last : Bool) (after : List ℕ)
        → rest cursor.old ≡ network 1 (type_byte offset len last) ++ after
        → IsOkAnd result (λ t. (t.has_offset ≡ offset) × (t.has_length ≡ len) × (t.is_last ≡ last))
        × (rest cursor.new ≡ after) }
    ensures advances { Advances cursor.old cursor.new }
{
    let kind = cursor.get_u8().map_err(|_| StreamError::NoType)?;
    if kind / 8 != 1 {
        return Err(StreamError::OtherType);
    }
    Ok(StreamType {
        has_offset: kind / 4 % 2 > 0,
        has_length: kind / 2 % 2 > 0,
        is_last: kind % 2 > 0,
    })
}

/// Reads a varint of any width.
#[tactic(auto, using(crate::proofs::Sets::widths))]
fn read_number(cursor: &mut Octets<'_>) -> Result<u64>
    ensures fits { IsOk result ↔ (marked_width (rest cursor.old) ≤ length (rest cursor.old)) }
    ensures value { IfOk result
        (λ n. BeginsVarint (rest cursor.old) (marked_width (rest cursor.old)) n) }
    ensures small { IfOk result (λ n. n < 2 ^ 62) }
    ensures passes { OnOk result (Passes cursor.old cursor.new (marked_width (rest cursor.old))) }
    ensures every { (n : ℕ) (after : List ℕ) → n < 2 ^ 62
        → rest cursor.old ≡ varint (shortest n) n ++ after
        → IsOkAnd result (λ r. r ≡ n) × (rest cursor.new ≡ after) }
    ensures advances { Advances cursor.old cursor.new }
{
    cursor.get_varint()
}

/// Reads a varint if it is there, or returns `absent`.
#[tactic(auto, using(crate::proofs::Sets::numbers), unfolding(octets::specs::Varints::BeginsVarint, crate::specs::StreamFrames::optional))]
fn read_if(cursor: &mut Octets<'_>, is_there: bool, absent: u64) -> Result<u64>
    requires { absent < 2 ^ 63 }
    ensures fits { IsOk result ↔ Has is_there (rest cursor.old) }
    ensures value { IfOk result (λ n. n ≡ value_if is_there absent (rest cursor.old)) }
    ensures small { IfOk result (λ n. n < 2 ^ 63) }
    ensures passes { OnOk result
        (Passes cursor.old cursor.new (width_if is_there (rest cursor.old))) }
    ensures every { (n : ℕ) (after : List ℕ) → n < 2 ^ 62 → (is_there ≡ false → n ≡ absent)
        → rest cursor.old ≡ least_if is_there n ++ after
        → IsOkAnd result (λ r. r ≡ n) × (rest cursor.new ≡ after) }
    ensures advances { Advances cursor.old cursor.new }
{
    if is_there {
        read_number(cursor)
    } else {
        Ok(absent)
    }
}

/// Reads data after their length, or all bytes that remain if there is no length.
#[tactic(auto, unfolding(crate::specs::StreamFrames::optional))]
fn read_data<'a>(
    cursor: &mut Octets<'a>,
    has_len: bool,
) -> std::result::Result<Octets<'a>, StreamError>
    ensures no_length { IsErrOf result NoLength ↔ Lacks has_len (rest cursor.old) }
    ensures no_data { IsErrOf result NoData ↔ LacksRun has_len (rest cursor.old) }
    ensures others { IfErr result (λ e. (e ≢ NoType) × (e ≢ OtherType) × (e ≢ NoId)
        × (e ≢ NoOffset) × (e ≢ TooFar)) }
    ensures fits { IsOk result ↔ HasRun has_len (rest cursor.old) }
    ensures run { IfOk result (λ v. bytes v
        ≡ take (count_if has_len (rest cursor.old)) (after_if has_len (rest cursor.old))) }
    ensures count { IfOk result (λ v. length (bytes v) ≡ count_if has_len (rest cursor.old)) }
    ensures small { IfOk result (λ v. length (bytes v) < 2 ^ 63) }
    ensures start { IfOk result (λ v. position v ≡ 0) }
    ensures passes { OnOk result (Passes cursor.old cursor.new
        (width_if has_len (rest cursor.old) + count_if has_len (rest cursor.old))) }
    ensures every { (run after : List ℕ) → length run < 2 ^ 62 → (has_len ≡ false → after ≡ [])
        → rest cursor.old ≡ least_if has_len (length run) ++ run ++ after
        → IsOkAnd result (λ v. bytes v ≡ run) × (rest cursor.new ≡ after) }
    ensures advances { Advances cursor.old cursor.new }
{
    let left = cursor.cap() as u64;
    let count = read_if(cursor, has_len, left).map_err(|_| StreamError::NoLength)?;
    if count > cursor.cap() as u64 {
        return Err(StreamError::NoData);
    }
    cursor
        .get_bytes(count as usize)
        .map_err(|_| StreamError::NoData)
}

/// Reads the fields of a frame. If it fails, the offset may be after some of them.
#[tactic(auto, using(octets::proofs::CallerLemmas::spelled), unfolding(crate::specs::StreamFrames::stream_frame, crate::specs::StreamFrames::optional))]
fn read_fields<'a>(cursor: &mut Octets<'a>) -> std::result::Result<StreamFrame<'a>, StreamError>
    ensures no_type { IsErrOf result NoType ↔ LacksType (rest cursor.old) }
    ensures other_type { IsErrOf result OtherType ↔ HasOtherType (rest cursor.old) }
    ensures no_id { IsErrOf result NoId ↔ LacksId (rest cursor.old) }
    ensures no_offset { IsErrOf result NoOffset ↔ LacksOffset (rest cursor.old) }
    ensures no_length { IsErrOf result NoLength ↔ LacksLength (rest cursor.old) }
    ensures no_data { IsErrOf result NoData ↔ LacksData (rest cursor.old) }
    ensures not_far { IfErr result (λ e. e ≢ TooFar) }
    ensures fits { IsOk result ↔ HasData (rest cursor.old) }
    ensures id { IfOk result (λ f. f.id ≡ id_of (rest cursor.old)) }
    ensures offset { IfOk result (λ f. f.offset ≡ offset_of (rest cursor.old)) }
    ensures last { IfOk result (λ f. f.is_last ≡ is_last (rest cursor.old)) }
    ensures run { IfOk result (λ f. bytes f.data ≡ data_of (rest cursor.old)) }
    ensures count { IfOk result (λ f. length (bytes f.data) ≡ count_of (rest cursor.old)) }
    ensures small { IfOk result (λ f. (f.offset < 2 ^ 63) × (length (bytes f.data) < 2 ^ 63)) }
    ensures start { IfOk result (λ f. position f.data ≡ 0) }
    ensures after { OnOk result (rest cursor.new ≡ after_data (rest cursor.old)) }
    ensures every { EachFrame (rest cursor.old) (λ last id at run _.
        IsOkAnd result (λ f. (f.id ≡ id) × (f.offset ≡ at) × (f.is_last ≡ last)
        × (bytes f.data ≡ run))) }
    ensures leaves { EachFrame (rest cursor.old)
        (λ _ _ _ _ after. OnOk result (rest cursor.new ≡ after)) }
    ensures advances { Advances cursor.old cursor.new }
{
    let kind = read_type(cursor)?;
    let id = read_if(cursor, true, 0).map_err(|_| StreamError::NoId)?;
    let offset = read_if(cursor, kind.has_offset, 0).map_err(|_| StreamError::NoOffset)?;
    let data = read_data(cursor, kind.has_length)?;
    Ok(StreamFrame {
        id,
        offset,
        is_last: kind.is_last,
        data,
    })
}

/// Reads a frame, whose varints may have any width, and leaves the cursor unchanged if it fails.
pub fn read_stream<'a>(cursor: &mut Octets<'a>) -> std::result::Result<StreamFrame<'a>, StreamError>
    ensures no_type { IsErrOf result NoType ↔ LacksType (rest cursor.old) }
    ensures other_type { IsErrOf result OtherType ↔ HasOtherType (rest cursor.old) }
    ensures no_id { IsErrOf result NoId ↔ LacksId (rest cursor.old) }
    ensures no_offset { IsErrOf result NoOffset ↔ LacksOffset (rest cursor.old) }
    ensures no_length { IsErrOf result NoLength ↔ LacksLength (rest cursor.old) }
    ensures no_data { IsErrOf result NoData ↔ LacksData (rest cursor.old) }
    ensures too_far { IsErrOf result TooFar ↔ EndsTooFar (rest cursor.old) }
    ensures fits { IsOk result ↔ IsFrame (rest cursor.old) }
    ensures id { IfOk result (λ f. f.id ≡ id_of (rest cursor.old)) }
    ensures offset { IfOk result (λ f. f.offset ≡ offset_of (rest cursor.old)) }
    ensures last { IfOk result (λ f. f.is_last ≡ is_last (rest cursor.old)) }
    ensures run { IfOk result (λ f. bytes f.data ≡ data_of (rest cursor.old)) }
    ensures start { IfOk result (λ f. position f.data ≡ 0) }
    ensures after { OnOk result (rest cursor.new ≡ after_data (rest cursor.old)) }
    ensures every { EachFrame (rest cursor.old) (λ last id at run _. at + length run < 2 ^ 62
        → IsOkAnd result (λ f. (f.id ≡ id) × (f.offset ≡ at) × (f.is_last ≡ last)
        × (bytes f.data ≡ run))) }
    ensures leaves { EachFrame (rest cursor.old)
        (λ _ _ at run after. at + length run < 2 ^ 62 → OnOk result (rest cursor.new ≡ after)) }
    ensures advances { Advances cursor.old cursor.new }
    ensures unchanged { OnErr result (IsUnchanged cursor.old cursor.new) }
{
    let before = cursor.off();
    match read_fields(cursor) {
        Ok(frame) => {
            if frame.offset + frame.data.len() as u64 >= 1 << 62 {
                let _ = cursor.rewind(cursor.off() - before);
                return Err(StreamError::TooFar);
            }
            Ok(frame)
        }
        Err(error) => {
            let _ = cursor.rewind(cursor.off() - before);
            Err(error)
        }
    }
}

/// Returns the byte of a type.
fn byte_of(kind: StreamType) -> u8
    ensures { result ≡ type_byte kind.has_offset kind.has_length kind.is_last }
{
    let offset = if kind.has_offset { 4 } else { 0 };
    let len = if kind.has_length { 2 } else { 0 };
    let last = if kind.is_last { 1 } else { 0 };
    8 + offset + len + last
}

/// Returns how many bytes the varint of a number has, or 0 if it is absent.
#[tactic(auto, using(crate::proofs::Sets::sizes), unfolding(crate::specs::StreamFrames::optional))]
fn len_if(is_there: bool, n: u64) -> usize
    requires { n < 2 ^ 62 }
    ensures len { result ≡ length (least_if is_there n) }
    ensures small { result ≤ 8 }
{
    if is_there { varint_len(n) } else { 0 }
}

/// Returns how many bytes a frame has.
#[tactic(auto, using(crate::proofs::Sets::streams), unfolding(crate::specs::StreamFrames::stream_frame))]
fn frame_len(kind: StreamType, id: u64, offset: u64, payload: &[u8]) -> usize
    requires id { id < 2 ^ 62 }
    requires offset { offset < 2 ^ 62 }
    requires small { length payload.now < 2 ^ 62 }
    ensures { result ≡ length (frame_of kind id offset payload.now) }
{
    1 + varint_len(id)
        + len_if(kind.has_offset, offset)
        + len_if(kind.has_length, payload.len() as u64)
        + payload.len()
}

/// Writes the varint of a number, or nothing if it is absent.
#[tactic(auto, using(crate::proofs::Sets::sizes), unfolding(crate::specs::StreamFrames::optional))]
fn write_if<B: Buffer>(cursor: &mut Cursor<B>, is_there: bool, n: u64) -> Result<()>
    requires { n < 2 ^ 62 }
    ensures fits { IsOk result ↔ (length (least_if is_there n) ≤ length (rest cursor.old)) }
    ensures writes { OnOk result (Writes cursor.old cursor.new (least_if is_there n)) }
{
    if is_there {
        cursor.write_varint(n)
    } else {
        Ok(())
    }
}

/// Writes the fields of a frame, as far as they fit.
#[tactic(auto, using(crate::proofs::Sets::streams), unfolding(crate::specs::StreamFrames::stream_frame))]
fn write_fields<B: Buffer>(
    cursor: &mut Cursor<B>,
    kind: StreamType,
    id: u64,
    offset: u64,
    payload: &[u8],
) -> Result<()>
    requires id { id < 2 ^ 62 }
    requires offset { offset < 2 ^ 62 }
    requires small { length payload.now < 2 ^ 62 }
    ensures fits { IsOk result
        ↔ (length (frame_of kind id offset payload.now) ≤ length (rest cursor.old)) }
    ensures writes { OnOk result
        (Writes cursor.old cursor.new (frame_of kind id offset payload.now)) }
{
    cursor.write_u8(byte_of(kind))?;
    cursor.write_varint(id)?;
    write_if(cursor, kind.has_offset, offset)?;
    write_if(cursor, kind.has_length, payload.len() as u64)?;
    cursor.put_bytes(payload)
}

/// Writes a frame, or nothing if it doesn't fit. The offset and the length are written if `kind`
/// says so, in the least width. Each number must be below 2 to the power 62, and so must the
/// length, even if it isn't written.
///
/// `read_stream` reads the frame back if the sum of the offset and the length is below 2 to the
/// power 62, `offset` is 0 if it isn't written, and nothing follows a frame without a length.
pub fn write_stream<B: Buffer>(
    cursor: &mut Cursor<B>,
    kind: StreamType,
    id: u64,
    offset: u64,
    payload: &[u8],
) -> Result<()>
    requires id { id < 2 ^ 62 }
    requires offset { offset < 2 ^ 62 }
    requires small { length payload.now < 2 ^ 62 }
    ensures fits { IsOk result
        ↔ (length (frame_of kind id offset payload.now) ≤ length (rest cursor.old)) }
    ensures writes { OnOk result
        (Writes cursor.old cursor.new (frame_of kind id offset payload.now)) }
    ensures unchanged { OnErr result (IsUnchanged cursor.old cursor.new) }
{
    if frame_len(kind, id, offset, payload) > cursor.cap() {
        return Err(BufferTooShortError);
    }
    write_fields(cursor, kind, id, offset, payload)
}
