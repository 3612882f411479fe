//! QUIC's ACK frames (RFC 9000, section 19.3), after their type: a list with a number that each
//! record changes.
//!
//! A frame has the largest packet number, a delay, the number of ranges, and the first range. Each
//! further range is a gap and a length. It goes down from the smallest packet number before it, and
//! must not go below 0. The reader checks this, and returns a view of the ranges, over which
//! `AckRanges` iterates. The counts of ECN, which follow in frames of the second type, aren't read.
//!
//! A number that grows or shrinks over a loop is an argument of the `data` definition of the list.
//! `EndsAt k t l i s m` says: if k ranges below the packet number t are at l, and as many of them
//! are passed as are complete and don't go below 0, then i ranges are left, the smallest packet
//! number is s, and the bytes m remain. Its case `later` has the arguments after one range. A
//! lemma for each of i, s and m says that k, t and l determine it, as `one_end` of the module
//! `marked` does. As there, the loop is in a function that can't fail, `pass_ranges`, and its
//! invariant is about every end.
//!
//! The conditions of the errors, and the numbers that a caller repeats, are `unfoldable`. Only
//! `read_fields` and `read_frame` expand them, so that a function which repeats the clauses, as
//! `read_ack` does, is proved without looking into them.
ghost use Rattle.std.specs.Prelude.{◌≡◌, ◌≢◌, ◌↔◌, ◌≤◌, ◌<◌, ◌+◌, ◌-◌, ◌^◌, ◌++◌, length};
ghost use Rattle.std.specs.Prelude.{IsOk, IfOk, IfErr, OnOk, OnErr, IsErrOf, MatchOption};
ghost use Rattle.std.specs.Iterator.{at_most};
ghost use Rattle.octets.specs.Varints.{BeginsVarint, marked_width};
ghost use Rattle.octets.specs.Cursor.{bytes, position, rest, Advances, IsUnchanged};
ghost use Rattle.octets_lists.specs.Acks.{marked_value, after, HasNumber, HasRange, need, skipped};
ghost use Rattle.octets_lists.specs.Acks.{after_range, EndsAt, Stops, AreRanges, LacksRange};
ghost use Rattle.octets_lists.specs.Acks.{GoesBelow, largest_of, delay_of, count_of, first_of};
ghost use Rattle.octets_lists.specs.Acks.{smallest_of, ranges_of, HasFields, IsAck, LacksFields};
ghost use Rattle.octets_lists.specs.Acks.{FirstIsBelow, RangeIsCut, RangeIsBelow};
ghost use Rattle.octets_lists.specs.declared.ack.AckError.TheVariants.{Short, FirstBelow, CutRange};
ghost use Rattle.octets_lists.specs.declared.ack.AckError.TheVariants.{RangeBelow};

use octets::{BufferTooShortError, Octets, Result};

/// Why no frame was read.
#[derive(Clone, Copy, Debug, PartialEq, Eq)]
pub enum AckError {
    /// A field before the ranges isn't complete.
    Short,
    /// The first range goes below packet number 0.
    FirstBelow,
    /// A range isn't complete.
    CutRange,
    /// A range goes below packet number 0.
    RangeBelow,
}

/// The numbers before the ranges.
#[derive(Clone, Copy, Debug, PartialEq, Eq)]
pub struct AckFields {
    /// The largest packet number.
    pub largest: u64,
    /// The delay, as it is in the frame.
    pub delay: u64,
    /// How many ranges follow the first.
    pub count: u64,
    /// How many packets before the largest are acknowledged without a gap.
    pub first: u64,
}

/// A frame.
#[derive(Debug, Drop)]
pub struct Ack<'a> {
    pub fields: AckFields,
    /// The smallest packet number.
    pub smallest: u64,
    /// A cursor over the gaps and lengths.
    pub ranges: Octets<'a>,
}

/// Reads a varint of any width.
#[tactic(auto, using(crate::proofs::Sets::widths))]
fn read_varint(cursor: &mut Octets<'_>) -> Result<u64>
    ensures fits { IsOk result ↔ HasNumber (rest cursor.old) }
    ensures value { IfOk result
        (λ n. BeginsVarint (rest cursor.old) (marked_width (rest cursor.old)) n) }
    ensures small { IfOk result (λ n. n < 2 ^ 62) }
    ensures after { OnOk result (rest cursor.new ≡ after (rest cursor.old)) }
    ensures shorter { OnOk result (length (rest cursor.new) < length (rest cursor.old)) }
    ensures advances { Advances cursor.old cursor.new }
{
    cursor.get_varint()
}

/// Does the same, and states the number by its bytes.
#[tactic(auto, using(crate::proofs::Sets::numbers), unfolding(octets::specs::Varints::BeginsVarint))]
fn read_number(cursor: &mut Octets<'_>) -> Result<u64>
    ensures fits { IsOk result ↔ HasNumber (rest cursor.old) }
    ensures value { IfOk result (λ n. n ≡ marked_value (rest cursor.old)) }
    ensures small { IfOk result (λ n. n < 2 ^ 62) }
    ensures after { OnOk result (rest cursor.new ≡ after (rest cursor.old)) }
    ensures shorter { OnOk result (length (rest cursor.new) < length (rest cursor.old)) }
    ensures advances { Advances cursor.old cursor.new }
{
    read_varint(cursor)
}

/// Reads a range, and returns how far its largest and its smallest packet number go down.
#[tactic(auto, unfolding(crate::specs::Acks::HasRange, crate::specs::Acks::need, crate::specs::Acks::skipped, crate::specs::Acks::after_range))]
fn read_range(cursor: &mut Octets<'_>) -> Result<(u64, u64)>
    ensures fits { IsOk result ↔ HasRange (rest cursor.old) }
    ensures top { IfOk result (λ r. r.0 ≡ skipped (rest cursor.old)) }
    ensures value { IfOk result (λ r. r.1 ≡ need (rest cursor.old)) }
    ensures ordered { IfOk result (λ r. r.0 ≤ r.1) }
    ensures after { OnOk result (rest cursor.new ≡ after_range (rest cursor.old)) }
    ensures shorter { OnOk result (length (rest cursor.new) < length (rest cursor.old)) }
    ensures advances { Advances cursor.old cursor.new }
{
    let gap = read_number(cursor)?;
    let len = read_number(cursor)?;
    Ok((gap + 2, gap + 2 + len))
}

/// Passes a range that doesn't go below 0, and returns its smallest and its largest packet number.
/// Otherwise it changes nothing.
fn pass_range(cursor: &mut Octets<'_>, smallest: u64) -> Result<(u64, u64)>
    ensures fits { IsOk result
        ↔ (HasRange (rest cursor.old) × (need (rest cursor.old) ≤ smallest)) }
    ensures value { IfOk result (λ r. r.0 ≡ smallest - need (rest cursor.old)) }
    ensures top { IfOk result (λ r. r.1 ≡ smallest - skipped (rest cursor.old)) }
    ensures after { OnOk result (rest cursor.new ≡ after_range (rest cursor.old)) }
    ensures shorter { OnOk result (length (rest cursor.new) < length (rest cursor.old)) }
    ensures unchanged { OnErr result (IsUnchanged cursor.old cursor.new) }
    ensures advances { Advances cursor.old cursor.new }
{
    let before = cursor.off();
    if let Ok((top, need)) = read_range(cursor) {
        if need <= smallest {
            return Ok((smallest - need, smallest - top));
        }
    }
    let _ = cursor.rewind(cursor.off() - before);
    Err(BufferTooShortError)
}

/// Passes as many of the ranges as there are. Returns how many are left, and the smallest packet
/// number.
#[tactic(auto, using(crate::specs::Acks::here, crate::specs::Acks::later), unfolding(crate::specs::Acks::Goes, crate::specs::Acks::Stops))]
fn pass_ranges(cursor: &mut Octets<'_>, count: u64, start: u64) -> (u64, u64)
    ensures ends { EndsAt count start (rest cursor.old) result.0 result.1 (rest cursor.new) }
    ensures stops { Stops result.0 result.1 (rest cursor.new) }
    ensures advances { Advances cursor.old cursor.new }
{
    let mut left = count;
    let mut smallest = start;
    'each: while left > 0 {
        let Ok((next, _)) = pass_range(cursor, smallest) else {
            return (left, smallest);
        };
        smallest = next;
        left -= 1;
    }
    (left, smallest)
}

/// Reads the ranges.
#[tactic(auto, using(crate::proofs::AckEnds::one_left, crate::proofs::AckEnds::one_smallest, crate::proofs::AckEnds::one_end), unfolding(crate::specs::Acks::Goes, crate::specs::Acks::Stops, crate::specs::Acks::AreRanges, crate::specs::Acks::LacksRange, crate::specs::Acks::GoesBelow))]
fn read_ranges(
    cursor: &mut Octets<'_>,
    count: u64,
    start: u64,
) -> std::result::Result<u64, AckError>
    ensures fits { IsOk result ↔ AreRanges count start (rest cursor.old) }
    ensures cut { IsErrOf result CutRange ↔ LacksRange count start (rest cursor.old) }
    ensures below { IsErrOf result RangeBelow ↔ GoesBelow count start (rest cursor.old) }
    ensures others { IfErr result (λ e. (e ≢ Short) × (e ≢ FirstBelow)) }
    ensures value { IfOk result (λ s. EndsAt count start (rest cursor.old) 0 s (rest cursor.new)) }
    ensures advances { Advances cursor.old cursor.new }
{
    let (left, smallest) = pass_ranges(cursor, count, start);
    if left == 0 {
        return Ok(smallest);
    }
    match read_range(cursor) {
        Ok(_) => Err(AckError::RangeBelow),
        Err(_) => Err(AckError::CutRange),
    }
}

/// Reads the numbers before the ranges.
#[tactic(auto, unfolding(crate::specs::Acks::HasFields, crate::specs::Acks::largest_of, crate::specs::Acks::delay_of, crate::specs::Acks::count_of, crate::specs::Acks::first_of, crate::specs::Acks::ranges_of))]
fn read_fields(cursor: &mut Octets<'_>) -> Result<AckFields>
    ensures fits { IsOk result ↔ HasFields (rest cursor.old) }
    ensures largest { IfOk result (λ f. f.largest ≡ largest_of (rest cursor.old)) }
    ensures delay { IfOk result (λ f. f.delay ≡ delay_of (rest cursor.old)) }
    ensures count { IfOk result (λ f. f.count ≡ count_of (rest cursor.old)) }
    ensures first { IfOk result (λ f. f.first ≡ first_of (rest cursor.old)) }
    ensures after { OnOk result (rest cursor.new ≡ ranges_of (rest cursor.old)) }
    ensures advances { Advances cursor.old cursor.new }
{
    Ok(AckFields {
        largest: read_number(cursor)?,
        delay: read_number(cursor)?,
        count: read_number(cursor)?,
        first: read_number(cursor)?,
    })
}

/// Reads the ranges, and returns the smallest packet number and a view of them.
fn view_ranges<'a>(
    cursor: &mut Octets<'a>,
    count: u64,
    start: u64,
) -> std::result::Result<(u64, Octets<'a>), AckError>
    ensures fits { IsOk result ↔ AreRanges count start (rest cursor.old) }
    ensures cut { IsErrOf result CutRange ↔ LacksRange count start (rest cursor.old) }
    ensures below { IsErrOf result RangeBelow ↔ GoesBelow count start (rest cursor.old) }
    ensures others { IfErr result (λ e. (e ≢ Short) × (e ≢ FirstBelow)) }
    ensures value { IfOk result
        (λ r. EndsAt count start (rest cursor.old) 0 r.0 (rest cursor.new)) }
    ensures view { IfOk result (λ r. rest cursor.old ≡ bytes r.1 ++ rest cursor.new) }
    ensures start { IfOk result (λ r. position r.1 ≡ 0) }
    ensures advances { Advances cursor.old cursor.new }
{
    let Ok(mut ahead) = cursor.peek_bytes(cursor.cap()) else {
        return Err(AckError::CutRange);
    };
    let smallest = read_ranges(&mut ahead, count, start)?;
    let ranges = cursor
        .get_bytes(ahead.off())
        .map_err(|_| AckError::CutRange)?;
    Ok((smallest, ranges))
}

/// Reads a frame. If it fails, the offset may be after some of it.
#[tactic(auto, unfolding(crate::specs::Acks::IsAck, crate::specs::Acks::LacksFields, crate::specs::Acks::FirstIsBelow, crate::specs::Acks::RangeIsCut, crate::specs::Acks::RangeIsBelow, crate::specs::Acks::smallest_of))]
fn read_frame<'a>(cursor: &mut Octets<'a>) -> std::result::Result<Ack<'a>, AckError>
    ensures short { IsErrOf result Short ↔ LacksFields (rest cursor.old) }
    ensures first_below { IsErrOf result FirstBelow ↔ FirstIsBelow (rest cursor.old) }
    ensures cut { IsErrOf result CutRange ↔ RangeIsCut (rest cursor.old) }
    ensures below { IsErrOf result RangeBelow ↔ RangeIsBelow (rest cursor.old) }
    ensures fits { IsOk result ↔ IsAck (rest cursor.old) }
    ensures largest { IfOk result (λ a. a.fields.largest ≡ largest_of (rest cursor.old)) }
    ensures delay { IfOk result (λ a. a.fields.delay ≡ delay_of (rest cursor.old)) }
    ensures count { IfOk result (λ a. a.fields.count ≡ count_of (rest cursor.old)) }
    ensures first { IfOk result (λ a. a.fields.first ≡ first_of (rest cursor.old)) }
    ensures smallest { IfOk result (λ a. EndsAt (count_of (rest cursor.old))
        (smallest_of (rest cursor.old)) (ranges_of (rest cursor.old))
        0 a.smallest (rest cursor.new)) }
    ensures ranges { IfOk result
        (λ a. ranges_of (rest cursor.old) ≡ bytes a.ranges ++ rest cursor.new) }
    ensures start { IfOk result (λ a. position a.ranges ≡ 0) }
    ensures advances { Advances cursor.old cursor.new }
{
    let fields = read_fields(cursor).map_err(|_| AckError::Short)?;
    if fields.first > fields.largest {
        return Err(AckError::FirstBelow);
    }
    let (smallest, ranges) = view_ranges(cursor, fields.count, fields.largest - fields.first)?;
    Ok(Ack {
        fields,
        smallest,
        ranges,
    })
}

/// Reads a frame, and leaves the cursor unchanged if it fails.
pub fn read_ack<'a>(cursor: &mut Octets<'a>) -> std::result::Result<Ack<'a>, AckError>
    ensures short { IsErrOf result Short ↔ LacksFields (rest cursor.old) }
    ensures first_below { IsErrOf result FirstBelow ↔ FirstIsBelow (rest cursor.old) }
    ensures cut { IsErrOf result CutRange ↔ RangeIsCut (rest cursor.old) }
    ensures below { IsErrOf result RangeBelow ↔ RangeIsBelow (rest cursor.old) }
    ensures fits { IsOk result ↔ IsAck (rest cursor.old) }
    ensures largest { IfOk result (λ a. a.fields.largest ≡ largest_of (rest cursor.old)) }
    ensures delay { IfOk result (λ a. a.fields.delay ≡ delay_of (rest cursor.old)) }
    ensures count { IfOk result (λ a. a.fields.count ≡ count_of (rest cursor.old)) }
    ensures first { IfOk result (λ a. a.fields.first ≡ first_of (rest cursor.old)) }
    ensures smallest { IfOk result (λ a. EndsAt (count_of (rest cursor.old))
        (smallest_of (rest cursor.old)) (ranges_of (rest cursor.old))
        0 a.smallest (rest cursor.new)) }
    ensures ranges { IfOk result
        (λ a. ranges_of (rest cursor.old) ≡ bytes a.ranges ++ rest cursor.new) }
    ensures start { IfOk result (λ a. position a.ranges ≡ 0) }
    ensures advances { Advances cursor.old cursor.new }
    ensures unchanged { OnErr result (IsUnchanged cursor.old cursor.new) }
{
    let start = cursor.off();
    match read_frame(cursor) {
        Ok(ack) => Ok(ack),
        Err(error) => {
            let _ = cursor.rewind(cursor.off() - start);
            Err(error)
        }
    }
}

/// The ranges after the first, each from its smallest to its largest packet number.
#[derive(Debug, Drop)]
pub struct AckRanges<'a> {
    smallest: u64,
    cursor: Octets<'a>,
}

impl<'a> AckRanges<'a> {
    /// The ranges that remain in the cursor, after one whose smallest packet number is `smallest`.
    pub fn of(smallest: u64, cursor: Octets<'a>) -> AckRanges<'a>
        ensures smallest { result.smallest ≡ smallest }
        ensures cursor { rest result.cursor ≡ rest cursor.entry }
    {
        AckRanges { smallest, cursor }
    }
}

impl<'a> Iterator for AckRanges<'a> {
    type Item = (u64, u64);

    ghost remaining = { λ s. at_most (length (rest s.cursor)) };

    ghost next_gives = { λ s item t. MatchOption item
        ((HasRange (rest s.cursor) × (need (rest s.cursor) ≤ s.smallest) → ⊥)
        × IsUnchanged s.cursor t.cursor × (t.smallest ≡ s.smallest))
        (λ r. HasRange (rest s.cursor) × (need (rest s.cursor) ≤ s.smallest)
        × (r.0 ≡ s.smallest - need (rest s.cursor)) × (r.1 ≡ s.smallest - skipped (rest s.cursor))
        × (t.smallest ≡ r.0) × (rest t.cursor ≡ after_range (rest s.cursor))) };

    fn next(&mut self) -> Option<(u64, u64)> {
        let (low, high) = pass_range(&mut self.cursor, self.smallest).ok()?;
        self.smallest = low;
        Some((low, high))
    }
}
