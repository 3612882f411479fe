//! Records in any order, which set the fields of a struct.
//!
//! A record is a kind, which has one byte, and a number of two bytes. The kinds 1 and 2 are
//! fields of a struct; the reader passes over records of other kinds. `HasKnown l p s m` has a
//! case for each kind, and one for all other kinds, and the reader names all cases in
//! `using(..)`.
//!
//! We haven't tried a struct whose fields are views, and we haven't tried a reader that rejects
//! a kind that comes twice. With a `Vec`, docs/CLOSING.md has lines about kinds that come
//! twice.
ghost use Rattle.std.specs.Prelude.{◌≡◌, ◌<◌, [], length, drop, IfOk, OnOk, OnErr};
ghost use Rattle.octets.specs.Cursor.{rest};
ghost use Rattle.octets_lists.specs.Known.{BeginsRecord, EndsShort, HasKnown};

use octets::{Octets, Result};

/// The numbers of the records of the kinds 1 and 2.
#[derive(Clone, Copy, Debug, PartialEq, Eq)]
pub struct Known {
    pub port: Option<u16>,
    pub size: Option<u16>,
}

/// Reads a record: its kind and its number.
#[tactic(auto, unfolding(crate::specs::Known::BeginsRecord))]
pub fn read_numbered(cursor: &mut Octets<'_>) -> Result<(u8, u16)>
    ensures record { IfOk result (λ r. BeginsRecord (rest cursor.old) r.0 r.1) }
    ensures after { OnOk result (rest cursor.new ≡ drop 3 (rest cursor.old)) }
    ensures shorter { OnOk result (length (rest cursor.new) < length (rest cursor.old)) }
    ensures refused { OnErr result (length (rest cursor.old) < 3) }
{
    Ok((cursor.get_u8()?, cursor.get_u16()?))
}

/// Reads records up to the end of the buffer. If a kind comes twice, the last record counts.
#[tactic(auto, using(crate::specs::Known::nothing, crate::specs::Known::port, crate::specs::Known::size, crate::specs::Known::other), unfolding(crate::specs::Known::EndsShort))]
pub fn read_known(cursor: &mut Octets<'_>) -> Result<Known>
    ensures known { IfOk result (λ k. HasKnown (rest cursor.old) k.port k.size []) }
    ensures refused { OnErr result (EndsShort (rest cursor.old)) }
    ensures ends { OnOk result (rest cursor.new ≡ []) }
{
    let mut port = None;
    let mut size = None;
    'records: while cursor.cap() > 0 {
        let (kind, number) = read_numbered(cursor)?;
        match kind {
            1 => port = Some(number),
            2 => size = Some(number),
            _ => {}
        }
    }
    Ok(Known { port, size })
}
