//! Commands that write.
ghost use Rattle.octets_script.specs.Runs.{AnswersLeaving};
ghost use Rattle.octets_script.specs.Calls.{Call};

use crate::over::slices::{
    put_u8_then_overwrite, put_u16_then_overwrite, put_u24_then_overwrite, put_u32_then_overwrite,
    put_u64_then_overwrite, put_varint_then_overwrite, put_wide_then_overwrite,
};
use crate::reply::{Reply, done_or_short};
use crate::varint::{Varint, Wide};
use octets::OctetsMut;

#[tactic(auto, unfolding(octets::specs::Bytes::network))]
pub(crate) fn put_u8(cursor: &mut OctetsMut<'_>, v: u8, w: &[u8]) -> Reply
    ensures { AnswersLeaving (Call.PutU8 v w.now) cursor.old result cursor.new }
{
    done_or_short(put_u8_then_overwrite(cursor, v, w))
}

#[tactic(auto, unfolding(octets::specs::Bytes::network))]
pub(crate) fn put_u16(cursor: &mut OctetsMut<'_>, v: u16, w: &[u8]) -> Reply
    ensures { AnswersLeaving (Call.PutU16 v w.now) cursor.old result cursor.new }
{
    done_or_short(put_u16_then_overwrite(cursor, v, w))
}

#[tactic(auto, unfolding(octets::specs::Bytes::network))]
pub(crate) fn put_u24(cursor: &mut OctetsMut<'_>, v: u32, w: &[u8]) -> Reply
    ensures { AnswersLeaving (Call.PutU24 v w.now) cursor.old result cursor.new }
{
    done_or_short(put_u24_then_overwrite(cursor, v, w))
}

#[tactic(auto, unfolding(octets::specs::Bytes::network))]
pub(crate) fn put_u32(cursor: &mut OctetsMut<'_>, v: u32, w: &[u8]) -> Reply
    ensures { AnswersLeaving (Call.PutU32 v w.now) cursor.old result cursor.new }
{
    done_or_short(put_u32_then_overwrite(cursor, v, w))
}

#[tactic(auto, unfolding(octets::specs::Bytes::network))]
pub(crate) fn put_u64(cursor: &mut OctetsMut<'_>, v: u64, w: &[u8]) -> Reply
    ensures { AnswersLeaving (Call.PutU64 v w.now) cursor.old result cursor.new }
{
    done_or_short(put_u64_then_overwrite(cursor, v, w))
}

#[tactic(auto, unfolding(octets::specs::Bytes::network, octets::specs::Varints::varint))]
pub(crate) fn put_varint(cursor: &mut OctetsMut<'_>, v: &Varint, w: &[u8]) -> Reply
    ensures { AnswersLeaving (Call.PutVarint v.now w.now) cursor.old result cursor.new }
{
    done_or_short(put_varint_then_overwrite(cursor, v.get(), w))
}

pub(crate) fn put_varint_with_len(cursor: &mut OctetsMut<'_>, v: &Wide, w: &[u8]) -> Reply
    ensures { AnswersLeaving (Call.PutVarintWithLen v.now w.now) cursor.old result cursor.new }
{
    done_or_short(put_wide_then_overwrite(cursor, v.value(), v.width(), w))
}
