//! Commands that reply with all bytes of the buffer, or with those that remain.
ghost use Rattle.std.specs.Prelude.{IfOk, OnErr};
ghost use Rattle.octets.specs.Cursor.{bytes, position};
ghost use Rattle.octets_script.specs.Runs.{AnswersUnmoved};
ghost use Rattle.octets_script.specs.Calls.{Call};
ghost use Rattle.octets_script.specs.Plays.{NeedsRoom};
ghost use Rattle.octets.specs.Requests.{WasRefused};

use crate::copied::copied;
use crate::reply::Reply;
use octets::OctetsMut;
use std::alloc::{AllocError, Global};

pub(crate) fn buf(alloc: Global, cursor: &OctetsMut<'_>) -> Result<Reply, AllocError>
    ensures tells { IfOk result (AnswersUnmoved Call.Buf cursor.now) }
    ensures refused { OnErr result (NeedsRoom Call.Buf (bytes cursor.now) (position cursor.now)) }
    ensures memory { OnErr result WasRefused }
{
    Ok(Reply::Bytes(copied(alloc, cursor.buf())?))
}

pub(crate) fn to_vec(alloc: Global, cursor: &OctetsMut<'_>) -> Result<Reply, AllocError>
    ensures tells { IfOk result (AnswersUnmoved Call.ToVec cursor.now) }
    ensures refused { OnErr result (NeedsRoom Call.ToVec (bytes cursor.now) (position cursor.now)) }
    ensures memory { OnErr result WasRefused }
{
    Ok(Reply::Bytes(cursor.to_vec(alloc)?))
}
