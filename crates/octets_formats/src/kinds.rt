//! A message of one of several kinds.
//!
//! The first byte of a message gives its kind. The reader returns an enum, whose variant `Text`
//! contains a view. The clauses need definitions by cases. The kit generates the module
//! `specs.declared.kinds.Message` from the enum. The reader has a clause for each kind of
//! message and for each error. `TheVariants as Kinds` imports the variants as `Kinds.Ping` and
//! so on, so that a variant may have the name of another item.
//!
//! The writer names the set `each`. It has no loop, but the set also has the lemmas about
//! `length` that the clause `fits` needs.
ghost use Rattle.std.specs.Prelude.{◌≡◌, ◌↔◌, ◌+◌, ◌≤◌, ◌<◌, ◌^◌, ◌++◌, ℕ, List, length, drop, IsOk, IsOkAnd};
ghost use Rattle.std.specs.Prelude.{IfOk, OnOk, ◌≢◌, ◌⊎◌, IsErrOf};
ghost use Rattle.octets.specs.Bytes.{network, number, part};
ghost use Rattle.octets.specs.Varints.{BeginsVarint};
ghost use Rattle.octets.specs.Cursor.{rest, Passes, Reads, Writes};
ghost use Rattle.octets_formats.specs.Messages.{message_bytes, view_position, HasText, IsShort};
ghost use Rattle.octets_formats.specs.declared.kinds.Message.TheVariants as Kinds;
ghost use Rattle.octets_formats.specs.declared.kinds.MessageError.TheVariants as Reasons;

use octets::{BufferTooShortError, Octets, OctetsMut, Result};

/// A message.
#[derive(Debug, Drop, PartialEq, Eq)]
pub enum Message<'a> {
    Ping,
    Number(u32),
    /// A cursor over the text, at its start.
    Text(Octets<'a>),
}

/// Why no message was read.
#[derive(Clone, Copy, Debug, PartialEq, Eq)]
pub enum MessageError {
    /// The buffer ends before the message does.
    Short,
    /// No message has this kind.
    Unknown(u8),
}

impl From<BufferTooShortError> for MessageError {
    ghost from_gives = { λ _ r. r ≡ Reasons.Short };

    fn from(_: BufferTooShortError) -> MessageError {
        MessageError::Short
    }
}

/// Reads a message.
#[tactic(auto, using(octets::proofs::CallerLemmas::parts, octets::proofs::CallerLemmas::reads_more), unfolding(crate::specs::Messages::message_bytes, crate::specs::Messages::view_position, crate::specs::Messages::HasText))]
pub fn read_message<'a>(cursor: &mut Octets<'a>) -> std::result::Result<Message<'a>, MessageError>
    ensures spelled { IfOk result (λ m. Reads cursor.old cursor.new (message_bytes m)) }
    ensures start { IfOk result (λ m. view_position m ≡ 0) }
    ensures ping { (after : List ℕ) → rest cursor.old ≡ network 1 1 ++ after
        → IsOkAnd result (λ m. m ≡ Kinds.Ping) × (rest cursor.new ≡ after) }
    ensures number { (n : ℕ) (after : List ℕ) → n < 2 ^ 32
        → rest cursor.old ≡ network 1 2 ++ network 4 n ++ after
        → IsOkAnd result (λ m. m ≡ Kinds.Number n) × (rest cursor.new ≡ after) }
    ensures text { (text after : List ℕ) → length text < 2 ^ 16
        → rest cursor.old ≡ network 1 3 ++ network 2 (length text) ++ text ++ after
        → IsOkAnd result (λ m. HasText m text) × (rest cursor.new ≡ after) }
    ensures unknown { (kind : ℕ) → IsErrOf result (Reasons.Unknown kind)
        ↔ ((1 ≤ length (rest cursor.old)) × (number (part (rest cursor.old) 0 1) ≡ kind)
        × (kind ≢ 1) × (kind ≢ 2) × (kind ≢ 3)) }
    ensures short { IsErrOf result Reasons.Short ↔ ((length (rest cursor.old) < 1)
        ⊎ ((number (part (rest cursor.old) 0 1) ≡ 2) × (length (rest cursor.old) < 5))
        ⊎ ((number (part (rest cursor.old) 0 1) ≡ 3)
        × (length (rest cursor.old) < 3 + number (part (rest cursor.old) 1 2)))) }
{
    match cursor.get_u8()? {
        1 => Ok(Message::Ping),
        2 => Ok(Message::Number(cursor.get_u32()?)),
        3 => Ok(Message::Text(cursor.get_bytes_with_u16_length()?)),
        kind => Err(MessageError::Unknown(kind)),
    }
}

/// Writes a message.
#[tactic(auto, using(octets::proofs::CallerLemmas::each), unfolding(crate::specs::Messages::message_bytes, octets::specs::Bytes::prefixed))]
pub fn write_message(cursor: &mut OctetsMut<'_>, message: &Message<'_>) -> Result<()>
    requires { IsShort message.now }
    ensures fits { IsOk result ↔ (length (message_bytes message.now) ≤ length (rest cursor.old)) }
    ensures writes { OnOk result (Writes cursor.old cursor.new (message_bytes message.now)) }
{
    match message {
        Message::Ping => cursor.write_u8(1),
        Message::Number(n) => {
            cursor.write_u8(2)?;
            cursor.write_u32(*n)
        }
        Message::Text(text) => {
            cursor.write_u8(3)?;
            cursor.write_u16(text.len() as u16)?;
            cursor.put_bytes(text.buf())
        }
    }
}

// A kind may also be a varint of any width, as the type of an HTTP/3 frame. Then state each clause by
// `BeginsVarint`. State what follows the varint by its position in `drop w (rest cursor.old)`, where
// w is the width. The clauses below only say which messages are read. In a parser of your own also
// say when each error is returned, and that the view is at its start, as the clauses of
// `read_message` do.

/// Reads a message whose kind is a varint of any width.
#[tactic(auto, unfolding(crate::specs::Messages::HasText))]
pub fn read_wide_message<'a>(cursor: &mut Octets<'a>) -> Result<Message<'a>>
    ensures ping { (w : ℕ) → BeginsVarint (rest cursor.old) w 1
        → IsOkAnd result (λ m. m ≡ Kinds.Ping) × Passes cursor.old cursor.new w }
    ensures number { (w : ℕ) → BeginsVarint (rest cursor.old) w 2
        → 4 ≤ length (drop w (rest cursor.old))
        → IsOkAnd result (λ m. m ≡ Kinds.Number (number (part (drop w (rest cursor.old)) 0 4)))
        × Passes cursor.old cursor.new (w + 4) }
    ensures text { (w n : ℕ) → BeginsVarint (rest cursor.old) w 3
        → number (part (drop w (rest cursor.old)) 0 2) ≡ n
        → 2 + n ≤ length (drop w (rest cursor.old))
        → IsOkAnd result (λ m. HasText m (part (drop w (rest cursor.old)) 2 n))
        × Passes cursor.old cursor.new (w + (2 + n)) }
{
    match cursor.get_varint()? {
        1 => Ok(Message::Ping),
        2 => Ok(Message::Number(cursor.get_u32()?)),
        3 => Ok(Message::Text(cursor.get_bytes_with_u16_length()?)),
        _ => Err(BufferTooShortError),
    }
}
