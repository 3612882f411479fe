//! The line of a reply.

use crate::hex::Hex;
use octets_script::Reply;
use std::fmt;

/// Displays the reply to a command: a word, and after it the number or the bytes.
#[derive(Clone, Copy)]
pub struct ReplyLine<'a>(pub &'a Reply);

impl fmt::Display for ReplyLine<'_> {
    ghost use Rattle.std.specs.Prelude.{Some};
    ghost use Rattle.octets_script.specs.Calls.{answer_of};
    ghost use Rattle.octets_tool.specs.Replies.{reply_line};

    ghost output = { λ text. Some (reply_line (answer_of text.0.now)) };

    fn fmt<W: fmt::Write>(&self, f: &mut fmt::Formatter<W>) -> fmt::Result {
        match self.0 {
            Reply::Done => write!(f, "done"),
            Reply::Number(number) => write!(f, "number {number}"),
            Reply::Bytes(bytes) => {
                let bytes = Hex(bytes.as_slice());
                write!(f, "bytes {bytes}")
            }
            Reply::Two(left, right) => {
                let (left, right) = (Hex(left.as_slice()), Hex(right.as_slice()));
                write!(f, "two {left} {right}")
            }
            Reply::Short => write!(f, "short"),
            Reply::Overlong => write!(f, "overlong"),
        }
    }
}
