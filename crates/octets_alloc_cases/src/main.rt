//! A program that makes the call that its input names, and prints the result. It is run with
//! allocations that fail. Only the call allocates memory, and for `list` also the byte that the
//! list holds.
#![tactic(auto)]

mod calls;
mod copies;
mod decodes;
mod lists;
mod literals;
mod long;
mod print;
mod sinks;
mod uses;

use calls::{Call, call_of};
use std::io::Read;
use std::{io, str};

/// 112,000 times the code of `0`, which is five zeros, in 70,000 bytes.
static ZEROS: [u8; 70_000] = [0; 70_000];

fn main(rt: HostRuntime) -> io::Result<()> {
    let mut input = [0; 64];
    let len = rt.stdin().read(&mut input)?;
    let call = str::from_utf8(&input[..len]).unwrap_or("").trim_end();
    match call_of(call) {
        Some(call) => make(&rt, &call),
        None => print::line(&rt, "no such call"),
    }
}

/// Makes a call of `octets`.
fn make<R: Print + AllocGlobal>(rt: &R, call: &Call) -> io::Result<()> {
    match *call {
        Call::Decode(bytes) => decodes::whole(rt, bytes),
        Call::DecodeLong => decodes::long(rt, &ZEROS),
        Call::DecodeWithin(bytes, most) => decodes::under_limit(rt, bytes, most),
        Call::DecodeCounted(bytes, most) => decodes::with_steps(rt, bytes, most),
        Call::DecodeTwo(first, second) => decodes::two(rt, first, second),
        Call::EncodeAndDecode(most) => decodes::after_encode(rt, most),
        Call::ToVec(passed) => copies::of_reader(rt, passed),
        Call::ToVecMut(passed) => copies::of_writer(rt, passed),
        Call::ToVecLong => long::of_reader(rt, &ZEROS),
        Call::ToVecMutLong => long::of_writer(rt),
        Call::PieceSink(bytes, pieces) => sinks::pieces(rt, bytes, pieces),
        _ => make_other(rt, call),
    }
}

/// Makes a call of the crates above `octets`.
fn make_other<R: Print + AllocGlobal>(rt: &R, call: &Call) -> io::Result<()> {
    match *call {
        Call::ListOfFour => lists::four(rt),
        Call::ListOfTen => lists::ten(rt),
        Call::ListOfNone => lists::none(rt),
        Call::ListShort => lists::short(rt),
        Call::ListLong => long::replies(rt),
        Call::Replies => lists::replies_alone(rt),
        Call::GetString(bytes, most) => literals::read(rt, bytes, most),
        Call::GetStrings(bytes, most) => literals::read_all(rt, bytes, most),
        Call::GetStringLong => long::plain(rt),
        Call::GetTextLong => long::text(rt),
        Call::GetStringsLong => long::list(rt),
        Call::PutString(value) => sinks::literal::<false, R>(rt, value),
        Call::PutLower(value) => sinks::literal::<true, R>(rt, value),
        Call::Records(bytes) => uses::records(rt, bytes),
        Call::Edges(bytes, n) => uses::edges(rt, bytes, n),
        Call::HeaderField(bytes, most) => uses::field(rt, bytes, most),
        Call::Text(value) => uses::text(rt, value),
        Call::GrowingSink(first, second, third) => uses::sink(rt, first, second, third),
        _ => Ok(()),
    }
}
