//! Laws of pieces. Each function does nothing. Its contract is the law, whose statement is in
//! `specs/Laws.antt`.

ghost use Rattle.octets_pieces.specs.Laws.{NothingIsRead, ReadsJoin, ReadIsCut, ReadIsOne};
ghost use Rattle.octets_pieces.specs.Laws.{EndIsText, FailureIsOne, AnswerIsOne, NeverBoth};
ghost use Rattle.octets_pieces.specs.Laws.{EndFails, RoomFails, RestFails, DecodeIsOne, StopIsOne};

/// However the bytes are cut into pieces, and wherever a decode stops for lack of space, what is
/// read of the pieces is what is read of the joined bytes. If 0 to 7 one bits are left, the bytes
/// that were read are the encoding of those that were written.
pub fn reads_join()
    ensures start { NothingIsRead }
    ensures join { ReadsJoin }
    ensures cut { ReadIsCut }
    ensures one { ReadIsOne }
    ensures end { EndIsText }
{}

/// Where a decode of pieces stops, one decode of the joined bytes fails.
pub fn stops_fail()
    ensures end { EndFails }
    ensures room { RoomFails }
    ensures rest { RestFails }
{}

/// A decode of a piece has one result: its contract leaves nothing open.
pub fn one_decode()
    ensures result { DecodeIsOne }
    ensures stop { StopIsOne }
{}

/// The contract that `decode_pieces` and `decode_whole` share determines the result, so both return
/// the same: the value, or the error with its place, and what is left in the slice.
pub fn one_result()
    ensures failed { FailureIsOne }
    ensures value { AnswerIsOne }
    ensures apart { NeverBoth }
{}
