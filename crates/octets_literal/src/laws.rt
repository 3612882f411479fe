//! Laws of literals. The contract of each function is the law; the functions do nothing.
ghost use Rattle.octets_literal.specs.Laws.{AppendixIsRead, AppendixIsWritten, FrontIsOne};
ghost use Rattle.octets_literal.specs.Laws.{CanonIsLiteral, ShortestIsInteger, ShortestIsLeast};
ghost use Rattle.octets_literal.specs.Laws.{RefusalIsOne, RefusedIsNoLiteral, LiteralOrRefusal};

use octets_code::laws::answers_decided;

/// The integers of RFC 7541, Appendix C.1, are read and written as that appendix shows.
///
/// ```
/// // 1337 after three bits of something else is 1f 9a 0a.
/// octets_literal::laws::appendix_integers();
/// ```
#[tactic(auto, using(crate::proofs::Written::appendix))]
pub fn appendix_integers()
    ensures read { AppendixIsRead }
    ensures written { AppendixIsWritten }
{}

/// At most one prefix of a list of bytes is a literal, and it is a literal of one value.
///
/// ```
/// octets_literal::laws::literal_once();
/// let mut cursor = Octets::with_slice(&[2, 97, 98, 7]);
/// assert_eq!(&*get_string(alloc, &mut cursor, 9)?, b"ab".as_slice());
/// assert_eq!(cursor.off(), 3);
/// ```
#[tactic(auto, using(crate::proofs::OneLiteral::one_literal))]
pub fn literal_once()
    ensures { FrontIsOne }
{}

/// What is written for a value is a literal of the value, and its length is the shortest integer
/// (RFC 7541, section 5.1).
///
/// ```
/// octets_literal::laws::written_read_back();
/// let mut bytes = [0, 0, 0];
/// write_string::<false>(&mut OctetsMut::with_slice(&mut bytes), b"aa")?;
/// let read = get_string(alloc, &mut Octets::with_slice(&bytes), 2)?;
/// assert_eq!(&*read, b"aa".as_slice());
/// ```
#[tactic(auto, using(crate::proofs::Written::canon_literal))]
pub fn written_read_back()
    ensures literal { CanonIsLiteral }
    ensures integer { ShortestIsInteger }
    ensures shortest { ShortestIsLeast }
{}

/// Except for allocation failures, a read of some bytes fails with at most one error. If it fails
/// with one, the bytes begin with no literal of a value within the limit.
///
/// ```
/// octets_literal::laws::refused_once();
/// let read = get_string(alloc, &mut Octets::with_slice(&[2, 97]), 9);
/// assert_eq!(read.err(), Some(LiteralError::Short));
/// ```
#[tactic(auto, using(crate::proofs::Refusals::refusals))]
pub fn refused_once()
    ensures one { RefusalIsOne }
    ensures no_literal { RefusedIsNoLiteral }
{}

/// Either bytes begin with a literal of a value within the limit, or a read of them fails with an
/// error other than `OutOfMemory`.
///
/// ```
/// octets_literal::laws::each_decided();
/// assert!(get_string(alloc, &mut Octets::with_slice(&[0]), 9)?.is_empty());
/// assert!(get_string(alloc, &mut Octets::with_slice(&[1]), 9).is_err());
/// ```
pub fn each_decided()
    ensures { LiteralOrRefusal }
{
    answers_decided();
}
