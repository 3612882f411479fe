//! The calls with the greatest numbers that their contracts allow, over buffers that are just long
//! enough, and over buffers that are one byte shorter.

use octets::OctetsMut;
use octets_vectors::edges::{
    could_put_greatest, could_put_greatest_in_one, put_greatest, put_greatest_in_one,
    write_greatest, write_greatest_in_one,
};

#[test]
fn puts_the_greatest_where_it_fits(rt: HostRuntime) {
    let mut bytes = [0; 9];
    assert!(rt; !could_put_greatest(&mut OctetsMut::with_slice(&mut bytes[..7])));
    assert!(rt; bytes == [0; 9]);
    assert!(rt; could_put_greatest(&mut OctetsMut::with_slice(&mut bytes[..8])));
    assert!(rt; bytes == *b"\xff\xff\xff\xff\xff\xff\xff\xff\x00");
    assert!(rt; could_put_greatest_in_one(&mut OctetsMut::with_slice(&mut bytes[8..])));
    assert!(rt; bytes[8] == 0x3f);
    assert!(rt; !could_put_greatest_in_one(&mut OctetsMut::with_slice(&mut [])));
}

/// The greatest number and the greatest of one byte, over nine bytes.
static GREATEST: [u8; 9] = *b"\xff\xff\xff\xff\xff\xff\xff\xff\x3f";

#[test]
fn writes_the_greatest_numbers(rt: HostRuntime) {
    let mut bytes = [0; 9];
    let mut cursor = OctetsMut::with_slice(&mut bytes);
    assert!(rt; write_greatest(&mut cursor) == Ok(8));
    assert!(rt; write_greatest_in_one(&mut cursor).is_ok());
    assert!(rt; write_greatest_in_one(&mut cursor).is_err());
    assert!(rt; bytes == GREATEST);
}

/// Whether just these bytes were lent.
fn is_lent(lent: octets::Result<&mut [u8]>, bytes: &[u8]) -> bool {
    match lent {
        Ok(lent) => *lent == *bytes,
        Err(_) => false,
    }
}

#[test]
fn lends_the_greatest_numbers(rt: HostRuntime) {
    let mut bytes = [0; 9];
    let mut cursor = OctetsMut::with_slice(&mut bytes);
    assert!(rt; is_lent(put_greatest(&mut cursor), &[0xff; 8]));
    assert!(rt; put_greatest(&mut cursor).is_err());
    assert!(rt; is_lent(put_greatest_in_one(&mut cursor), &[0x3f]));
    assert!(rt; put_greatest_in_one(&mut cursor).is_err() && cursor.off() == 9);
    assert!(rt; bytes == GREATEST);
}

#[test]
fn refuses_the_greatest_where_it_does_not_fit(rt: HostRuntime) {
    let mut bytes = [0; 7];
    let mut cursor = OctetsMut::with_slice(&mut bytes);
    assert!(rt; put_greatest(&mut cursor).is_err() && bytes == [0; 7]);
}
