//! Conversions between words and bytes in network order.
ghost use Rattle.std.specs.Prelude.{◌≡◌, length};
ghost use Rattle.std.specs.Int.{to_be_bytes, w32, w64};

/// Returns the bytes of a word, most significant byte first.
///
/// It compiles to one byte swap; `to_be_bytes` compiles to shuffles of single bytes.
#[inline]
#[tactic(auto, using(std::proofs::lemmas::Nat::le_bytes_8))]
pub(crate) fn word_bytes(word: u64) -> [u8; 8]
    ensures { result ≡ to_be_bytes w64 word }
{
    word.to_be().to_ne_bytes()
}

/// Returns eight bytes as a big-endian word. It compiles to one byte swap too.
#[inline]
pub(crate) fn word_of(bytes: &[u8]) -> u64
    requires { length bytes.now ≡ 8 }
    ensures { to_be_bytes w64 result ≡ bytes.now }
{
    match bytes.first_chunk::<8>() {
        Some(word) => u64::from_be(u64::from_ne_bytes(*word)),
        None => 0,
    }
}

/// Returns four bytes as a big-endian word.
#[inline]
pub(crate) fn half_of(bytes: &[u8]) -> u32
    requires { length bytes.now ≡ 4 }
    ensures { to_be_bytes w32 result ≡ bytes.now }
{
    match bytes.first_chunk::<4>() {
        Some(half) => u32::from_be(u32::from_ne_bytes(*half)),
        None => 0,
    }
}
