//! The stores of decoded bytes: a vector with enough capacity, or a cursor over the caller's bytes
//! (`cursor/writable/cursor_store.rt`).
ghost use Rattle.std.specs.Prelude.{◌≡◌, ℕ, ◌+◌, ◌<◌, ◌≤◌, ◌∷◌, ◌++◌};
ghost use Rattle.std.specs.Prelude.{List, [], length, take, vec_capacity};
ghost use Rattle.octets.specs.Windows.{low_bytes};

/// A store to which a decode adds bytes.
pub(crate) trait Store {
    /// The bytes that were added.
    ghost held: { Self → List ℕ };

    /// The number of bytes that it can hold.
    ghost room: { Self → ℕ };

    /// The second store is the first one with exactly these bytes added.
    ghost adds: { Self → Self → List ℕ → Type 0 };

    /// Returns the number of bytes that were added.
    fn count(&self) -> usize
        ensures { result ≡ length (held self.now) };

    /// Adds one byte.
    fn put(&mut self, byte: u8)
        requires { length (held self.old) < room self.old }
        ensures { adds self.old self.new (byte ∷ []) };

    /// Adds the `count` least significant bytes of `word`, least significant byte first.
    fn put_word(&mut self, word: u64, count: usize)
        requires few { count ≤ 8 }
        requires room { length (held self.old) + count ≤ room self.old }
        ensures { adds self.old self.new (low_bytes count word) };

    /// Adds the first `count` of `bytes`.
    fn put_first(&mut self, bytes: &[u8; 32], count: usize)
        requires few { count ≤ 32 }
        requires room { length (held self.old) + count ≤ room self.old }
        ensures { adds self.old self.new (take count bytes.now) };

    ghost adds_nothing: { (s : Self) → adds s s [] };

    ghost adds_more: { (a b c : Self) (u w : List ℕ) → adds a b u → adds b c w
        → adds a c (u ++ w) };

    ghost held_after: { (a b : Self) (w : List ℕ) → adds a b w → held b ≡ held a ++ w };

    ghost room_after: { (a b : Self) (w : List ℕ) → adds a b w → room b ≡ room a };
}

impl Store for Vec<u8> {
    ghost use Rattle.octets.specs.Stores.{Added, adds_nothing, adds_more};

    ghost held = { λ v. v.items };

    ghost room = { vec_capacity };

    ghost adds = { Added };

    ghost adds_nothing = { adds_nothing };

    ghost adds_more = { adds_more };

    ghost held_after = { λ a b w h. h.0 };

    ghost room_after = { λ a b w h. h.1 };

    fn count(&self) -> usize {
        self.len()
    }

    fn put(&mut self, byte: u8) {
        self.push_reserved(byte);
    }

    /// If the capacity is large enough, this pushes eight bytes, and then removes those after the
    /// first `count`.
    #[inline(always)]
    #[tactic(auto, using(crate::proofs::lemmas::Groups::cut_word))]
    fn put_word(&mut self, word: u64, count: usize) {
        let len = self.len() + count;
        if self.capacity() - self.len() >= 8 {
            push_low(self, word, 8);
            self.truncate(len);
        } else {
            push_low(self, word, count);
        }
    }

    /// If the capacity is large enough, this pushes eight bytes, as `put_word` does.
    #[inline(always)]
    fn put_first(&mut self, bytes: &[u8; 32], count: usize) {
        let len = self.len() + count;
        if count <= 8 && self.capacity() - self.len() >= 8 {
            push_all(self, &bytes[..8]);
            self.truncate(len);
        } else {
            push_all(self, &bytes[..count]);
        }
    }
}

/// Pushes the `count` least significant bytes of `word`, least significant byte first.
#[inline(always)]
fn push_low(value: &mut Vec<u8>, word: u64, count: usize)
    requires room { length value.old.items + count ≤ vec_capacity value.old }
    ensures items { value.new.items ≡ value.old.items ++ low_bytes count word }
    ensures capacity { vec_capacity value.new ≡ vec_capacity value.old }
{
    let mut rest = word;
    for _ in 0..count {
        value.push_reserved((rest & 0xff) as u8);
        rest = rest >> 8;
    }
}

/// Pushes all of `bytes`.
#[inline(always)]
fn push_all(value: &mut Vec<u8>, bytes: &[u8])
    requires room { length value.old.items + length bytes.now ≤ vec_capacity value.old }
    ensures items { value.new.items ≡ value.old.items ++ bytes.now }
    ensures capacity { vec_capacity value.new ≡ vec_capacity value.old }
{
    for byte in bytes {
        value.push_reserved(*byte);
    }
}
