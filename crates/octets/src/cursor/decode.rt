//! Huffman decodes of all remaining bytes as one encoding, under a limit for the length of its
//! value (RFC 7541, section 5.2).
//!
//! Each contract says in two ways what a decode returns. The clauses `value` and `every` say it by
//! `IsAnswer`, which relates the bytes, the limit and the value. The clauses `text`, `one`, `limit`
//! and `given` follow from these two. They say it by `text v`, which is the encoding of v, and
//! serve a caller that knows which value was encoded. The clause `ends` says where a decode leaves
//! the offset, and how much memory it allocates.
ghost use Rattle.std.specs.Prelude.{◌≡◌, ◌+◌, ◌*◌, ◌<◌, ◌≤◌, ◌^◌, ◌++◌, length, take, drop};
ghost use Rattle.std.specs.Prelude.{ℕ, vec_len, List, IfOk, IfErr, IsOkAnd, OnOk, OnErr};
ghost use Rattle.octets_code.specs.Answers.{IsAnswer};
ghost use Rattle.octets_code.specs.Texts.{text, AreBytes, IsText};
ghost use Rattle.octets.specs.Reading.{IsReadBefore};
ghost use Rattle.octets.specs.Stops.{IsStoppedBy};
ghost use Rattle.octets.specs.Decodes.{OnMemory, UnlessMemory, EndsDecode};
ghost use Rattle.octets.specs.Decodes.{Gives, Counts, WhereAnswer, WhereText, no_limit};

use crate::cursor::read_only::Octets;
use crate::cursor::writable::OctetsMut;
use crate::error::{BufferTooShortError, DecodeError, IntoError};
use crate::huffman::decode::fault::first_fault;
use crate::huffman::decode::reading::{Refusal, read_text};
use crate::huffman::decode::reserve;
use crate::memory::Request;
use octets_code::Steps;
use std::alloc::Global;

impl<'a> Octets<'a> {
    ghost use Rattle.octets.specs.Calls.{Call};
    ghost use Rattle.octets.specs.Does.{Does, value_answer};
    ghost use Rattle.octets.specs.Cursor.{bytes, rest, Passes};
    ghost use Rattle.octets.specs.Decodes.{Refuses};

    /// Decodes the remaining bytes as one Huffman-encoded string, and returns its value.
    ///
    /// This is [`Octets::get_huffman_decoded_with_max_length`] with the limit `usize::MAX`, which
    /// no value exceeds.
    ///
    /// ```
    /// let mut cursor = Octets::with_slice(&[0x18, 0xff]);
    /// assert_eq!(&*cursor.get_huffman_decoded(alloc)?, b"aa".as_slice());
    /// ```
    #[inline(always)]
    pub fn get_huffman_decoded(&mut self, alloc: Global) -> Result<Vec<u8>, DecodeError>
        // The result is `Ok` if and only if the remaining bytes are the encoding of a value, unless
        // an allocation failed.
        ensures value { IfOk result (λ v. IsAnswer (rest self.old) no_limit v.items) }
        ensures every { (v : List ℕ) → AreBytes v → IsText v (rest self.old) → Gives result v }
        ensures ends { EndsDecode self.old self.new no_limit result }

        // The same by `text`.
        ensures text { IfOk result (λ v. rest self.old ≡ text v.items) }
        ensures one { WhereText (rest self.old) (λ v. IfOk result (λ w. w.items ≡ v)) }
        ensures given { WhereText (rest self.old) (λ v. Gives result v) }

        // The value has at most two bytes for each byte that remained, and memory is allocated only
        // if a byte remained.
        ensures small { IfOk result (λ v. vec_len v ≤ 2 * length (rest self.old)) }
        ensures reserved { OnMemory result (0 < length (rest self.old)) }
    {
        self.get_huffman_decoded_counted(alloc, usize::MAX, &mut Steps::new())
    }

    /// Decodes the remaining bytes as one Huffman-encoded string, and returns its value if that has
    /// at most `max_len` bytes.
    ///
    /// All bytes to the end of the buffer are one encoding: codes, and then fewer than eight one
    /// bits as padding (RFC 7541, section 5.2). If they aren't the encoding of a value within the
    /// limit, the call fails with `Short`. The offset is then after the byte in which EOS, or the
    /// first symbol beyond the limit, ends; EOS is the symbol 256, which no encoding may contain.
    /// If there is no such symbol, the offset is at the end of the buffer. If the allocation for
    /// the value fails, the call fails with `Memory` before it reads a byte.
    ///
    /// ```
    /// let mut cursor = Octets::with_slice(&[0x18, 0xff]);
    /// assert!(cursor.get_huffman_decoded_with_max_length(alloc, 1).is_err());
    /// assert_eq!(cursor.off(), 2);
    /// ```
    #[inline(always)]
    #[tactic(auto, unfolding(crate::specs::Does::Does))]
    pub fn get_huffman_decoded_with_max_length(
        &mut self,
        alloc: Global,
        max_len: usize,
    ) -> Result<Vec<u8>, DecodeError>
        // The result is `Ok` if and only if the remaining bytes are the encoding of a value within
        // the limit, unless an allocation failed.
        ensures value { IfOk result (λ v. IsAnswer (rest self.old) max_len v.items) }
        ensures every { WhereAnswer (rest self.old) max_len (λ v. Gives result v) }
        ensures ends { EndsDecode self.old self.new max_len result }

        // The same by `text`.
        ensures text { IfOk result (λ v. rest self.old ≡ text v.items) }
        ensures one { WhereText (rest self.old) (λ v. IfOk result (λ w. w.items ≡ v)) }
        ensures limit { WhereText (rest self.old) (λ v. IfOk result (λ _. length v ≤ max_len)) }
        ensures given { WhereText (rest self.old) (λ v. length v ≤ max_len → Gives result v) }
        ensures performs { UnlessMemory result
            (Does (Call.Decode max_len) self.old (value_answer result) self.new) }
    {
        self.get_huffman_decoded_counted(alloc, max_len, &mut Steps::new())
    }

    /// Decodes as [`Octets::get_huffman_decoded_with_max_length`] does, and counts steps.
    ///
    /// The call adds to `steps` the number of steps that the automaton of `octets_code` takes over
    /// these bytes, four bits in each step: two for each remaining byte. If EOS or a symbol beyond
    /// the limit ends the decode early, it counts only up to the 4 bits in which that symbol ends.
    /// Most codes are read by lookup tables, without the automaton: their steps are added by
    /// [`Steps::spare`]. `steps + 2 * cap()` must be below 2 to the power 128.
    ///
    /// ```
    /// let mut cursor = Octets::with_slice(&[0x18, 0xff]);
    /// let mut steps = octets_code::Steps::new();
    /// cursor.get_huffman_decoded_counted(alloc, 9, &mut steps)?;
    /// assert_eq!(steps.count(), 4);
    /// ```
    // This function is inlined so that the two calls above needn't count. They are inlined so that
    // short encodings are decoded fast.
    #[inline(always)]
    pub fn get_huffman_decoded_counted(
        &mut self,
        alloc: Global,
        max_len: usize,
        steps: &mut Steps,
    ) -> Result<Vec<u8>, DecodeError>
        requires room { steps.old + 2 * length (rest self.old) < 2 ^ 128 }

        // The result is `Ok` if and only if the remaining bytes are the encoding of a value within
        // the limit, unless an allocation failed.
        ensures value { IfOk result (λ v. IsAnswer (rest self.old) max_len v.items) }
        ensures every { WhereAnswer (rest self.old) max_len (λ v. Gives result v) }
        ensures ends { EndsDecode self.old self.new max_len result }

        // The same by `text`.
        ensures text { IfOk result (λ v. rest self.old ≡ text v.items) }
        ensures one { WhereText (rest self.old) (λ v. IfOk result (λ w. w.items ≡ v)) }
        ensures limit { WhereText (rest self.old) (λ v. IfOk result (λ _. length v ≤ max_len)) }
        ensures given { WhereText (rest self.old) (λ v. length v ≤ max_len → Gives result v) }

        // How many steps were counted.
        ensures counted { UnlessMemory result (Counts (rest self.old) max_len steps.old steps.new) }
        ensures uncounted { OnMemory result (steps.new ≡ steps.old) }
        ensures two_each { steps.new ≤ steps.old + 2 * length (rest self.old) }
    {
        self.decode(Request::to(alloc), max_len, steps)
    }

    /// Decodes as [`Octets::get_huffman_decoded_counted`] does, with one request for memory. The
    /// other clauses of that call follow from these.
    #[inline(always)]
    fn decode(
        &mut self,
        request: Request,
        max_len: usize,
        steps: &mut Steps,
    ) -> Result<Vec<u8>, DecodeError>
        requires room { steps.old + 2 * length (rest self.old) < 2 ^ 128 }
        ensures value { IfOk result (λ v. IsAnswer (rest self.old) max_len v.items) }
        ensures every { WhereAnswer (rest self.old) max_len (λ v. Gives result v) }
        ensures ends { EndsDecode self.old self.new max_len result }
        ensures counted { UnlessMemory result (Counts (rest self.old) max_len steps.old steps.new) }
        ensures uncounted { OnMemory result (steps.new ≡ steps.old) }
    {
        let text = self.unread();
        let mut value = reserve(request, text.len(), max_len)?;
        match read_text(text, &mut value, max_len, steps) {
            Ok(()) => {
                self.advance(text.len());
                Ok(value)
            }
            Err(Refusal { passed }) => {
                self.advance(passed);
                Err(DecodeError::Short(BufferTooShortError))
            }
        }
    }

    /// Decodes the bytes that remain as one Huffman-encoded string into the first bytes of `out`,
    /// advances the offset to the end, and returns how many bytes of `out` it wrote. It allocates
    /// nothing.
    ///
    /// It fails with [`IntoError::NoRoom`] if the value is longer than `out`, and with
    /// [`IntoError::NotText`] if the bytes aren't a Huffman-encoded string. Then `out` begins with
    /// the bytes that were decoded before the error, and the offset is after the byte at which the
    /// decoder found the error.
    ///
    /// ```
    /// let mut cursor = Octets::with_slice(&[0x18, 0xff]);
    /// let mut out = [0; 4];
    /// assert_eq!(cursor.get_huffman_decoded_into(&mut out), Ok(2));
    /// assert_eq!(out, [97, 97, 0, 0]);
    /// ```
    // It is inlined so that neither the cursor nor the result is stored in memory.
    #[inline(always)]
    pub fn get_huffman_decoded_into(&mut self, out: &mut [u8]) -> Result<usize, IntoError>
        // The result is `Ok` if and only if the remaining bytes are the encoding of a value that
        // fits into `out`.
        ensures value { IfOk result (λ n. (v : List ℕ) × IsAnswer (rest self.old) (length out.old) v
            × (length v ≡ n) × (out.new ≡ v ++ drop n out.old)) }
        ensures every { WhereAnswer (rest self.old) (length out.old)
            (λ v. IsOkAnd result (λ n. (n ≡ length v) × (take n out.new ≡ v))) }
        ensures shows { IfOk result
            (λ n. IsAnswer (rest self.old) (length out.old) (take n out.new)) }
        ensures few { IfOk result (λ n. n ≤ length out.old) }
        ensures behind { IfOk result (λ n. drop n out.new ≡ drop n out.old) }

        // The same by `text`.
        ensures text { IfOk result (λ n. rest self.old ≡ text (take n out.new)) }
        ensures one { WhereText (rest self.old)
            (λ v. IfOk result (λ n. (n ≡ length v) × (take n out.new ≡ v))) }
        ensures given { WhereText (rest self.old)
            (λ v. length v ≤ length out.old → IsOkAnd result (λ n. n ≡ length v)) }

        // Where the offset is.
        ensures passed { OnOk result (Passes self.old self.new (length (rest self.old))) }
        ensures refused { OnErr result (Refuses self.old self.new (length out.old)) }
        ensures same_bytes { bytes self.new ≡ bytes self.old }

        // After an error `out` begins with the bytes that were decoded before EOS, before the byte
        // that doesn't fit, or before the bits that are no code. The rest of `out` is unchanged.
        ensures front { OnErr result ((v : List ℕ) × IsReadBefore v (rest self.old) (length out.old)
            × (length v ≤ length out.old) × (out.new ≡ v ++ drop (length v) out.old)) }

        // Which failure it was: the bytes are no Huffman encoding, or a byte doesn't fit.
        ensures fault { IfErr result (λ e. (v : List ℕ)
            × IsReadBefore v (rest self.old) (length out.old)
            × IsStoppedBy e v (rest self.old) (length out.old)
            × (out.new ≡ v ++ drop (length v) out.old)) }
    {
        let text = self.unread();
        let max_len = out.len();
        let mut value = OctetsMut::with_slice(out);
        match read_text(text, &mut value, max_len, &mut Steps::new()) {
            Ok(()) => {
                self.advance(text.len());
                Ok(value.off())
            }
            Err(Refusal { passed }) => {
                self.advance(passed);
                let written = value.off();
                Err(first_fault(text, &out[..written], max_len))
            }
        }
    }
}
