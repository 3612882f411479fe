//! The table that `tools/tables.py` writes from the codes of RFC 7541, Appendix B.
//! `proofs/HalvesFit.antt` checks it against the paths of `octets_code`.

pub(crate) mod halves;
