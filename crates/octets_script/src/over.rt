//! Calls that lend a range of the buffer for writing. Each writes bytes into the range.
//!
//! Each function makes one call that lends, and writes over what it lent. After a call that lends
//! inside a `Result`, a proof that the checker finds by itself knows nothing of the cursor. So the
//! loan begins and ends in a function with a hand-written proof, whose contract says what the
//! buffer contains. The commands in `perform` call these functions, and need no such proof.

pub(crate) mod halves;
pub(crate) mod slices;
pub(crate) mod views;
