//! A `for` over the iterator of records.
ghost use Rattle.std.specs.Prelude.{[], IfOk, OnErr};
ghost use Rattle.octets.specs.Cursor.{rest};
ghost use Rattle.reports.specs.Counted.{AreRecords, EndInRecord};

use crate::Records;
use octets::{Octets, Result};

/// Counts records up to the end of the buffer.
#[tactic(auto, using(crate::specs::Counted::none, crate::specs::Counted::more), unfolding(crate::specs::Counted::EndInRecord))]
pub fn count_all(cursor: Octets<'_>) -> Result<u64>
    ensures count { IfOk result (λ n. AreRecords (rest cursor.entry) n []) }
    ensures refused { OnErr result (EndInRecord (rest cursor.entry)) }
{
    let _cap = cursor.cap();
    let mut count = 0;
    for one in Records::of(cursor) {
        one?;
        count += 1;
    }
    Ok(count)
}
