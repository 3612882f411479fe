//! A definition of your own, which only the function that writes its bytes expands.
//!
//! A caller of `write_point` says `point x y` in its contract, and expands nothing.
ghost use Rattle.std.specs.Prelude.{◌↔◌, ◌≤◌, length, IsOk, IfOk};
ghost use Rattle.octets.specs.Cursor.{rest, Writes};
ghost use Rattle.octets_formats.specs.Points.{point};

use octets::{OctetsMut, Result};

/// Writes a point.
#[tactic(auto, unfolding(crate::specs::Points::point))]
pub fn write_point(cursor: &mut OctetsMut<'_>, x: u32, y: u32) -> Result<()>
    ensures fits { IsOk result ↔ (8 ≤ length (rest cursor.old)) }
    ensures writes { IfOk result (λ _. Writes cursor.old cursor.new (point x y)) }
{
    cursor.write_u32(x)?;
    cursor.write_u32(y)
}
