// What the type of tables tells.
ghost use Rattle.hierarchy.specs.Tables.{Shaped};

use crate::tables::Tables;

// Tables have the shape that soundness asks for: 64 rows in each table, and no set has a member above 63. The type says so of tables by
// value and not of those that are lent: where a promise needs it, a copy is handed here. Nothing is done, and compiled code has no trace
// of it.
pub fn shaped(t: Tables)
    ensures { Shaped t }
{}
