// All that a board keeps of its tables: who derives whom, and the line managers, worked out with sets of roles in loops. The words of the
// rules over two tables stand in specs/, the theorems on them in proofs/. Knows sets of roles, and no board.
//
// Nothing is asked of tables; those that have no order get a fault and no values. All comes from one call, `work_out`: the views, which are
// down, what each role derives, and up, what derives it; and the line managers. Tables are lent, since a copy of one costs as much as
// working out a small board.
#![tactic(auto)]

mod managers;
pub mod shape;
pub mod tables;
mod views;
pub mod working;
