// A search that is written another way than the calls: plain sums over words and tuples, one after the other, and what they say
// of the rows that a call fills.
#![tactic(auto)]

pub mod bound;
pub mod cells;
pub mod chance;
pub mod drawn;
pub mod edges;
pub mod held;
pub mod pieces;
pub mod plain;
pub mod rows;
pub mod sheet;
pub mod spelled;
pub mod tried;
