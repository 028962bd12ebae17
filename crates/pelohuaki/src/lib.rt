// The public calls and their types, under one roof. What their contracts promise together is in crate `promises`.
#![tactic(auto)]

pub use build::build;
pub use decide::decide;
pub use importing::answer::Import;
pub use importing::import;
pub use judge::judge;
pub use place::{Place, Step, next_record, open, peek_record};
pub use reading::{ReadPart, read, read_from};
pub use records::{body, record_at};
pub use scope::{Building, Decision, Limits, Question, Record, Refusal, Rule};
pub use words::{run, spell};
pub use writing::write;
