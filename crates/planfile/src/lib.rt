// The plan file: records of 16 bytes that name a firm's classes, weekends, books, bounds, quotes and limit.
// `read` hands out what a sound file describes, or says where a faulty one is wrong; `report` puts the answer into lines of text.
#![tactic(auto)]

mod fields;
mod pen;
mod progress;
mod reader;
mod records;
mod refusal;
mod reporting;

pub use fields::Price;
pub use progress::FileKind;
pub use reader::{Bound, Counts, PlanFile, Quote, read};
pub use refusal::{Fault, Refusal};
pub use reporting::report;
