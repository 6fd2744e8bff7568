// What outsiders lend for a route and what they are answered: raw records, refusals, the answer.
// The checks of tables (refusal 4) and ends (refusal 5). Document 01, "Elements" and "Calls and what they leave".
#![tactic(auto)]

mod answer;
mod buffers;
mod crossing;
mod ends;
mod explained;
mod records;
mod refusal;
mod tables;
mod verdicts;

pub use answer::{Answer, CrossingAnswer, CrossingFigures, Figures, RouteAnswer, RouteFigures};
pub use buffers::{BuffersRead, read_list};
pub use ends::ends_fault;
pub use explained::{Explained, Reason};
pub use records::{BufferList, BufferRecord, Crossing, RegisterRecord, Tables, WireRecord};
pub use refusal::{Fault, Numbered, Refusal};
pub use tables::{CrossingElements, check_crossing, check_tables};
pub use verdicts::{Comparison, Finding, Verdict, VisitFault, Which};
