// The planner's calls for outsiders. Nothing is required of what they lend; every answer is stated for every input.
#![tactic(auto)]

pub use answers::{
    Answer, BufferRecord, Comparison, Crossing, CrossingAnswer, CrossingFigures, Explained, Fault,
    Figures, Finding, Numbered, Reason, Refusal, RegisterRecord, Tables, Verdict, VisitFault,
    Which, WireRecord,
};
pub use judging::{better, compare, judge};
pub use routing::{explain, route, route_crossing};
pub use session::{Session, SessionRefusal, SessionStep, session_number};
pub use session_calls::{open, set_marks, undo};
