// A script is text: words and decimal numbers, apart by spaces and line ends. A `#` starts a comment, to the end of its line.
#![tactic(auto)]

mod fault;
mod reader;

pub use fault::ScriptFault;
pub use reader::Script;
