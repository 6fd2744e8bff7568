// What ends a play early.
use script::ScriptFault;
use std::io;

#[derive(Drop)]
pub enum PlayError {
    // The script is wrong.
    Script(ScriptFault),
    // A line was not written.
    Output(io::Error),
}

impl From<ScriptFault> for PlayError {
    fn from(fault: ScriptFault) -> PlayError {
        PlayError::Script(fault)
    }
}

impl From<io::Error> for PlayError {
    fn from(error: io::Error) -> PlayError {
        PlayError::Output(error)
    }
}
