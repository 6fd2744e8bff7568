// What is wrong with a script.

#[derive(Clone, Copy, Debug, PartialEq, Eq)]
pub enum ScriptFault {
    // a number is missing
    NoNumber,
    // a number is too large
    TooLarge,
    // a word is no command
    Unknown,
}
