// A list of words in a script.
use script::{Script, ScriptFault};

// The most words of a list.
pub const LIST_WORDS: usize = 32768;

// N W1 .. WN: the first words become the list.
pub fn read_words<'a>(script: &mut Script, words: &'a mut [u16]) -> Result<&'a [u16], ScriptFault> {
    let n = script.number_to(LIST_WORDS as u32)? as usize;
    let count = n.min(words.len());
    let list = &mut words[..count];
    for word in list.iter_mut() {
        *word = script.number()?;
    }
    Ok(list)
}
