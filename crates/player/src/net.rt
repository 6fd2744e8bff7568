// What every question about a route starts with: the plan's sides and the ends.
use script::{Script, ScriptFault};

#[derive(Clone, Copy)]
pub struct Net {
    pub width: u16,
    pub height: u16,
    pub source: u16,
    pub sink: u16,
}

impl Net {
    // W H A B
    pub fn read(script: &mut Script) -> Result<Net, ScriptFault> {
        Ok(Net {
            width: script.number()?,
            height: script.number()?,
            source: script.number()?,
            sink: script.number()?,
        })
    }
}
