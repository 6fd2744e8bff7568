// The commands that only lend: plan, journal, scratch, tables, clocks and buffers, and what is put into the session.
use crate::player::{BUFFER, Player, SCRATCH_WORDS};
use answers::{BufferList, BufferRecord, Crossing, RegisterRecord, Tables, WireRecord};
use script::{Script, ScriptFault};

// R K C S
fn read_register(script: &mut Script) -> Result<RegisterRecord, ScriptFault> {
    Ok(RegisterRecord {
        resistance: script.number()?,
        delay: script.number()?,
        load: script.number()?,
        setup: script.number()?,
    })
}

// R C
fn read_wire(script: &mut Script) -> Result<WireRecord, ScriptFault> {
    Ok(WireRecord {
        resistance: script.number()?,
        load: script.number()?,
    })
}

// R K C
fn read_buffer(script: &mut Script) -> Result<BufferRecord, ScriptFault> {
    Ok(BufferRecord {
        resistance: script.number()?,
        delay: script.number()?,
        load: script.number()?,
    })
}

impl Player {
    // The lending command that a word names.
    pub fn lend(
        &mut self,
        word: &[u8],
        script: &mut Script,
        plan: &mut [u8],
        journal: &mut [u8],
    ) -> Result<(), ScriptFault> {
        match word {
            b"plan" => self.set_plan(script, plan),
            b"tables" => self.set_tables(script),
            b"clocks" => self.set_clocks(script),
            b"buffers" => self.set_buffers(script),
            b"journal" => self.set_journal(script),
            b"scratch" => self.set_scratch(script),
            b"depth" => self.set_depth(script),
            b"byte" => set_byte(script, journal),
            _ => Err(ScriptFault::Unknown),
        }
    }

    // plan N M1 .. MN
    fn set_plan(&mut self, script: &mut Script, plan: &mut [u8]) -> Result<(), ScriptFault> {
        let n = script.number_to(1100)? as usize;
        let bytes = n.min(plan.len());
        for marks in &mut plan[..bytes] {
            *marks = script.number()?;
        }
        self.plan = bytes;
        Ok(())
    }

    // journal N
    fn set_journal(&mut self, script: &mut Script) -> Result<(), ScriptFault> {
        self.journal = script.number_to(1100)? as usize;
        Ok(())
    }

    // scratch N
    fn set_scratch(&mut self, script: &mut Script) -> Result<(), ScriptFault> {
        self.scratch = script.number_to(SCRATCH_WORDS as u32)? as usize;
        Ok(())
    }

    // depth D
    fn set_depth(&mut self, script: &mut Script) -> Result<(), ScriptFault> {
        self.session.depth = script.number()?;
        Ok(())
    }

    // tables R K C S R C R C T SK L
    fn set_tables(&mut self, script: &mut Script) -> Result<(), ScriptFault> {
        self.tables = Tables {
            register: read_register(script)?,
            horizontal: read_wire(script)?,
            vertical: read_wire(script)?,
            period: script.number()?,
            skew: script.number()?,
            limit: script.number()?,
        };
        Ok(())
    }

    // clocks TS R K C S
    fn set_clocks(&mut self, script: &mut Script) -> Result<(), ScriptFault> {
        self.crossing = Crossing {
            period: script.number()?,
            fifo: read_register(script)?,
        };
        Ok(())
    }

    // buffers N R K C ..: the call is told how many there are, and the first six.
    fn set_buffers(&mut self, script: &mut Script) -> Result<(), ScriptFault> {
        let n = script.number_to(20)? as usize;
        let mut items = [BUFFER; 6];
        for i in 0..n {
            let buffer = read_buffer(script)?;
            if i < 6 {
                items[i] = buffer;
            }
        }
        self.list = BufferList { n, items };
        Ok(())
    }
}

// byte AT VALUE, if the journal has the place
fn set_byte(script: &mut Script, journal: &mut [u8]) -> Result<(), ScriptFault> {
    let at = script.number_to(1099)? as usize;
    let value = script.number()?;
    if at < journal.len() {
        journal[at] = value;
    }
    Ok(())
}
