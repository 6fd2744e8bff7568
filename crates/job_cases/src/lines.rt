// A line of a case, read byte by byte.
use std::io::{Result, Write};
use streams::write_text;

#[derive(Clone, Copy)]
pub enum Line {
    // The colon has not passed.
    Label,
    Job {
        // how many bytes of the job have ended
        bytes: usize,
        // the number that has begun
        number: Option<u16>,
    },
}

impl Line {
    pub const START: Line = Line::Label;

    // How many bytes the job has.
    pub fn bytes(self) -> usize {
        match self {
            Line::Label => 0,
            Line::Job { bytes, .. } => bytes,
        }
    }

    // The line after a byte more. The label is written as it comes, with a newline after its colon; a number that has ended is the job's next byte.
    pub fn next<W: Write>(self, out: &mut W, byte: u8, job: &mut [u8]) -> Result<Line> {
        match self {
            Line::Label if byte == b':' => {
                write_text(out, b":\n")?;
                Ok(Line::Job {
                    bytes: 0,
                    number: None,
                })
            }
            Line::Label => {
                write_text(out, &[byte])?;
                Ok(Line::Label)
            }
            Line::Job { bytes, number } if b'0' <= byte => {
                let value = number.unwrap_or(0) % 1000 * 10 + u16::from(byte % 16);
                Ok(Line::Job {
                    bytes,
                    number: Some(value),
                })
            }
            Line::Job {
                bytes,
                number: Some(value),
            } if bytes < job.len() => {
                job[bytes] = (value % 256) as u8;
                Ok(Line::Job {
                    bytes: bytes + 1,
                    number: None,
                })
            }
            line => Ok(line),
        }
    }
}
