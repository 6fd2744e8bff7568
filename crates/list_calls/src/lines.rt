// The lines that are printed. Each function says why not all was written.
use answers::{Comparison, Finding, Numbered, Verdict, VisitFault, Which};
use report::{write_call, write_element, write_slack, write_words};
use std::io::{Result, Write};
use streams::{write_number, write_text};

fn write_visit_fault<W: Write>(out: &mut W, fault: VisitFault) -> Result<()> {
    match fault {
        VisitFault::Cell => write_text(out, b" cell"),
        VisitFault::Wire => write_text(out, b" wire"),
        VisitFault::Site => write_text(out, b" site"),
        VisitFault::Load => write_text(out, b" load"),
        VisitFault::Period(slack) => {
            write_text(out, b" period")?;
            write_slack(out, slack)
        }
    }
}

fn write_judged<W: Write>(out: &mut W, verdict: Verdict) -> Result<()> {
    match verdict {
        Ok(Finding::Accepted(slack)) => {
            write_text(out, b" accepted")?;
            write_slack(out, slack)
        }
        Ok(Finding::AtFault(i, fault)) => {
            write_text(out, b" visit")?;
            write_number(out, i as u64)?;
            write_visit_fault(out, fault)
        }
        Err(r) => write_element(out, r),
    }
}

// The line of a verdict.
pub fn write_verdict<W: Write>(out: &mut W, verdict: Verdict, depth: u16) -> Result<()> {
    write_call(out, b"judge", verdict.number(), depth)?;
    write_judged(out, verdict)?;
    write_text(out, b"\n")
}

fn write_which<W: Write>(out: &mut W, which: Comparison) -> Result<()> {
    match which {
        Ok(Which::First) => write_text(out, b" first"),
        Ok(Which::Second) => write_text(out, b" second"),
        Err(r) => write_element(out, r),
    }
}

// The line of a comparison, with the words handed back.
pub fn write_better<W: Write>(
    out: &mut W,
    which: Comparison,
    depth: u16,
    handed: &[u16],
) -> Result<()> {
    write_call(out, b"better", which.number(), depth)?;
    write_which(out, which)?;
    write_text(out, b" words")?;
    write_words(out, handed)?;
    write_text(out, b"\n")
}
