// Runs document 01's R1 to R13, R1 and R3 with skew 1 (document 02, C-16), and each refusal 1 to 8, through the route call, and prints a line of each.
#![tactic(auto)]

mod call;

use answers::{BufferList, BufferRecord, RegisterRecord, Tables, WireRecord};
use call::run;
use route_call::Call;
use std::io::{Result, Write};
use streams::fail;

const WIRE: WireRecord = WireRecord {
    resistance: 2,
    load: 3,
};

const REGISTER: RegisterRecord = RegisterRecord {
    resistance: 1,
    delay: 2,
    load: 1,
    setup: 1,
};

// Document 01's buffer B.
const BUFFER: BufferRecord = BufferRecord {
    resistance: 1,
    delay: 1,
    load: 1,
};

const TABLES: Tables = Tables {
    register: REGISTER,
    horizontal: WIRE,
    vertical: WIRE,
    period: 26,
    skew: 0,
    limit: 63,
};

// Document 01's strip, 3 by 1, from cell 0 to cell 2.
const STRIP: Call = Call {
    width: 3,
    height: 1,
    tables: TABLES,
    list: BufferList {
        n: 0,
        items: [BUFFER; 6],
    },
    source: 0,
    sink: 2,
    scratch: 1600,
    visits: 16,
};

// The strip's marks.
const MARKS: [u8; 3] = [0, 2, 0];

// The strip with this period, limit and this many of its buffers B.
fn case(period: u16, limit: u16, buffers: usize) -> Call {
    Call {
        tables: Tables {
            period,
            limit,
            ..TABLES
        },
        list: BufferList {
            n: buffers,
            ..STRIP.list
        },
        ..STRIP
    }
}

// The strip with these marks.
fn marked<W: Write>(
    out: &mut W,
    label: &[u8],
    plan: &[u8],
    period: u16,
    limit: u16,
    buffers: usize,
) -> Result<()> {
    run(out, label, plan, case(period, limit, buffers))
}

fn strip<W: Write>(
    out: &mut W,
    label: &[u8],
    period: u16,
    limit: u16,
    buffers: usize,
) -> Result<()> {
    marked(out, label, &MARKS, period, limit, buffers)
}

fn r1_to_r7<W: Write>(out: &mut W) -> Result<()> {
    strip(out, b"R1", 26, 63, 0)?;
    strip(out, b"R2", 25, 63, 0)?;
    strip(out, b"R3", 12, 63, 0)?;
    strip(out, b"R4", 11, 63, 0)?;
    strip(out, b"R5", 26, 7, 0)?;
    strip(out, b"R6", 26, 6, 0)?;
    strip(out, b"R7", 26, 3, 0)
}

fn r8_to_r12<W: Write>(out: &mut W) -> Result<()> {
    strip(out, b"R8", 22, 63, 1)?;
    strip(out, b"R9", 21, 63, 1)?;
    strip(out, b"R10", 26, 63, 1)?;
    marked(out, b"R11", &[0, 1, 0], 25, 63, 0)?;
    marked(out, b"R12", &[0, 3, 0], 22, 63, 1)
}

fn r13<W: Write>(out: &mut W) -> Result<()> {
    let vertical = WireRecord {
        resistance: 0,
        load: 0,
    };
    let tables = Tables {
        vertical,
        period: 12,
        ..TABLES
    };
    let c = Call {
        height: 2,
        tables,
        ..STRIP
    };
    run(out, b"R13", &[0, 1, 0, 0, 2, 0], c)
}

// The strip with these tables.
fn timed<W: Write>(out: &mut W, label: &[u8], tables: Tables) -> Result<()> {
    run(out, label, &MARKS, Call { tables, ..STRIP })
}

// The strip with this period and this skew.
fn skewed<W: Write>(out: &mut W, label: &[u8], period: u16, skew: u16) -> Result<()> {
    let tables = Tables {
        period,
        skew,
        ..TABLES
    };
    timed(out, label, tables)
}

fn with_skew<W: Write>(out: &mut W) -> Result<()> {
    skewed(out, b"R1, skew 1", 26, 1)?;
    skewed(out, b"R3, skew 1", 12, 1)?;
    skewed(out, b"the longest skew and period", 30_000, 30_000)?;
    skewed(out, b"a period more than the skew", 30_000, 29_999)
}

// A plan that is said to be of this size, with the strip's tables.
fn sized<W: Write>(out: &mut W, label: &[u8], plan: &[u8], width: u16, height: u16) -> Result<()> {
    let c = Call {
        width,
        height,
        ..STRIP
    };
    run(out, label, plan, c)
}

fn size_refusals<W: Write>(out: &mut W) -> Result<()> {
    let wide = [0u8; 33];
    sized(out, b"width 0", &MARKS, 0, 1)?;
    sized(out, b"height 0", &MARKS, 3, 0)?;
    sized(out, b"width 33", &wide, 33, 1)?;
    sized(out, b"height 33", &wide, 1, 33)?;
    sized(out, b"short plan", &MARKS, 4, 1)?;
    sized(out, b"long plan", &MARKS, 2, 1)
}

fn mark_refusals<W: Write>(out: &mut W) -> Result<()> {
    sized(out, b"mark 16", &[0, 16, 0], 3, 1)?;
    sized(out, b"cut in the last column", &[0, 2, 4], 3, 1)?;
    sized(out, b"cut in the last row", &[0, 8, 0], 3, 1)
}

fn register_fault<W: Write>(out: &mut W) -> Result<()> {
    let register = RegisterRecord {
        setup: 30001,
        ..REGISTER
    };
    timed(out, b"register", Tables { register, ..TABLES })
}

fn horizontal_fault<W: Write>(out: &mut W) -> Result<()> {
    let horizontal = WireRecord {
        resistance: 256,
        ..WIRE
    };
    timed(
        out,
        b"horizontal",
        Tables {
            horizontal,
            ..TABLES
        },
    )
}

fn vertical_fault<W: Write>(out: &mut W) -> Result<()> {
    let vertical = WireRecord { load: 64, ..WIRE };
    timed(out, b"vertical", Tables { vertical, ..TABLES })
}

fn buffer_fault<W: Write>(out: &mut W) -> Result<()> {
    let mut c = case(26, 63, 2);
    c.list.items[1].delay = 1001;
    run(out, b"buffer 2", &MARKS, c)
}

fn element_refusals<W: Write>(out: &mut W) -> Result<()> {
    strip(out, b"period 0", 0, 63, 0)?;
    strip(out, b"period 30001", 30001, 63, 0)?;
    skewed(out, b"skew 30001", 26, 30001)?;
    strip(out, b"limit 64", 26, 64, 0)?;
    horizontal_fault(out)?;
    vertical_fault(out)?;
    register_fault(out)?;
    strip(out, b"7 buffers", 26, 63, 7)?;
    buffer_fault(out)
}

// The strip with these ends and this many words lent.
fn lent<W: Write>(
    out: &mut W,
    label: &[u8],
    source: u16,
    sink: u16,
    scratch: usize,
    visits: usize,
) -> Result<()> {
    let c = Call {
        source,
        sink,
        scratch,
        visits,
        ..STRIP
    };
    run(out, label, &MARKS, c)
}

fn later_refusals<W: Write>(out: &mut W) -> Result<()> {
    lent(out, b"equal ends", 1, 1, 1600, 16)?;
    lent(out, b"source outside", 3, 2, 1600, 16)?;
    lent(out, b"sink outside", 0, 3, 1600, 16)?;
    lent(out, b"767 scratch words", 0, 2, 767, 16)?;
    lent(out, b"768 scratch words", 0, 2, 768, 16)?;
    marked(out, b"no route", &[4, 2, 0], 26, 63, 0)?;
    lent(out, b"5 visit words", 0, 2, 1600, 5)?;
    lent(out, b"6 visit words", 0, 2, 1600, 6)
}

fn all<W: Write>(out: &mut W) -> Result<()> {
    r1_to_r7(out)?;
    r8_to_r12(out)?;
    r13(out)?;
    with_skew(out)?;
    size_refusals(out)?;
    mark_refusals(out)?;
    element_refusals(out)?;
    later_refusals(out)
}

fn main(rt: HostRuntime) {
    if let Err(error) = all(&mut rt.stdout()) {
        fail(&mut rt.stderr(), b"route_cases: standard output", error);
    }
}
