// A whole job, read in document 01's order; the first fault met decides.
ghost use Rattle.std.specs.Prelude.{◌≡◌, List, ℕ, ◌*◌, ◌≤◌, length, take};
ghost use Rattle.timing.specs.Ranges.{buffers_max};
ghost use Rattle.job.specs.Job.{cells_max, read_job, marks_from, tables_from, count_from, buffers_from, marks_of, reading_of};

use crate::fields::{TABLE_NUMBERS, copy_marks, tables_of};
use answers::Tables;
use numbers::{JobFault, read_number, read_series};
use plan::grid_fault;

// The program takes plans of at most this many cells.
const CELLS_MAX: usize = 128;

const MARKS_MAX: u16 = 15;

// The places of the source and the sink after the tables' numbers, and how many numbers that makes.
const SOURCE: usize = TABLE_NUMBERS;

const SINK: usize = TABLE_NUMBERS + 1;

const NUMBERS: usize = TABLE_NUMBERS + 2;

const BUFFERS_MAX: u16 = 6;

// What a job asks, but for the marks and the buffers, which stand in the words lent.
#[derive(Clone, Copy)]
pub struct Asked {
    pub width: u16,
    pub height: u16,
    pub tables: Tables,
    pub source: u16,
    pub sink: u16,
}

// The job: its marks go to the plan, its buffers' numbers to the words. The question comes with its count of buffers.
#[tactic(auto, unfolding(crate::specs::Job::reading_of, crate::specs::Job::read_job, crate::specs::Job::with_number, crate::specs::Job::sized, numbers::specs::Numbers::read_of))]
pub fn read_job(job: &[u8], plan: &mut [u8], words: &mut [u16]) -> Result<(Asked, usize), JobFault>
    requires { (cells_max ≤ length plan.old) × (cells_max ≤ length words.old) }
    ensures { reading_of plan.new words.new result ≡ read_job job.now }
{
    let (width, rest) = read_number(job).ok_or(JobFault::Bytes)?;
    let (height, rest) = read_number(rest).ok_or(JobFault::Bytes)?;
    if grid_fault(width, height) {
        return Err(JobFault::Grid);
    }
    if CELLS_MAX < width as usize * height as usize {
        return Err(JobFault::Size);
    }
    read_marks(rest, width, height, plan, words)
}

// From the marks on.
#[tactic(auto, unfolding(crate::specs::Job::reading_of, crate::specs::Job::marks_from, crate::specs::Job::with_run, numbers::specs::Runs::run_of))]
fn read_marks(
    job: &[u8],
    width: u16,
    height: u16,
    plan: &mut [u8],
    words: &mut [u16],
) -> Result<(Asked, usize), JobFault>
    requires { (width * height ≤ cells_max) × ((cells_max ≤ length plan.old) × (cells_max ≤ length words.old)) }
    ensures { reading_of plan.new words.new result ≡ marks_from width height job.now }
{
    let cells = width as usize * height as usize;
    let rest = read_series(job, MARKS_MAX, JobFault::Mark, &mut words[..cells])?;
    copy_marks(&words[..cells], plan);
    read_tables(rest, width, height, words)
}

// From the tables on.
#[tactic(auto, unfolding(crate::specs::Job::reading_of, crate::specs::Job::tables_from, crate::specs::Job::with_run, numbers::specs::Runs::run_of))]
fn read_tables(
    job: &[u8],
    width: u16,
    height: u16,
    words: &mut [u16],
) -> Result<(Asked, usize), JobFault>
    requires { cells_max ≤ length words.old }
    ensures { (plan : List ℕ) → reading_of plan words.new result ≡ tables_from width height (take (width * height) plan) job.now }
{
    let rest = read_series(job, u16::MAX, JobFault::Bytes, &mut words[..NUMBERS])?;
    let asked = Asked {
        width,
        height,
        tables: tables_of(words),
        source: words[SOURCE],
        sink: words[SINK],
    };
    read_count(rest, asked, words)
}

// From the count of the buffers on.
#[tactic(auto, unfolding(crate::specs::Job::reading_of, crate::specs::Job::count_from, crate::specs::Job::with_number, numbers::specs::Numbers::read_of))]
fn read_count(job: &[u8], asked: Asked, words: &mut [u16]) -> Result<(Asked, usize), JobFault>
    requires { cells_max ≤ length words.old }
    ensures { (plan : List ℕ) → reading_of plan words.new result ≡ count_from (marks_of plan asked) asked job.now }
{
    let (count, rest) = read_number(job).ok_or(JobFault::Bytes)?;
    if BUFFERS_MAX < count {
        return Err(JobFault::Count);
    }
    read_buffers(rest, asked, count as usize, words)
}

// From the buffers on. No byte may be left over.
#[tactic(auto, unfolding(crate::specs::Job::reading_of, crate::specs::Job::buffers_from, crate::specs::Job::ended, crate::specs::Job::with_run, numbers::specs::Runs::run_of))]
fn read_buffers(
    job: &[u8],
    asked: Asked,
    count: usize,
    words: &mut [u16],
) -> Result<(Asked, usize), JobFault>
    requires { (count ≤ buffers_max) × (cells_max ≤ length words.old) }
    ensures { (plan : List ℕ) → reading_of plan words.new result ≡ buffers_from (marks_of plan asked) asked count job.now }
{
    let rest = read_series(job, u16::MAX, JobFault::Bytes, &mut words[..3 * count])?;
    if !rest.is_empty() {
        return Err(JobFault::Bytes);
    }
    Ok((asked, count))
}
