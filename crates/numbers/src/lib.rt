// The numbers of a job: groups of seven bits. Document 01, "The job and its printed sheet".
#![tactic(auto)]

mod fault;
mod number;
mod series;

pub use fault::JobFault;
pub use number::read_number;
pub use series::read_series;
