// The report: the frames of a parsed command, and the frame of a fault, measured and then written into a lent buffer.
#![tactic(auto)]

mod fault;
mod pairs;
mod reporter;
mod series;

pub use fault::write_fault;
pub use reporter::write_report;
