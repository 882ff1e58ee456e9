//! A pass over one metaslab, and what it lends to be solved outside the metaslab's lock.

#![tactic(auto)]

mod loan;
mod pass;

pub use loan::{Loan, Reading, Solved};
pub use pass::Pass;
