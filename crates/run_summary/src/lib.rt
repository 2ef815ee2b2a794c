//! What is told of a run: all parts of the summary, kept while its steps are made. It stands on the contract of a
//! machine alone.
#![tactic(auto)]

mod replies;
mod run;
mod summary;

pub use replies::ReplyCounts;
pub use run::summarized_run;
pub use summary::RunSummary;
