// What a stream of events counts up to, and the report that says it.
#![tactic(auto)]

mod area;
pub mod report;
pub mod spelling;
pub mod stream_report;
pub mod totals;
