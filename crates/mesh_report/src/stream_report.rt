use crate::report::Report;

mod pieces;

// A report over an inlet that is fed piece by piece.
#[derive(Drop)]
pub struct StreamReport<S> {
    stage: S,
    report: Report,
}
