// The events of a position in their order. Of the vertices that they name, n is the position's own, m stands before it in
// its row, q in the same column of the row before, and p before q.
// A call hands over one event, so the grid keeps which event of its position comes next, and makes it when it is asked for: a
// list of a position's events, up to 7 of them, would be memory that nothing needs.
#[derive(Clone, Copy)]
pub(super) enum Part {
    NewVertex,
    FirstTriangle,
    SecondTriangle,
    FinalizationOfP,
    FinalizationOfQ,
    FinalizationOfM,
    FinalizationOfN,
}
