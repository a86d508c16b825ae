ghost use Rattle.mesh_judge.specs.Judging.{window_of};
ghost use Rattle.mesh_report.specs.Sums.{Sums};

use crate::totals::Totals;
use mesh_judge::judge::Judge;
use mesh_stream::stage::Standing;

mod run;
mod show;
mod start;
mod take;

// Counts the events of a stage while it judges them. It is open, which it shows as waiting, until it meets an end or a fault.
#[derive(Drop)]
pub struct Report {
    judge: Judge<()>,
    totals: Totals,
    standing: Standing,
    ghost sums: { Sums (window_of judge) totals },
}
