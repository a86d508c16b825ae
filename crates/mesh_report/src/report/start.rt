ghost use Rattle.mesh_report.specs.Reporting.{Started};

use crate::report::Report;
use crate::totals::Totals;
use mesh_judge::judge::Judge;
use mesh_stream::stage::Standing;

impl Report {
    // A report that has taken nothing.
    pub fn new() -> Report
        ensures { Started result }
    {
        Report {
            judge: Judge::new(),
            totals: Totals::default(),
            standing: Standing::Waiting,
        }
    }
}
