ghost use Rattle.std.specs.Prelude.{◌≡◌};
ghost use Rattle.mesh_report.specs.Reporting.{totals_in, standing_of};
ghost use Rattle.mesh_report.specs.Spelling.{report_text};
ghost use Rattle.mesh_report.specs.Writing.{SpelledInto};

use crate::report::Report;
use crate::totals::Totals;
use mesh_stream::fault::Refusal;
use mesh_stream::stage::Standing;

impl Report {
    pub fn totals(&self) -> Totals
        ensures { result ≡ totals_in self.now }
    {
        self.totals
    }

    // How it stands: waiting before any end or fault.
    pub fn standing(&self) -> Standing
        ensures { result ≡ standing_of self.now }
    {
        self.standing
    }

    // Spells the report into the front of the buffer, and answers how many bytes it has. A buffer of less than 256 bytes is refused.
    pub fn spell(&self, buffer: &mut [u8]) -> Result<usize, Refusal>
        ensures { SpelledInto (report_text (totals_in self.now) (standing_of self.now)) buffer.old result buffer.new }
    {
        self.totals.spell(self.standing, buffer)
    }
}
