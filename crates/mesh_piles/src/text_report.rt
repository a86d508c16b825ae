ghost use Rattle.std.specs.Prelude.{ℕ, List};
ghost use Rattle.mesh_report.specs.Streaming.{WillSay};
ghost use Rattle.mesh_piles.specs.Texts.{text_outcome};

use crate::pile::{check, clean, compact};
use mesh_filters::check::Check;
use mesh_filters::clean::Clean;
use mesh_filters::compact::Compact;
use mesh_layer::layer::Layer;
use mesh_reader::reader::TextReader;
use mesh_report::stream_report::StreamReport;
use mesh_stream::stage::Stage;

// The pile that a report on a mesh text runs: reader, check, clean, compact.
pub type TextPile = Layer<Layer<Layer<TextReader, Check>, Clean>, Compact>;

// A report on a mesh text: on what check, clean and compact make of its events.
pub fn text_report() -> StreamReport<TextPile>
    ensures { (t : List ℕ) → WillSay ⟦<TextPile as Stage>⟧.meaning result t (text_outcome t) }
{
    StreamReport::new(compact(clean(check(TextReader::new()))))
}
