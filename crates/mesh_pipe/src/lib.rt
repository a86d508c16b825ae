// The whole library in one crate, to import alone. Its specs/ pass on the definitions that the contracts cite.
#![tactic(auto)]

// What flows: events and border edges, and why a stream breaks off.
pub use mesh_edges::edge::Edge;
pub use mesh_stream::event::{Event, Point};
pub use mesh_stream::fault::{Cause, Fault, LayerName, Refusal};

// What it flows through.
pub use mesh_stream::stage::{Inlet, Stage, Standing};

// The bottoms.
pub use mesh_bottoms::grid::Grid;
pub use mesh_bottoms::list::ListStage;
pub use mesh_reader::reader::TextReader;

// The layers, and the regions by which clip cuts.
pub use mesh_piles::pile::{check, clean, clip, compact, renumber};
pub use mesh_regions::aligned_box::AlignedBox;
pub use mesh_regions::half_space::HalfSpace;
pub use mesh_regions::region::Region;

// Orders worked off on a pile.
pub use mesh_layer::order::{Order, Reply};
pub use mesh_layer::work::{ask_on, work_off};

// What is made of the events in the end: border edges and reports.
pub use mesh_border::border_list::border_list;
pub use mesh_piles::text_report::{TextPile, text_report};
pub use mesh_report::report::Report;
pub use mesh_report::stream_report::StreamReport;
pub use mesh_report::totals::Totals;

// A text listed line by line.
pub use mesh_listing::list::list_text;

// The types of the layers, and what a layer of one's own is made of.
pub use mesh_border::border::Border;
pub use mesh_filters::check::Check;
pub use mesh_filters::clean::Clean;
pub use mesh_filters::clip::Clip;
pub use mesh_filters::compact::Compact;
pub use mesh_filters::renumber::Renumber;
pub use mesh_judge::judge::Judge;
pub use mesh_judge::live::{Corners, Live};
pub use mesh_layer::fault::or_fault;
pub use mesh_layer::filter::Filter;
pub use mesh_layer::layer::Layer;
pub use mesh_table::key::Key;
pub use mesh_table::table::{InsertError, Table};
