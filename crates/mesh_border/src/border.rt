ghost use Rattle.std.specs.Prelude.{◌≡◌, length};
ghost use Rattle.mesh_judge.specs.Judging.{live_limit, window_of};
ghost use Rattle.mesh_border.specs.Keeping.{Kept};
ghost use Rattle.mesh_border.specs.OpenEdges.{edges_of};

use crate::LIVE_LIMIT;
use crate::found::Found;
use crate::neighbours::Neighbours;
use crate::open_edges::OpenEdges;
use mesh_judge::judge::Judge;

mod filter;
mod judged;
mod start;

// The filter of the border list: it hands over, at the finalization of a vertex, the single ones of the edges open there.
#[derive(Drop)]
pub struct Border {
    // of each live vertex, its row among the neighbours
    judge: Judge<u16>,
    edges: OpenEdges,
    neighbours: Neighbours,
    // The vertices that may be the other ends of open edges, while a finalization is worked in: a field, since a local of its size, 4 KiB,
    // would be written anew at each finalization.
    ends: [u32; LIVE_LIMIT],
    // what the last finalization gave
    found: Found,
    ghost kept: { Kept (live_limit judge) (window_of judge) (edges_of edges) neighbours },
    ghost long: { length ends ≡ 1024 },
}

// What is to be handed over for the event taken last.
#[derive(Clone, Copy, PartialEq, Debug)]
pub enum Rest {
    Nothing,
    Found,
}
