// A region of either kind, so that one clip serves both.
ghost use Rattle.compare.specs.declared.library.region.AnyRegion.TheVariants.{Aligned, Half};

use crate::case;
use mesh_pipe::{AlignedBox, HalfSpace, Point, Refusal, Region};

#[derive(Clone, Copy)]
pub enum AnyRegion {
    Aligned(AlignedBox),
    Half(HalfSpace),
}

impl AnyRegion {
    pub fn new(region: case::Region) -> Result<AnyRegion, Refusal> {
        Ok(match region {
            case::Region::Box { low, high } => AnyRegion::Aligned(AlignedBox::new(low, high)?),
            case::Region::HalfSpace { a, b, c, d } => AnyRegion::Half(HalfSpace::new(a, b, c, d)?),
        })
    }
}

impl Region for AnyRegion {
    ghost inside = { elim [ Aligned region ↦ ⟦<AlignedBox as Region>⟧.inside region | Half region ↦ ⟦<HalfSpace as Region>⟧.inside region ] };

    fn contains(&self, at: Point) -> bool {
        match self {
            AnyRegion::Aligned(region) => region.contains(at),
            AnyRegion::Half(region) => region.contains(at),
        }
    }
}
