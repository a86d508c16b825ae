ghost use Rattle.std.specs.Prelude.{◌≡◌};
ghost use Rattle.mesh_regions.specs.HalfSpaces.{factor_allowed, half_space_allowed, in_half_space, limit_allowed};
ghost use Rattle.mesh_regions.specs.Making.{Made};
ghost use Rattle.mesh_regions.specs.contracts.half_space.region.HalfSpaceRegion.TheImpl.{ghosts as halving};

use crate::half_space::HalfSpace;
use mesh_stream::fault::Refusal;

#[tactic(auto, unfolding(crate::specs::HalfSpaces::factor_allowed))]
fn is_factor(a: i32) -> bool
    ensures { result ≡ factor_allowed a }
{
    (-1000..=1000).contains(&a)
}

#[tactic(auto, unfolding(crate::specs::HalfSpaces::limit_allowed))]
fn is_limit(d: i32) -> bool
    ensures { result ≡ limit_allowed d }
{
    (-300_000_000..=300_000_000).contains(&d)
}

// Whether the settings are allowed.
fn allows(a: i32, b: i32, c: i32, d: i32) -> bool
    ensures { result ≡ half_space_allowed a b c d }
{
    is_factor(a) && is_factor(b) && is_factor(c) && is_limit(d)
}

impl HalfSpace {
    // The points with a·x + b·y + c·z ≤ d.
    pub fn new(a: i32, b: i32, c: i32, d: i32) -> Result<HalfSpace, Refusal>
        ensures { Made halving.inside (half_space_allowed a b c d) (in_half_space a b c d) result }
    {
        if !allows(a, b, c, d) {
            return Err(Refusal::SettingNotAllowed);
        }
        Ok(HalfSpace { a, b, c, d })
    }
}
