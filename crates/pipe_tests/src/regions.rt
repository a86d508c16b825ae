// Regions.
use crate::common::{check_tells, closed_with};
use mesh_pipe::{AlignedBox, HalfSpace, Point, Refusal, clip};
use std::test::Fail;

// Vertices 1 and 3 have x + 2·y - z ≤ 20, and 3 lies on the plane.
#[test]
fn a_half_space(rt: HostRuntime) -> Result<(), Fail> {
    let reader = closed_with(
        &rt,
        b"v 0 0 0\nv 0 11 1\nv 10 10 10\nf 1 2 3\nf 3 1 3\nx 2\nx 3\nx 1",
    )?;
    let kept = "v 1 0 0 0 @1, v 3 10 10 10 @3, f 3 1 3 @5, x 3 @7, x 1 @8, ended";
    let mut pile = clip(reader, HalfSpace::new(1, 2, -1, 20)?);
    check_tells(&rt, rt.alloc(), &mut pile, kept)
}

#[test]
fn refused_regions(rt: HostRuntime) {
    let low = Point { x: 0, y: 0, z: 0 };
    let high = Point { x: 9, y: 9, z: -1 };
    let refusal = Refusal::SettingNotAllowed;
    assert_eq!(rt; AlignedBox::new(low, high).err(), Some(refusal));
    assert_eq!(rt; HalfSpace::new(0, 0, 1001, 0).err(), Some(refusal));
}
