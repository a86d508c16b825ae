use crate::aligned_box::AlignedBox;
use crate::half_space::HalfSpace;
use crate::region::Region;
use mesh_stream::event::Point;
use mesh_stream::fault::Refusal;
use std::test::Fail;

fn point(x: i32, y: i32, z: i32) -> Point {
    Point { x, y, z }
}

#[test]
fn a_box_with_its_sides(rt: HostRuntime) -> Result<(), Fail> {
    let region = AlignedBox::new(point(-10, 0, 5), point(10, 20, 6))?;
    let inside = [
        point(0, 10, 5),
        point(-10, 0, 5),
        point(10, 20, 6),
        point(-10, 20, 6),
    ];
    for at in inside {
        assert!(rt; region.contains(at), "{at:?}");
    }
    let outside = [
        point(-11, 10, 5),
        point(11, 10, 5),
        point(0, -1, 5),
        point(0, 21, 5),
        point(0, 10, 4),
        point(0, 10, 7),
        point(i32::MIN, i32::MAX, 5),
    ];
    for at in outside {
        assert!(rt; !region.contains(at), "{at:?}");
    }
    Ok(())
}

#[test]
fn a_box_of_one_point(rt: HostRuntime) -> Result<(), Fail> {
    let corner = point(100_000, -100_000, 0);
    let region = AlignedBox::new(corner, corner)?;
    assert!(rt; region.contains(corner));
    assert!(rt; !region.contains(point(100_000, -100_000, 1)));
    assert!(rt; !region.contains(point(99_999, -100_000, 0)));
    Ok(())
}

fn refuses_box(low: Point, high: Point) -> bool {
    matches!(AlignedBox::new(low, high), Err(Refusal::SettingNotAllowed))
}

#[test]
fn corners(rt: HostRuntime) {
    let origin = point(0, 0, 0);
    assert!(rt; refuses_box(origin, point(-1, 0, 0)));
    assert!(rt; refuses_box(origin, point(0, -1, 0)));
    assert!(rt; refuses_box(origin, point(0, 0, -1)));
    assert!(rt; refuses_box(origin, point(0, 100_001, 0)));
    assert!(rt; refuses_box(point(0, 0, -100_001), origin));
    assert!(rt;
        !refuses_box(
            point(-100_000, -100_000, -100_000),
            point(100_000, 100_000, 100_000)
        )
    );
}

#[test]
fn a_half_space_through_the_origin(rt: HostRuntime) -> Result<(), Fail> {
    let region = HalfSpace::new(1, 2, -3, 0)?;
    assert!(rt; region.contains(point(0, 0, 0)));
    assert!(rt; region.contains(point(1, 1, 1)));
    assert!(rt; !region.contains(point(1, 0, 0)));
    assert!(rt; !region.contains(point(0, 1, 0)));
    assert!(rt; region.contains(point(0, 0, 1)));
    Ok(())
}

#[test]
fn a_half_space_of_the_highest_sums(rt: HostRuntime) -> Result<(), Fail> {
    let region = HalfSpace::new(1000, 1000, 1000, 300_000_000)?;
    assert!(rt; region.contains(point(100_000, 100_000, 100_000)));
    assert!(rt; !region.contains(point(100_000, 100_000, 100_001)));
    assert!(rt; !region.contains(point(i32::MAX, i32::MAX, i32::MAX)));
    assert!(rt; region.contains(point(i32::MIN, i32::MIN, i32::MIN)));
    Ok(())
}

fn refuses_half_space(a: i32, b: i32, c: i32, d: i32) -> bool {
    matches!(HalfSpace::new(a, b, c, d), Err(Refusal::SettingNotAllowed))
}

#[test]
fn factors_and_limits(rt: HostRuntime) {
    assert!(rt; refuses_half_space(1001, 0, 0, 0));
    assert!(rt; refuses_half_space(0, -1001, 0, 0));
    assert!(rt; refuses_half_space(0, 0, i32::MIN, 0));
    assert!(rt; refuses_half_space(1, 1, 1, 300_000_001));
    assert!(rt; refuses_half_space(1, 1, 1, -300_000_001));
    assert!(rt; !refuses_half_space(-1000, 1000, -1000, -300_000_000));
    assert_eq!(rt; Refusal::SettingNotAllowed.number(), 15);
}
