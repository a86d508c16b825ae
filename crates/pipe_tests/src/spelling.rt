// The spelling of reports into small and large buffers, with the largest and the smallest area.
use mesh_pipe::{Cause, LayerName, Refusal, Standing, Totals};
use std::process::Abort;
use std::test::Fail;

fn totals(vertices: u32, triangles: u32, finalized: u32, width: u32, area: i64) -> Totals {
    Totals {
        vertices,
        triangles,
        finalized,
        width,
        area,
    }
}

fn check_points(rt: &impl Abort, bytes: &[u8]) {
    for byte in bytes {
        assert_eq!(rt; *byte, b'.');
    }
}

// Under 256 bytes a buffer is refused and untouched.
#[test]
fn small_buffers(rt: HostRuntime) {
    let mut buffer = [b'.'; 255];
    for size in [0, 59, 255] {
        let answer = Totals::default().spell(Standing::Ended, &mut buffer[0..size]);
        assert_eq!(rt; answer, Err(Refusal::BufferTooSmall));
        check_points(&rt, &buffer);
    }
}

const NOTHING: &str = "vertices 0\ntriangles 0\nfinalized 0\nwidth 0\narea 0\nend ok\n";

const HIGH: &str =
    "vertices 10\ntriangles 1000000007\nfinalized 4294967295\nwidth 100\narea 9223372036854775807\nend open\n";

const LOW: &str =
    "vertices 9\ntriangles 99\nfinalized 101\nwidth 1\narea -9223372036854775808\nfault renumber 10 4294967295\n";

// The text stands in front, and every byte behind it is kept.
#[test]
fn large_buffers(rt: HostRuntime) -> Result<(), Fail> {
    let high = totals(10, 1_000_000_007, 4_294_967_295, 100, i64::MAX);
    let low = totals(9, 99, 101, 1, i64::MIN);
    let fault = Standing::faulty(LayerName::Renumber, Cause::CornerNotLive, 4_294_967_295);
    let cases = [
        (Totals::default(), Standing::Ended, 256, NOTHING),
        (Totals::default(), Standing::Ended, 300, NOTHING),
        (high, Standing::Waiting, 256, HIGH),
        (low, fault, 256, LOW),
    ];
    for (totals, standing, size, text) in cases {
        let mut buffer = [b'.'; 300];
        let length = totals.spell(standing, &mut buffer[0..size])?;
        assert!(rt; length <= 300);
        assert_eq!(rt; &buffer[0..length], text.as_bytes());
        check_points(&rt, &buffer[length..]);
    }
    Ok(())
}
