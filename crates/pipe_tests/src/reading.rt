// Words and lines of the text reader.
use crate::common::{check_closing, check_tells, closed_with, open_with};
use mesh_pipe::{Cause, LayerName, Stage, Standing};
use std::process::Abort;
use std::test::Fail;

const UNKNOWN: [&[u8]; 8] = [
    b"v#", b"vv 1", b"V 1 2 3", b"1 2 3", b"-", b"\xff", b"\0v 1", b"\x0cx 1",
];

const WRONG_COUNT: [&[u8]; 8] = [
    b"v", b"v 1 2", b"v x y", b"f 1 2", b"x", b"x 1 2", b"x 1 #c", b"x 0 -",
];

const NO_NUMBER: [&[u8]; 10] = [
    b"v - 1 1", b"v 1 1 -", b"x --1", b"x +1", b"x 1-", b"x -0", b"x 1.0", b"x #", b"x 1\0",
    b"f 1 2 a",
];

const OUT_OF_RANGE: [&[u8]; 3] = [b"x 0", b"f 1 0 2", b"f 0 - 1"];

// Only blanks part words. The words are judged from the left, each for its form and then its range.
const LONGER: [(Cause, &[u8]); 11] = [
    (Cause::UnknownWord, b"v\x0b1 2 3"),
    (Cause::WordCount, b"v 1 2 3 4"),
    (Cause::WordCount, b"f 1 2 3 #c"),
    (Cause::WordCount, b"v 1 2\x0b3"),
    (Cause::NotANumber, b"v 1 1 -0000000000"),
    (Cause::NotANumber, b"x 0000000001"),
    (Cause::NotANumber, b"v x 100001 1"),
    (Cause::OutOfRange, b"v 100001 x 1"),
    (Cause::OutOfRange, b"v 1 1 -100001"),
    (Cause::OutOfRange, b"x 000000000"),
    (Cause::OutOfRange, b"x 100000001"),
];

// Each text is one line, and all are at fault for the same cause.
fn check_faults(rt: &impl Abort, texts: &[&[u8]], cause: Cause) -> Result<(), Fail> {
    let fault = Standing::faulty(LayerName::Reader, cause, 1);
    for text in texts {
        let mut reader = closed_with(rt, text)?;
        assert_eq!(rt; reader.next(), Err(fault), "{text:?}");
    }
    Ok(())
}

#[test]
fn lines_at_fault(rt: HostRuntime) -> Result<(), Fail> {
    check_faults(&rt, &UNKNOWN, Cause::UnknownWord)?;
    check_faults(&rt, &WRONG_COUNT, Cause::WordCount)?;
    check_faults(&rt, &NO_NUMBER, Cause::NotANumber)?;
    check_faults(&rt, &OUT_OF_RANGE, Cause::OutOfRange)?;
    for (cause, text) in LONGER {
        check_faults(&rt, &[text], cause)?;
    }
    Ok(())
}

#[test]
fn good_lines(rt: HostRuntime) -> Result<(), Fail> {
    let heap = rt.alloc();
    let text =
        b"v 100000 -100000 000000000\nv -0 -000000001 0100000\nf 1 000000002 100000000\nx 100000000";
    let events =
        "v 1 100000 -100000 0 @1, v 2 0 -1 100000 @2, f 1 2 100000000 @3, x 100000000 @4, ended";
    check_tells(&rt, heap, &mut closed_with(&rt, text)?, events)?;
    let text = b" \tv\t1\r2 \t 3\r\n\r\rx\r9 ";
    let events = "v 1 1 2 3 @1, x 9 @2, ended";
    check_tells(&rt, heap, &mut closed_with(&rt, text)?, events)?;
    // comments and blank lines count as lines
    let text = b"v 1 1 1\n\n # v 2 2 2\n#\nv 3 3 3\nx 1\n \t\r\nv 4 4 4\n";
    let events = "v 1 1 1 1 @1, v 2 3 3 3 @5, x 1 @6, v 3 4 4 4 @8, ended";
    check_tells(&rt, heap, &mut closed_with(&rt, text)?, events)
}

// A line may have 127 bytes, with a line end or without. 128 are too many, even in a comment or of blanks alone.
#[test]
fn long_lines(rt: HostRuntime) -> Result<(), Fail> {
    let mut line = [b' '; 132];
    line[0] = b'x';
    line[126] = b'7';
    line[127..132].copy_from_slice(b"\nx 1\n");
    let mut comment = [b'#'; 129];
    comment[127..129].copy_from_slice(b"\n-");
    let mut blanks = [b' '; 129];
    blanks[128] = b'\n';
    let fault = "fault reader 2 1";
    let cases: [(&[u8], &str, &str); 6] = [
        (&line[0..127], "waiting", "x 7 @1, ended"),
        (&line, "x 7 @1, x 1 @2, waiting", "ended"),
        (&comment, "waiting", "fault reader 3 2"),
        (&[b'#'; 128], fault, fault),
        (&[b' '; 128], fault, fault),
        (&blanks, fault, fault),
    ];
    for (text, open, closed) in cases {
        let mut reader = open_with(&rt, text)?;
        check_closing(&rt, rt.alloc(), &mut reader, open, closed)?;
    }
    Ok(())
}
