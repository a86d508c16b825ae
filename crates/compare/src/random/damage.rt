// Damage to texts: a range of the bytes is replaced by others.
use crate::memory::Made;
use crate::random::numbers::Random;
use std::alloc::Global;

// Bytes that tell something in a text, and some that do not.
const BYTES: &[u8] = b"vfx#-+.0189 \t\r\n\0a\xff";

const WORDS: &[&[u8]] = &[
    b"-",
    b"--1",
    b"+1",
    b"1.5",
    b"1-",
    b"0000000000",
    b"1234567890",
    b"999999999",
    b"-999999999",
    b"100000",
    b"100001",
    b"-100000",
    b"-100001",
    b"000100001",
    b"-0",
    b"0",
    b"100000000",
    b"100000001",
    b"1",
    b"v",
    b"f",
    b"x",
    b"vv",
    b"#",
    b"v 1",
    b"1 2",
    b"",
];

// The bytes from one position to another are replaced.
#[derive(Drop)]
struct Edit<'a> {
    from: usize,
    to: usize,
    by: &'a [u8],
}

fn apply(alloc: Global, text: &[u8], edit: &Edit<'_>) -> Made<Vec<u8>> {
    let mut edited = Vec::from_slice(alloc, text.get(..edit.from).unwrap_or(text))?;
    edited.extend_from_slice(edit.by)?;
    edited.extend_from_slice(text.get(edit.to..).unwrap_or(&[]))?;
    Ok(edited)
}

// Where what lies around the position between two separators begins and ends.
fn around(text: &[u8], position: usize, separators: &[u8]) -> (usize, usize) {
    let before = text.get(..position).unwrap_or(text);
    let behind = text.get(position..).unwrap_or(&[]);
    let is_separator = |byte: &u8| separators.contains(byte);
    let from = before
        .iter()
        .rposition(is_separator)
        .map_or(0, |last| last.saturating_add(1));
    let length = behind.iter().position(is_separator).unwrap_or(behind.len());
    (from, position.saturating_add(length))
}

// Makes the line around the position as long as lines may be, or somewhat shorter or longer.
fn padded(alloc: Global, random: &mut Random, text: &[u8], position: usize) -> Made<Vec<u8>> {
    let (from, to) = around(text, position, b"\n");
    let length = random.pick(&[126usize, 127, 127, 128, 128, 129, 300, 4000]);
    let missing = length.saturating_sub(to.saturating_sub(from));
    let padding = vec![in alloc; random.pick(&[b' ', b' ', b' ', b'#', b'0']); missing]?;
    let at = random.pick(&[from, to, to]);
    apply(
        alloc,
        text,
        &Edit {
            from: at,
            to: at,
            by: padding.as_slice(),
        },
    )
}

// Drops the line around the position or doubles it.
fn moved(alloc: Global, random: &mut Random, text: &[u8], position: usize) -> Made<Vec<u8>> {
    let (from, to) = around(text, position, b"\n");
    let behind = to.saturating_add(1);
    if random.one_in(2) {
        return apply(
            alloc,
            text,
            &Edit {
                from,
                to: behind,
                by: &[],
            },
        );
    }
    let line = text.get(from..behind).unwrap_or(&[]);
    let at = random.pick(&[from, 0, behind]);
    apply(
        alloc,
        text,
        &Edit {
            from: at,
            to: at,
            by: line,
        },
    )
}

fn word(random: &mut Random) -> &'static [u8] {
    random.pick(WORDS)
}

// A change of the byte or the word at a position.
fn small_edit<'a>(random: &mut Random, text: &[u8], position: usize, byte: &'a [u8]) -> Edit<'a> {
    let behind = position.saturating_add(1);
    let (from, to) = around(text, position, b" \t\r\n");
    match random.below(8) {
        0 => Edit {
            from: position,
            to: behind,
            by: byte,
        },
        1 => Edit {
            from: position,
            to: behind,
            by: &[],
        },
        2 => Edit {
            from: position,
            to: position,
            by: byte,
        },
        3 => Edit {
            from: position,
            to: text.len(),
            by: &[],
        },
        _ => Edit {
            from,
            to,
            by: word(random),
        },
    }
}

// The text with one thing changed at a position.
fn damaged_at(alloc: Global, random: &mut Random, text: &[u8], position: usize) -> Made<Vec<u8>> {
    match random.below(5) {
        0 => moved(alloc, random, text, position),
        1 => padded(alloc, random, text, position),
        _ => {
            let byte = [random.pick(BYTES)];
            apply(alloc, text, &small_edit(random, text, position, &byte))
        }
    }
}

// The text with one to three things changed.
pub fn damaged(alloc: Global, random: &mut Random, mut text: Vec<u8>) -> Made<Vec<u8>> {
    for _ in 0..random.pick(&[1, 1, 2, 3]) {
        let position = random.position(text.len().saturating_add(1));
        text = damaged_at(alloc, random, text.as_slice(), position)?;
    }
    Ok(text)
}
