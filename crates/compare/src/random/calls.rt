// Calls in any order: the text in pieces, with next between them, and what may come after the end.
use crate::case::{Call, Top};
use crate::memory::Made;
use crate::random::numbers::Random;
use std::alloc::Global;

// A call that asks for what stands on top.
fn asking(random: &mut Random, top: Top) -> Call {
    match (top, random.below(4)) {
        (Top::Report | Top::Stream, 0) => Call::Spell(random.pick(&[0, 255, 256, 257, 400])),
        (Top::Report | Top::Stream, _) => Call::Run(random.pick(&[
            0,
            1,
            1,
            2,
            3,
            10,
            1000,
            u64::MAX,
        ])),
        (_, 0) => Call::Drain,
        _ => Call::Next,
    }
}

// A call that asks until there is nothing left.
fn asking_all(top: Top) -> Call {
    match top {
        Top::Report | Top::Stream => Call::Run(1_000_000),
        Top::Events | Top::Border => Call::Drain,
    }
}

// The text in pieces of at most about twice the grain; some pieces are empty, and now and then it is closed too early.
fn pieces(random: &mut Random, top: Top, length: usize, calls: &mut Vec<Call>) -> Made<()> {
    let grain = random
        .pick(&[3, 20, 20, 100, 100, 1000, 6000])
        .max(length / 10);
    let mut left = length;
    for _ in 0..200 {
        let piece = random.position(grain.saturating_mul(2));
        calls.push(Call::Feed(piece))?;
        for _ in 0..random.below(4) {
            calls.push(asking(random, top))?;
        }
        if left <= piece {
            break;
        }
        left = left.saturating_sub(piece);
        if random.one_in(200) {
            calls.push(Call::Close)?;
        }
    }
    Ok(())
}

// What was not taken for want of room, in the end all of the text.
fn last_pieces(top: Top, length: usize, calls: &mut Vec<Call>) -> Made<()> {
    for _ in 0..(length / 2000).saturating_add(2) {
        calls.push(asking_all(top))?;
        calls.push(Call::Feed(5000))?;
    }
    calls.push(asking_all(top))?;
    Ok(())
}

// Calls that feed a text of this length to what stands there, most often all of it, and mostly close it.
pub fn calls(alloc: Global, random: &mut Random, top: Top, length: usize) -> Made<Vec<Call>> {
    let mut calls = Vec::new(alloc);
    pieces(random, top, length, &mut calls)?;
    if !random.one_in(8) {
        last_pieces(top, length, &mut calls)?;
    }
    if !random.one_in(8) {
        calls.push(Call::Close)?;
    }
    for _ in 0..random.below(4) {
        let call = asking(random, top);
        calls.push(random.pick(&[call, Call::Feed(3), Call::Close]))?;
    }
    calls.push(asking_all(top))?;
    calls.push(asking(random, top))?;
    Ok(calls)
}

// Calls to what takes no text.
pub fn calls_without_text(alloc: Global, random: &mut Random, top: Top) -> Made<Vec<Call>> {
    let mut calls = Vec::new(alloc);
    for _ in 0..random.below(30) {
        calls.push(asking(random, top))?;
    }
    if !random.one_in(4) {
        calls.push(asking_all(top))?;
        calls.push(asking(random, top))?;
    }
    Ok(calls)
}
