// Holds the library against a second implementation of its rules on random inputs: compare SEED ROUNDS. Each round has a seed of its
// own, one above the last, so that a round is repeated by itself with its seed.
#![tactic(auto)]

mod answer;
mod case;
mod disagreement;
mod library;
mod memory;
mod random;
mod tally;
mod whole;

use anyhow::anyhow;
use case::Case;
use random::cases::case;
use random::numbers::Random;
use std::env;
use tally::Tally;

// Asks both, and answers whether they agree.
fn compare(rt: &HostRuntime, case: &Case, tally: &mut Tally) -> anyhow::Result<bool> {
    let by_library = library::answers::answers(rt.alloc(), case)?;
    let by_rules = whole::answers::answers(rt.alloc(), case)?;
    if by_library == by_rules {
        tally.add_case(case, by_rules.as_slice())?;
        return Ok(true);
    }
    disagreement::print(
        rt,
        rt.alloc(),
        case,
        by_library.as_slice(),
        by_rules.as_slice(),
    )?;
    Ok(false)
}

fn run(rt: &HostRuntime, first: u64, rounds: u64) -> anyhow::Result<()> {
    let mut tally = Tally::new(rt.alloc());
    for round in 0..rounds {
        let seed = first.wrapping_add(round);
        let case = case(rt.alloc(), &mut Random::new(seed))?;
        if !compare(rt, &case, &mut tally)? {
            return Err(anyhow!("they disagree at seed {seed}"));
        }
    }
    println!(rt; "{rounds} rounds from seed {first}, and no disagreement")?;
    tally.print(rt)?;
    Ok(())
}

fn main(rt: HostRuntime) -> anyhow::Result<()> {
    let mut settings = [1, 1000];
    for (setting, word) in settings.iter_mut().zip(env::args(&rt)?.skip(1)) {
        *setting = word.as_str().parse::<u64>()?;
    }
    let [first, rounds] = settings;
    run(&rt, first, rounds)
}
