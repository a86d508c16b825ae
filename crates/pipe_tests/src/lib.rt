// Tests of the whole library through its public calls.
#![tactic(auto)]

#[cfg(test)]
mod border;
#[cfg(test)]
mod calls;
#[cfg(test)]
mod common;
#[cfg(test)]
mod piles;
#[cfg(test)]
mod reading;
#[cfg(test)]
mod regions;
#[cfg(test)]
mod report;
#[cfg(test)]
mod rules;
#[cfg(test)]
mod small;
#[cfg(test)]
mod spelling;
