// Tests of the table through its public calls.
#![tactic(auto)]

#[cfg(test)]
mod records;
