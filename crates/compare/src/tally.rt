// What was compared, by kind.
use crate::answer::{Answer, Ends, Item};
use crate::case::{Bottom, Case, Top};
use crate::memory::Made;
use std::alloc::Global;
use std::io;

// How many there were of one kind, which may be told apart by a number.
#[derive(Drop)]
struct Count {
    kind: &'static str,
    number: Option<u8>,
    count: u64,
}

#[derive(Drop)]
pub struct Tally {
    counts: Vec<Count>,
}

// The kinds in the order in which they are printed.
const KINDS: &[&str] = &[
    "cases on a text",
    "cases on a list",
    "cases on a grid",
    "cases with no layer",
    "cases with one layer",
    "cases with two layers",
    "cases with three layers",
    "cases with five layers",
    "border lists",
    "reports in bounded runs",
    "reports on a stream of text",
    "bytes of text",
    "pieces of text",
    "events",
    "border edges",
    "answers that there is no item",
    "totals and standings of reports",
    "bytes of reports",
    "refusals of number",
    "cases that waited in the end",
    "cases that ended",
    "cases at fault in the end, of cause",
];

impl Tally {
    pub fn new(alloc: Global) -> Tally {
        Tally {
            counts: Vec::new(alloc),
        }
    }

    fn add(&mut self, kind: &'static str, number: Option<u8>, more: u64) -> Made<()> {
        for count in self.counts.iter_mut() {
            if count.kind == kind && count.number == number {
                count.count = count.count.saturating_add(more);
                return Ok(());
            }
        }
        self.counts.push(Count {
            kind,
            number,
            count: more,
        })?;
        Ok(())
    }

    fn add_answer(&mut self, answer: &Answer) -> Made<()> {
        match answer {
            Answer::Item(Item::Event(_)) => self.add("events", None, 1),
            Answer::Item(Item::Side(_)) => self.add("border edges", None, 1),
            Answer::None(_) => self.add("answers that there is no item", None, 1),
            Answer::Taken(length) => {
                self.add("pieces of text", None, 1)?;
                self.add("bytes of text", None, *length as u64)
            }
            Answer::Report(..) => self.add("totals and standings of reports", None, 1),
            Answer::Spelled {
                length: Ok(length),
                ..
            } => self.add("bytes of reports", None, *length as u64),
            Answer::Refused(number)
            | Answer::Spelled {
                length: Err(number),
                ..
            } => { self.add("refusals of number", Some(*number), 1) }
            Answer::Closed | Answer::Room(_) | Answer::Ran(_) => Ok(()),
        }
    }

    fn add_ends(&mut self, ends: Ends) -> Made<()> {
        match ends {
            Ends::Waiting => self.add("cases that waited in the end", None, 1),
            Ends::Ended => self.add("cases that ended", None, 1),
            Ends::Faulty { cause, .. } => self.add(
                "cases at fault in the end, of cause",
                Some(cause),
                1,
            ),
        }
    }

    fn add_asked(&mut self, case: &Case) -> Made<()> {
        let bottom = match case.bottom {
            Bottom::Text(_) => "cases on a text",
            Bottom::List(_) => "cases on a list",
            Bottom::Grid { .. } => "cases on a grid",
        };
        self.add(bottom, None, 1)?;
        let layers = match case.rules.len() {
            0 => "cases with no layer",
            1 => "cases with one layer",
            2 => "cases with two layers",
            3 => "cases with three layers",
            _ => "cases with five layers",
        };
        self.add(layers, None, 1)?;
        match case.top {
            Top::Events => Ok(()),
            Top::Border => self.add("border lists", None, 1),
            Top::Report => self.add("reports in bounded runs", None, 1),
            Top::Stream => self.add("reports on a stream of text", None, 1),
        }
    }

    // Adds a case and the answers to it.
    pub fn add_case(&mut self, case: &Case, answers: &[Answer]) -> Made<()> {
        self.add_asked(case)?;
        let mut last = None;
        for answer in answers {
            self.add_answer(answer)?;
            if let Answer::None(ends) | Answer::Report(_, ends) = answer {
                last = Some(*ends);
            }
        }
        match last {
            Some(ends) => self.add_ends(ends),
            None => Ok(()),
        }
    }

    // A line for each kind that was met.
    pub fn print(&mut self, rt: &impl Print) -> io::Result<()> {
        self.counts.sort_by_key(|count| (
            KINDS.iter().position(|kind| *kind == count.kind),
            count.number,
        ))?;
        for Count {
            kind,
            number,
            count,
        } in &self.counts {
            match number {
                None => println!(rt; "{count} {kind}")?,
                Some(number) => println!(rt; "{count} {kind} {number}")?,
            }
        }
        Ok(())
    }
}
