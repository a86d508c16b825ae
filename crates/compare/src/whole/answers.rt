// The answers to calls, each by the whole list of the bytes taken.
use crate::answer::{Answer, Counts, Ends, Item};
use crate::case::{Bottom, Call, Case, MOST_ASKED, Rule, Top, piece};
use crate::memory::Made;
use crate::whole::acceptance::judge;
use crate::whole::border::border;
use crate::whole::bottom::given;
use crate::whole::given::{Given, Listed};
use crate::whole::layer::layer;
use crate::whole::region::is_allowed;
use crate::whole::report::{counts, spelled, written};
use crate::whole::text::Reading;
use mesh_pipe::Event;
use std::alloc::Global;

const MOST_KEPT: usize = 4096;

fn text(case: &Case) -> &[u8] {
    match &case.bottom {
        Bottom::Text(text) => text.as_slice(),
        _ => &[],
    }
}

// The events of a bottom, each with its count from 1.
fn counted(alloc: Global, reading: &Reading) -> Made<Listed<Event>> {
    let mut items = Vec::new(alloc);
    let mut asked = 1usize;
    for event in &reading.events {
        items.push(Given {
            item: *event,
            asked,
        })?;
        asked = asked.saturating_add(1);
    }
    Ok(Listed {
        items,
        ends: reading.ends,
        asked,
    })
}

// What the layers make of a bottom, from the lowest up.
fn piled(alloc: Global, rules: &[Rule], reading: &Reading) -> Made<Listed<Event>> {
    let mut list = counted(alloc, reading)?;
    for rule in rules {
        list = layer(alloc, *rule, list)?;
    }
    Ok(list)
}

fn as_items(alloc: Global, list: Listed<Event>) -> Made<Listed<Item>> {
    let mut items = Vec::new(alloc);
    for given in &list.items {
        items.push(Given {
            item: Item::Event(given.item),
            asked: given.asked,
        })?;
    }
    Ok(Listed {
        items,
        ends: list.ends,
        asked: list.asked,
    })
}

// All that comes out at the top.
fn topped(alloc: Global, case: &Case, reading: &Reading) -> Made<Listed<Item>> {
    let list = piled(alloc, case.rules.as_slice(), reading)?;
    match case.top {
        Top::Events => as_items(alloc, list),
        Top::Border => border(alloc, list),
        Top::Report | Top::Stream => as_items(alloc, judge("report", list)),
    }
}

// How far the calls have come.
#[derive(Drop)]
struct Progress<'a> {
    alloc: Global,
    case: &'a Case,
    // how many bytes of the text are taken
    taken: usize,
    is_closed: bool,
    // what these give in all
    reading: Reading,
    list: Listed<Item>,
    // how many items were handed over
    handed: usize,
    // how many bytes were dropped
    dropped: usize,
    // how the report stands
    ends: Ends,
}

impl Progress<'_> {
    // What is given now that more was taken or that it was closed.
    fn refresh(&mut self) -> Made<()> {
        if let Some(reading) = given(self.alloc, &self.case.bottom, self.taken, self.is_closed)? {
            self.list = topped(self.alloc, self.case, &reading)?;
            self.reading = reading;
        }
        Ok(())
    }

    fn room(&self) -> usize {
        if self.is_closed {
            return 0;
        }
        MOST_KEPT.saturating_sub(self.taken.saturating_sub(self.dropped))
    }

    // So many events of the bottom were asked for, and no more, since a layer asks only where it has nothing to hand over: the reader
    // dropped the lines of these, or all that it can where it has fewer.
    fn drop_asked(&mut self, asked: usize) {
        let length = asked
            .checked_sub(1)
            .and_then(|index| self.reading.lengths.get(index).copied());
        self.dropped = self.dropped.max(length.unwrap_or(self.reading.settled));
    }

    fn feed(&mut self, length: usize) -> Made<Answer> {
        if self.is_closed {
            return Ok(Answer::Refused(1));
        }
        let length = piece(text(self.case), self.taken, length)
            .len()
            .min(self.room());
        self.taken = self.taken.saturating_add(length);
        if length > 0 {
            self.refresh()?;
        }
        Ok(Answer::Taken(length))
    }

    fn close(&mut self) -> Made<Answer> {
        if self.is_closed {
            return Ok(Answer::Refused(1));
        }
        self.is_closed = true;
        self.refresh()?;
        Ok(Answer::Closed)
    }

    fn next(&mut self) -> Answer {
        match self.list.items.get(self.handed).copied() {
            Some(given) => {
                self.handed = self.handed.saturating_add(1);
                self.drop_asked(given.asked);
                Answer::Item(given.item)
            }
            None => {
                self.drop_asked(self.list.asked);
                Answer::None(self.list.ends)
            }
        }
    }

    fn drain(&mut self, answers: &mut Vec<Answer>) -> Made<()> {
        for _ in 0..MOST_ASKED {
            let answer = self.next();
            let is_last = matches!(answer, Answer::None(_));
            answers.push(answer)?;
            if is_last {
                break;
            }
        }
        Ok(())
    }

    // A bounded run of the report.
    fn run(&mut self, most: u64) -> u64 {
        for taken in 0..most {
            if let Answer::None(ends) = self.next() {
                self.ends = ends;
                return taken;
            }
        }
        most
    }

    // What the report keeps of the events that it took.
    fn counts(&self) -> Made<Counts> {
        let mut events = Vec::new(self.alloc);
        for given in self.list.items.iter().take(self.handed) {
            if let Item::Event(item) = given.item {
                events.push(Given {
                    item,
                    asked: given.asked,
                })?;
            }
        }
        Ok(counts(events.as_slice()))
    }

    fn spell(&self, length: usize) -> Made<Answer> {
        let report = spelled(self.alloc, &self.counts()?, &self.ends)?;
        written(self.alloc, report.as_slice(), length)
    }

    fn answer(&mut self, call: Call, answers: &mut Vec<Answer>) -> Made<()> {
        match call {
            Call::Feed(length) => answers.push(self.feed(length)?)?,
            Call::Close => answers.push(self.close()?)?,
            Call::Next => answers.push(self.next())?,
            Call::Drain => self.drain(answers)?,
            Call::Run(most) => {
                answers.push(Answer::Ran(self.run(most)))?;
                answers.push(Answer::Report(self.counts()?, self.ends))?;
            }
            Call::Spell(length) => answers.push(self.spell(length)?)?,
        }
        Ok(())
    }

    // The report on a stream of text takes all that is pushed, and then its end.
    fn stream(&mut self) -> Made<()> {
        for call in &self.case.calls {
            if let Call::Feed(length) = call {
                let length = piece(text(self.case), self.taken, *length).len();
                self.taken = self.taken.saturating_add(length);
            }
        }
        self.is_closed = true;
        self.refresh()?;
        self.run(u64::MAX);
        Ok(())
    }
}

// What is answered to the calls, and the room after each if text is taken.
fn called(progress: &mut Progress<'_>) -> Made<Vec<Answer>> {
    let mut answers = Vec::new(progress.alloc);
    for call in &progress.case.calls {
        progress.answer(*call, &mut answers)?;
        if matches!(progress.case.bottom, Bottom::Text(_)) {
            answers.push(Answer::Room(progress.room()))?;
        }
    }
    Ok(answers)
}

fn is_refused(rule: &Rule) -> bool {
    match rule {
        Rule::Clip(region) => !is_allowed(*region),
        _ => false,
    }
}

// The answers to a case, by the rules.
pub fn answers(alloc: Global, case: &Case) -> Made<Vec<Answer>> {
    let Some(reading) = given(alloc, &case.bottom, 0, false)? else {
        return Ok(vec![in alloc; Answer::Refused(15)]?);
    };
    if case.rules.iter().any(is_refused) {
        return Ok(vec![in alloc; Answer::Refused(15)]?);
    }
    let mut progress = Progress {
        alloc,
        case,
        taken: 0,
        is_closed: false,
        list: topped(alloc, case, &reading)?,
        reading,
        handed: 0,
        dropped: 0,
        ends: Ends::Waiting,
    };
    if let Top::Stream = case.top {
        progress.stream()?;
        let report = Answer::Report(progress.counts()?, progress.ends);
        return Ok(vec![in alloc; report, progress.spell(256)?]?);
    }
    called(&mut progress)
}
