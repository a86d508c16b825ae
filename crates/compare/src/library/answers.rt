// The library's answers to calls.
use crate::answer::{Answer, Ends, Item};
use crate::case::{Bottom, Call, Case, MOST_ASKED, Top, UNWRITTEN, piece};
use crate::library::piles::{Answers, inlet, stage};
use crate::memory::Made;
use mesh_pipe::{Event, Grid, Inlet, ListStage, Refusal, Report, Stage, TextReader, text_report};
use std::alloc::Global;

// What is asked, and where the answers lie.
#[derive(Clone, Copy)]
pub struct Asking<'a> {
    pub alloc: Global,
    pub case: &'a Case,
    pub text: &'a [u8],
}

pub fn refused(asking: &Asking<'_>, refusal: Refusal) -> Answers {
    Ok(vec![in asking.alloc; Answer::Refused(refusal.number())]?)
}

fn next<S: Stage + Drop>(stage: &mut S) -> Answer
where
    S::Item: Into<Item>,
{
    match stage.next() {
        Ok(item) => Answer::Item(item.into()),
        Err(standing) => Answer::None(Ends::from(standing)),
    }
}

// Answers the calls that any stage answers.
fn ask<S: Stage + Drop>(stage: &mut S, call: Call, answers: &mut Vec<Answer>) -> Made<()>
where
    S::Item: Into<Item>,
{
    match call {
        Call::Next => answers.push(next(stage))?,
        Call::Drain => {
            for _ in 0..MOST_ASKED {
                let answer = next(stage);
                let is_last = matches!(answer, Answer::None(_));
                answers.push(answer)?;
                if is_last {
                    break;
                }
            }
        }
        _ => {}
    }
    Ok(())
}

// Answers the calls of a report on a stage.
fn report_on<S: Stage<Item = Event> + Drop>(
    report: &mut Report,
    stage: &mut S,
    call: Call,
    answers: &mut Vec<Answer>,
) -> Made<()> {
    match call {
        Call::Run(most) => {
            answers.push(Answer::Ran(report.run(stage, most)))?;
            answers.push(shown(report))?;
        }
        Call::Spell(length) => answers.push(spelled(*answers.allocator(), report, length)?)?,
        _ => {}
    }
    Ok(())
}

fn shown(report: &Report) -> Answer {
    Answer::Report(report.totals().into(), report.standing().into())
}

fn spelled(alloc: Global, report: &Report, length: usize) -> Made<Answer> {
    let mut buffer = vec![in alloc; UNWRITTEN; length]?;
    let length = report.spell(&mut buffer).map_err(Refusal::number);
    Ok(Answer::Spelled { length, buffer })
}

// Feeds the next bytes of the text and counts those taken, or closes.
fn feed_or_close<S: Inlet + Drop>(
    stage: &mut S,
    call: Call,
    text: &[u8],
    taken: &mut usize,
) -> Option<Answer> {
    match call {
        Call::Feed(length) => Some(match stage.feed(piece(text, *taken, length)) {
            Ok(count) => {
                *taken = taken.saturating_add(count);
                Answer::Taken(count)
            }
            Err(refusal) => Answer::Refused(refusal.number()),
        }),
        Call::Close => Some(match stage.close() {
            Ok(()) => Answer::Closed,
            Err(refusal) => Answer::Refused(refusal.number()),
        }),
        _ => None,
    }
}

pub fn inlet_answers<S: Inlet + Drop>(mut stage: S, asking: &Asking<'_>) -> Answers
where
    S::Item: Into<Item>,
{
    let mut answers = Vec::new(asking.alloc);
    let mut taken = 0;
    for call in &asking.case.calls {
        answers.extend(feed_or_close(&mut stage, *call, asking.text, &mut taken))?;
        ask(&mut stage, *call, &mut answers)?;
        answers.push(Answer::Room(stage.room()))?;
    }
    Ok(answers)
}

pub fn stage_answers<S: Stage + Drop>(mut stage: S, asking: &Asking<'_>) -> Answers
where
    S::Item: Into<Item>,
{
    let mut answers = Vec::new(asking.alloc);
    for call in &asking.case.calls {
        ask(&mut stage, *call, &mut answers)?;
    }
    Ok(answers)
}

pub fn inlet_report<S: Inlet<Item = Event> + Drop>(mut stage: S, asking: &Asking<'_>) -> Answers {
    let mut answers = Vec::new(asking.alloc);
    let mut report = Report::new();
    let mut taken = 0;
    for call in &asking.case.calls {
        answers.extend(feed_or_close(&mut stage, *call, asking.text, &mut taken))?;
        report_on(&mut report, &mut stage, *call, &mut answers)?;
        answers.push(Answer::Room(stage.room()))?;
    }
    Ok(answers)
}

pub fn stage_report<S: Stage<Item = Event> + Drop>(mut stage: S, asking: &Asking<'_>) -> Answers {
    let mut answers = Vec::new(asking.alloc);
    let mut report = Report::new();
    for call in &asking.case.calls {
        report_on(&mut report, &mut stage, *call, &mut answers)?;
    }
    Ok(answers)
}

// The report on all that is pushed.
fn stream_report(asking: &Asking<'_>) -> Answers {
    let mut report = text_report();
    let mut taken = 0usize;
    for call in &asking.case.calls {
        if let Call::Feed(length) = call {
            let piece = piece(asking.text, taken, *length);
            taken = taken.saturating_add(piece.len());
            report.push(piece);
        }
    }
    let report = report.finish();
    Ok(vec![in asking.alloc; shown(&report), spelled(asking.alloc, &report, 256)?]?)
}

fn over_text(asking: &Asking<'_>) -> Answers {
    match asking.case.top {
        Top::Stream => stream_report(asking),
        _ => inlet(TextReader::new(), asking.case.rules.as_slice(), asking),
    }
}

// The answers to a case, by the library.
pub fn answers(alloc: Global, case: &Case) -> Answers {
    let rules = case.rules.as_slice();
    match &case.bottom {
        Bottom::Text(text) => over_text(&Asking {
            alloc,
            case,
            text: text.as_slice(),
        }),
        Bottom::List(records) => stage(
            ListStage::new(records.as_slice()),
            rules,
            &Asking {
                alloc,
                case,
                text: &[],
            },
        ),
        Bottom::Grid {
            columns,
            rows,
            step,
        } => {
            let asking = Asking {
                alloc,
                case,
                text: &[],
            };
            match Grid::new(*columns, *rows, *step) {
                Ok(grid) => stage(grid, rules, &asking),
                Err(refusal) => refused(&asking, refusal),
            }
        }
    }
}
