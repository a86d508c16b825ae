// Piles of layers over each bottom, and what stands on top.
use crate::answer::Answer;
use crate::case::{Region, Rule, Top};
use crate::library::answers::{
    Asking, inlet_answers, inlet_report, refused, stage_answers, stage_report,
};
use crate::library::layers::{
    put_border, put_check, put_clean, put_clip, put_compact, put_renumber,
};
use crate::library::region::AnyRegion;
use crate::memory::Made;
use mesh_pipe::{Event, Inlet, Stage};
use std::alloc::Global;

pub type Answers = Made<Vec<Answer>>;

// Puts the lowest of the layers on what is below and goes on with those above it: a type for each pile, so a function for each depth.
macro_rules! put_layer {
    ($below:ident, $rule:ident, $above:ident, $asking:ident, $next:ident) => {
        match *$rule {
            Rule::Check => $next(put_check($asking.alloc, $below)?, $above, $asking),
            Rule::Clean => $next(put_clean($asking.alloc, $below)?, $above, $asking),
            Rule::Clip(region) => match AnyRegion::new(region) {
                Ok(region) => $next(put_clip($asking.alloc, $below, region)?, $above, $asking),
                Err(refusal) => refused($asking, refusal),
            },
            Rule::Compact => $next(put_compact($asking.alloc, $below)?, $above, $asking),
            Rule::Renumber => $next(put_renumber($asking.alloc, $below)?, $above, $asking),
        }
    };
}

// Puts clip and two layers more on what is below.
macro_rules! put_upper {
    ($below:ident, $region:ident, $asking:ident, $fourth:ident, $fifth:ident, $top:ident) => {
        match AnyRegion::new($region) {
            Ok(region) => {
                let pile = put_clip($asking.alloc, $below, region)?;
                let pile = $fifth($asking.alloc, $fourth($asking.alloc, pile)?)?;
                $top(pile, &[], $asking)
            }
            Err(refusal) => refused($asking, refusal),
        }
    };
}

// Puts five layers on what is below, in one of three orders.
macro_rules! put_five {
    ($below:ident, $rules:ident, $asking:ident, $down:ident, $up:ident) => {
        match *$rules {
            [Rule::Check, Rule::Clean, Rule::Clip(region), ..] => {
                let pile = put_check($asking.alloc, $below)?;
                $up(put_clean($asking.alloc, pile)?, region, $asking)
            }
            [Rule::Compact, Rule::Check, Rule::Clip(region), ..] => {
                let pile = put_compact($asking.alloc, $below)?;
                $up(put_check($asking.alloc, pile)?, region, $asking)
            }
            [Rule::Renumber, Rule::Compact, Rule::Clip(region), ..] => {
                let pile = put_renumber($asking.alloc, $below)?;
                $down(put_compact($asking.alloc, pile)?, region, $asking)
            }
            _ => Ok(Vec::new($asking.alloc)),
        }
    };
}

fn top_of_inlet<S: Inlet<Item = Event> + Drop>(
    below: S,
    _above: &[Rule],
    asking: &Asking<'_>,
) -> Answers {
    match asking.case.top {
        Top::Events => inlet_answers(below, asking),
        Top::Border => inlet_answers(put_border(asking.alloc, below)?, asking),
        Top::Report | Top::Stream => inlet_report(below, asking),
    }
}

fn inlet_of_one<S: Inlet<Item = Event> + Drop>(
    below: S,
    rules: &[Rule],
    asking: &Asking<'_>,
) -> Answers {
    match rules {
        [] => top_of_inlet(below, rules, asking),
        [rule, above @ ..] => put_layer!(below, rule, above, asking, top_of_inlet),
    }
}

fn inlet_up_to_renumber<S: Inlet<Item = Event> + Drop>(
    below: S,
    region: Region,
    asking: &Asking<'_>,
) -> Answers {
    put_upper!(
        below,
        region,
        asking,
        put_compact,
        put_renumber,
        top_of_inlet
    )
}

fn inlet_up_to_check<S: Inlet<Item = Event> + Drop>(
    below: S,
    region: Region,
    asking: &Asking<'_>,
) -> Answers {
    put_upper!(below, region, asking, put_clean, put_check, top_of_inlet)
}

fn inlet_of_five<S: Inlet<Item = Event> + Drop>(
    below: S,
    rules: &[Rule],
    asking: &Asking<'_>,
) -> Answers {
    put_five!(
        below,
        rules,
        asking,
        inlet_up_to_check,
        inlet_up_to_renumber
    )
}

// The answers of a pile over an inlet: of at most two layers, or of five.
pub fn inlet<S: Inlet<Item = Event> + Drop>(
    below: S,
    rules: &[Rule],
    asking: &Asking<'_>,
) -> Answers {
    match rules {
        [] => top_of_inlet(below, rules, asking),
        _ if rules.len() > 2 => inlet_of_five(below, rules, asking),
        [rule, above @ ..] => put_layer!(below, rule, above, asking, inlet_of_one),
    }
}

fn top_of_stage<S: Stage<Item = Event> + Drop>(
    below: S,
    _above: &[Rule],
    asking: &Asking<'_>,
) -> Answers {
    match asking.case.top {
        Top::Events => stage_answers(below, asking),
        Top::Border => stage_answers(put_border(asking.alloc, below)?, asking),
        Top::Report | Top::Stream => stage_report(below, asking),
    }
}

fn stage_of_one<S: Stage<Item = Event> + Drop>(
    below: S,
    rules: &[Rule],
    asking: &Asking<'_>,
) -> Answers {
    match rules {
        [] => top_of_stage(below, rules, asking),
        [rule, above @ ..] => put_layer!(below, rule, above, asking, top_of_stage),
    }
}

fn stage_up_to_renumber<S: Stage<Item = Event> + Drop>(
    below: S,
    region: Region,
    asking: &Asking<'_>,
) -> Answers {
    put_upper!(
        below,
        region,
        asking,
        put_compact,
        put_renumber,
        top_of_stage
    )
}

fn stage_up_to_check<S: Stage<Item = Event> + Drop>(
    below: S,
    region: Region,
    asking: &Asking<'_>,
) -> Answers {
    put_upper!(below, region, asking, put_clean, put_check, top_of_stage)
}

fn stage_of_five<S: Stage<Item = Event> + Drop>(
    below: S,
    rules: &[Rule],
    asking: &Asking<'_>,
) -> Answers {
    put_five!(
        below,
        rules,
        asking,
        stage_up_to_check,
        stage_up_to_renumber
    )
}

// The answers of a pile over a stage that takes no text: of at most two layers, or of five.
pub fn stage<S: Stage<Item = Event> + Drop>(
    below: S,
    rules: &[Rule],
    asking: &Asking<'_>,
) -> Answers {
    match rules {
        [] => top_of_stage(below, rules, asking),
        _ if rules.len() > 2 => stage_of_five(below, rules, asking),
        [rule, above @ ..] => put_layer!(below, rule, above, asking, stage_of_one),
    }
}
