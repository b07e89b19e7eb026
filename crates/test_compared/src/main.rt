// Compares every call with a reader and a search straight from the definitions, on random texts, whole and cut, and on damaged stretches.
// Prints what was compared and how often, and the first difference of each part.
#![tactic(auto)]

mod cards;
mod lists;
mod parts;
mod searches;
mod states;
mod strands;
mod stretches;

use std::ops::Range;
use test_random::{CASES, Case, STRETCHES};
use test_reference::Wrong;
use test_tally::{Answer, Tally, tell};

// The first end where none is.
const NONE: usize = 4294967295;

// What a call is to answer where the reference refuses.
fn refused(wrong: Wrong) -> Answer {
    Answer::refused(wrong.refusal as u64, wrong.place)
}

// Has the cases of these numbers compared, and prints what was counted.
fn run<F: Fn(&mut Tally, &Case)>(rt: &HostRuntime, numbers: Range<u64>, names: &[u8], compare: F)
    requires { F.IsAlwaysCallable compare }
{
    let mut tally = Tally::NONE;
    for number in numbers {
        tally.next(number);
        compare(&mut tally, &Case::of(number));
    }
    tell(rt, &tally, names, b" comparisons, ");
}

fn main(rt: HostRuntime) {
    run(&rt, 0..CASES, searches::NAMES, searches::compare);
    run(&rt, STRETCHES..CASES, strands::NAMES, strands::compare);
    run(&rt, 0..CASES, states::NAMES, states::compare);
    run(&rt, 0..CASES, cards::NAMES, cards::compare);
    run(&rt, 0..STRETCHES, stretches::NAMES, stretches::compare);
    run(&rt, 0..STRETCHES, lists::NAMES, lists::compare);
}
