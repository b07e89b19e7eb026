// Runs examples of windows and variant files on the library's call. Standard input has them, a line each: a call, what it is given, and
// after = or ! what it is to answer. Prints how many there were of each group, the first that differs, and the counts.
#![tactic(auto)]

mod windows;

use files::fill;
use test_examples::{call, run, wanted};
use test_tally::{Answer, Tally};

// The answer of a call, which is known by its first letter: build. A line of no known call has none that is right.
fn answer(call: u8, line: &[u8]) -> Answer {
    match call {
        b'b' => windows::build(line),
        _ => Answer::refused(101, 0),
    }
}

// What a line counts.
fn judge(tally: &mut Tally, group: usize, line: &[u8]) {
    if let Some(call) = call(line) {
        tally.compare(group, answer(call, line), wanted(line));
    }
}

// A function of its own, since an array of that many bytes is too long for the proof of `main`.
fn room() -> [u8; 1000000] {
    [0u8; 1000000]
}

fn main(rt: HostRuntime) {
    let mut input = room();
    let examples = fill(&mut rt.stdin(), &mut input)
        .unwrap_or(None)
        .unwrap_or(&[]);
    run(&rt, examples, judge);
}
