// Runs examples on the library's calls. Standard input has them, a line each: a call, what it is given, and after = or ! what it is to
// answer. Prints how many there were of each group, the first that differs, and the counts.
#![tactic(auto)]

mod cards;
mod lists;
mod reads;
mod searches;
mod writes;

use cards::Cards;
use files::fill;
use search::{by_bits, by_borders, either};
use test_examples::notation::{number, stretch, word};
use test_examples::{call, run, wanted};
use test_reference::Bytes;
use test_tally::{Answer, Tally};

// The stretch that is the word of that number.
fn text(line: &[u8], k: usize) -> Bytes<40000> {
    Bytes::<40000>::put(|out| stretch(out, word(line, k), 2))
}

// The answer of a call on a stretch. It is a call of its own, so that there is one stretch for all of them.
fn answer_on(call: u8, line: &[u8], text: &[u8]) -> Answer {
    match call {
        b'c' => Answer::from(stretch::check(text)),
        b'r' => reads::read(line, text),
        b'R' => reads::read_kept(line, text),
        b'w' => writes::write(line, text),
        b'k' => lists::known(line, text),
        b't' => lists::ticked(line, text),
        _ => Answer::refused(101, 0),
    }
}

// The answer of a call, which is known by its first letter: S is a search by border tables, R a read by a reader that keeps the stretch.
// A line of no known call has none that is right.
fn answer(call: u8, line: &[u8]) -> Answer {
    match call {
        b'S' => searches::sought(line, |p, strand, text, marks| {
            by_borders(p, strand, text, marks)
        }),
        b's' => searches::sought(line, |p, strand, text, marks| {
            by_bits(p, strand, text, marks)
        }),
        b'u' => searches::sought(line, |p, _, text, marks| either(p, text, marks)),
        b'f' => searches::feed(line),
        b'l' => searches::lengths(line),
        _ => {
            let k = if call == b'w' { 5 } else { 1 };
            answer_on(call, line, text(line, k).as_slice())
        }
    }
}

// What a line counts. A search and a read are done both ways.
fn compare(tally: &mut Tally, group: usize, call: u8, line: &[u8]) {
    let wanted = wanted(line);
    tally.compare(group, answer(call, line), wanted);
    match call {
        b's' => tally.compare(group, answer(b'S', line), wanted),
        b'r' => tally.compare(group, answer(b'R', line), wanted),
        _ => {}
    }
}

// What a line counts, and does to the cards: ask, broken, equal, join, make and put speak of them.
fn judge(tally: &mut Tally, group: usize, cards: &mut Cards, line: &[u8]) {
    let Some(call) = call(line) else {
        return;
    };
    match call {
        b'a' => tally.compare(group, cards.ask(number(line, 1)), wanted(line)),
        b'b' => cards.broken(&mut *tally, group),
        b'e' => cards::rows(&mut *tally, group, &cards.joined(), &cards::of(line)),
        b'j' => {
            let joined = cards.joined();
            cards::compare(&mut *tally, group, &joined, number(line, 1), wanted(line));
        }
        b'm' => {
            cards.make(line);
            cards::compare(
                &mut *tally,
                group,
                &cards.right,
                number(line, 3),
                wanted(line),
            );
        }
        b'p' => cards.put(line),
        _ => compare(&mut *tally, group, call, line),
    }
}

fn main(rt: HostRuntime) {
    let mut input = [0u8; 65536];
    let examples = fill(&mut rt.stdin(), &mut input)
        .unwrap_or(None)
        .unwrap_or(&[]);
    let mut cards = Cards::new();
    run(&rt, examples, |tally, group, line| {
        judge(tally, group, &mut cards, line)
    });
}
