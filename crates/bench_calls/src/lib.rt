// The calls that have no C form, for the bench: one number answers, so that they are measured in one program beside those that have one.
// They make no promise of their own. A call that is too short to be measured by itself stands after one that is measured too.
#![tactic(auto)]

use card::{Asked, Card};
use search::State;
use stretch::{Checked, Written};
use test_lists::List;
use text::strand::Strand;
use watch::Found;

// The check of a stretch: its size, or the number of its refusal.
#[unsafe(no_mangle)]
pub extern "C" fn bench_check(stretch: &[u8]) -> u64 {
    match stretch::check(stretch) {
        Checked::Sound { segments: _, size } => size as u64,
        Checked::Refused(wrong) => wrong.number,
    }
}

// The card of a stretch: its segments, 0 where it is refused.
#[unsafe(no_mangle)]
pub extern "C" fn bench_card(pattern: &[u8], stretch: &[u8]) -> u64 {
    let made = Card::of(pattern, Strand::Given, stretch);
    made.card.segments as u64
}

// The state that a card tells after the fresh one, or the number of its refusal.
fn asked(card: Card) -> u64 {
    match card.ask(State::FRESH) {
        Asked::Told { state, first: _ } => state.bits,
        Asked::Refused(wrong) => wrong.number,
    }
}

// The card of a stretch, asked with the fresh state.
#[unsafe(no_mangle)]
pub extern "C" fn bench_ask(pattern: &[u8], stretch: &[u8]) -> u64 {
    let made = Card::of(pattern, Strand::Given, stretch);
    asked(made.card)
}

// The card of a stretch, joined with itself, and then asked with the fresh state.
#[unsafe(no_mangle)]
pub extern "C" fn bench_join(pattern: &[u8], stretch: &[u8]) -> u64 {
    let made = Card::of(pattern, Strand::Given, stretch);
    let both = made.card.join(made.card);
    asked(both.card)
}

// A watch list of that many records, all of one pattern.
fn watched(pattern: &[u8], n: usize) -> List {
    let mut list = List::empty();
    for _ in 0..n {
        list.push(pattern, 0);
    }
    list
}

// The first record of such a list that ends: above the lowest byte its segment or the greatest number of 32 bits, or in it the number of
// the refusal.
#[unsafe(no_mangle)]
pub extern "C" fn bench_watch(pattern: &[u8], n: usize, stretch: &[u8]) -> u64 {
    match watched(pattern, n).first(stretch) {
        Found::Ends { label: _, segment } => (segment as u64) << 8,
        Found::None => 0xffff_ffff << 8,
        Found::Refused(wrong) => wrong.number,
    }
}

// The stretch of a window from a variant file: above the lowest byte the bytes that it has, or in it the number of the refusal and
// above it its place.
#[unsafe(no_mangle)]
pub extern "C" fn bench_build(
    file: &[u8],
    window: &[u8],
    first: usize,
    name: &[u8],
    out: &mut [u8],
) -> u64 {
    match vcf::build(file, window, first, name, &mut *out) {
        Written::Bytes(bytes) => (bytes as u64) << 8,
        Written::Refused(wrong) => ((wrong.place as u64) << 8) | wrong.number,
    }
}
