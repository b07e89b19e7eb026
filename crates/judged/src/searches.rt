// The calls on patterns and states, as the lines give them.
use search::{Searched, State};
use test_examples::notation::{number, raw, stretch, word};
use test_examples::pattern;
use test_reference::Bytes;
use test_tally::{Answer, held_in};
use text::strand::Strand;

// The state that is the word of that number.
fn state(line: &[u8], k: usize) -> State {
    State {
        bits: number(line, k) as u64,
    }
}

// feed PATTERN state SEGMENT = state ends
#[inline(never)]
pub fn feed(line: &[u8]) -> Answer {
    let segment = Bytes::<40000>::put(|out| stretch(out, word(line, 3), 0));
    let (p, strand) = pattern(line);
    Answer::from(state(line, 2).feed(p, strand, segment.as_slice()))
}

// lengths state = count shortest: what a state carries.
pub fn lengths(line: &[u8]) -> Answer {
    let carried = state(line, 1).carried();
    Answer::told(carried.count as usize, carried.shortest as usize, 0)
}

// search PATTERN STRETCH MARKS = segments size ends, and united: into eight marks, each 7 before.
#[inline(never)]
pub fn sought<F: FnOnce(&[u8], Strand, &[u8], &mut [u8]) -> Searched>(
    line: &[u8],
    search: F,
) -> Answer
    requires { F.IsAlwaysCallable search }
{
    let text = crate::text(line, 2);
    let (p, strand) = pattern(line);
    held_in::<8, _, _>(
        7,
        |left| raw(left, word(line, 3)),
        |marks| Answer::from(search(p, strand, text.as_slice(), marks)),
    )
}
