// A text cut into two stretches: the search of the second goes on from what the first told.
use test_random::Case;
use test_random::drawn::stretch;
use test_reference::Bytes;
use text::refusal::Refusal;

// What a search told: the segments, how many of them are marked, and the state after them.
#[derive(Clone, Copy)]
pub struct Come<S> {
    pub segments: usize,
    pub ends: usize,
    pub state: S,
}

// A text cut after that many of its segments, from a state on: the marks of the second stretch go after those of the first.
pub fn parted<S: Copy + Drop, F: Fn(S, &[u8], &mut [u8]) -> Result<Come<S>, Refusal>>(
    case: &Case,
    cut: usize,
    state: S,
    marks: &mut [u8],
    search: F,
) -> Result<Come<S>, Refusal>
    requires { F.IsAlwaysCallable search }
{
    let bytes = case.bytes.as_slice();
    let front = Bytes::<2048>::put(|out| stretch(out, bytes, 0, cut));
    let back = Bytes::<2048>::put(|out| stretch(out, bytes, cut, case.segments()));
    let first = search(state, front.as_slice(), &mut *marks)?;
    let Some(rest) = marks.get_mut(first.segments..) else {
        return Ok(first);
    };
    let second = search(first.state, back.as_slice(), rest)?;
    Ok(Come {
        segments: first.segments.wrapping_add(second.segments),
        ends: first.ends.wrapping_add(second.ends),
        state: second.state,
    })
}
