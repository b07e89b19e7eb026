// The lines of the input, one after another. The heading above a line, which starts with =, is the name of its group. Nothing comes of
// an empty line or a comment.
use crate::notation::behind;
use test_reference::places::put_part;
use test_tally::{GROUPS, Tally, tell};

// The first letter of a line's call, where it has one.
pub fn call(line: &[u8]) -> Option<u8> {
    match line.first() {
        None | Some(b'#' | b'=' | 0) => None,
        Some(letter) => Some(*letter),
    }
}

// Puts the names of all headings, a line each.
fn put_names(out: &mut [u8], input: &[u8]) {
    let mut at = 0;
    for line in input.split(|byte| *byte == b'\n') {
        if line.starts_with(b"=") {
            let end = put_part(&mut *out, at, behind(line, b' '));
            at = put_part(&mut *out, end, b"\n");
        }
    }
}

// Has every line of the input judged, with its group, into a tally at its number, which is counted from 1 on; and prints the first answer
// that differs, how many examples there were of each group, and the counts.
pub fn run<F: FnMut(&mut Tally, usize, &[u8])>(rt: &HostRuntime, input: &[u8], mut judge: F)
    requires { F.IsAlwaysCallable judge }
{
    let mut tally = Tally::NONE;
    // The group before group 0, counted modulo their number.
    let mut group = GROUPS - 1;
    let mut number = 0u64;
    for line in input.split(|byte| *byte == b'\n') {
        number = number.wrapping_add(1);
        if line.starts_with(b"=") {
            group = group.wrapping_add(1);
        }
        tally.next(number);
        judge(&mut tally, group, line);
    }
    let mut names = [0u8; 1024];
    put_names(&mut names, input);
    tell(rt, &tally, &names, b" examples, ");
}
