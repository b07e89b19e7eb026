// What is written: lines on standard output, those that decide on descriptor 3 too, and words and progress on standard error.
use desk_night::{Trouble, Verdict, put_verdict};
use desk_verdict::said::{put_done, put_hit, put_named, put_refused, put_standing};
use desk_verdict::{Standing, next_marked};
use files::{Told, given_to_append, say, say_line, write_all};
use text::{Refusal, part};

// Room for a line with a file's name, the longest of which has 4,096 bytes.
const LINE: usize = 4352;

// The descriptor that the lines go to that decide.
const DECIDED: u32 = 3;

// Lines that decide nothing by themselves.
pub fn print(rt: &HostRuntime, lines: &[u8]) -> Result<(), Told> {
    write_all(&mut rt.stdout(), lines).map_err(|_| {
        say_line(rt, "desk: standard output could not be written");
        Told
    })
}

// A line that decides: once it is written, on descriptor 3 as well, if the caller opened it.
fn decide(rt: &HostRuntime, line: &[u8]) {
    if print(rt, line).is_ok() {
        if let Ok(mut file) = given_to_append(rt, DECIDED) {
            let _ = write_all(&mut file, line);
        }
    }
}

// One segment in which a sequence ends.
pub fn tell_hit(
    rt: &HostRuntime,
    label: u64,
    before: u64,
    segment: u64,
    name: &[u8],
) -> Result<(), Told> {
    let mut out = [0u8; LINE];
    let n = put_hit(label, before, segment, name, &mut out);
    print(rt, &out[..n])
}

// Each marked segment of a file.
pub fn tell_hits(
    rt: &HostRuntime,
    label: u64,
    before: u64,
    name: &[u8],
    marks: &[u8],
) -> Result<(), Told> {
    let mut from = 0;
    for _ in 0..marks.len() {
        let Some(segment) = next_marked(marks, from) else {
            break;
        };
        tell_hit(rt, label, before, segment as u64, name)?;
        from = segment.saturating_add(1);
    }
    Ok(())
}

// A word that decides, and the file that it is about.
pub fn tell_named(rt: &HostRuntime, word: &[u8], name: &[u8]) {
    let mut out = [0u8; LINE];
    let n = put_named(word, name, &mut out, 0);
    decide(rt, part(&out, 0, n));
}

// A file that is refused.
pub fn tell_refused(rt: &HostRuntime, wrong: Refusal, name: &[u8]) {
    let mut out = [0u8; LINE];
    let n = put_refused(wrong, name, &mut out);
    decide(rt, &out[..n]);
}

// Where a sequence stands after the whole text.
pub fn tell_standing(rt: &HostRuntime, label: u64, standing: Standing) -> Result<(), Told> {
    let mut out = [0u8; 128];
    let n = put_standing(label, standing, &mut out);
    print(rt, &out[..n])
}

// Whether the text may go out.
pub fn tell_verdict(rt: &HostRuntime, verdict: Result<Verdict, Trouble>) {
    let mut out = [0u8; 8];
    let n = put_verdict(verdict, &mut out);
    decide(rt, &out[..n]);
}

// Progress: that many stretches of all are done, some twenty times in all, and at the last.
pub fn tell_done(rt: &HostRuntime, done: usize, all: usize, last: bool) {
    let step = all / 20 + 1;
    if last || done == all || done % step == 0 {
        let mut out = [0u8; 64];
        let n = put_done(done as u64, all as u64, &mut out);
        say(rt, &out[..n]);
    }
}
