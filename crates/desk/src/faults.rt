// What is wrong with a list or a text, in words on standard error, and by a line that decides.
use crate::listed::Lines;
use crate::tell::{tell_named, tell_refused};
use desk_list::Fault;
use desk_night::Trouble;
use desk_verdict::said::put_fault;
use files::{Told, say, say_line, tell};

// The most faulty lines that are told.
const MOST_TOLD: usize = 20;

// What is wrong with a line of the list.
fn meaning(fault: Fault) -> &'static str {
    match fault {
        Fault::Byte(_) => "it has a byte that is not printable ASCII or a tab",
        Fault::NoLabel => "it does not begin with a number",
        Fault::LargeLabel => "its number is over 18446744073709551615",
        Fault::NoSequence => "no sequence stands after its number, parted by a blank",
        Fault::Sequence(_) => "its sequence is not 1 to 64 of the letters A, C, G and T",
        Fault::More => "more than a comment stands after its sequence",
    }
}

// Every faulty line of a list with its number, up to the last that is told.
fn tell_faults(rt: &HostRuntime, list: &[u8]) {
    let faults = Lines::of(list)
        .enumerate()
        .filter_map(|(i, line)| line.said.err().map(|fault| (i, fault)));
    for (i, fault) in faults.take(MOST_TOLD) {
        let mut out = [0u8; 64];
        let n = put_fault(i.saturating_add(1) as u64, &mut out);
        say(rt, &out[..n]);
        say_line(rt, meaning(fault));
    }
}

// Fails if a trouble is that of the list, and says what is wrong with it. Nothing is printed of it: without a list there is no verdict.
pub fn tell_list(rt: &HostRuntime, list: &[u8], trouble: Option<Trouble>) -> Result<(), Told> {
    match trouble {
        Some(Trouble::List) => tell_faults(rt, list),
        Some(Trouble::Empty) => say_line(rt, "the list has no sequence"),
        Some(Trouble::Many) => say_line(rt, "the list has more than 32 sequences"),
        _ => return Ok(()),
    }
    Err(Told)
}

// What is wrong with the text of this manifest.
pub fn tell_text(rt: &HostRuntime, trouble: Trouble, name: &[u8]) {
    let reason = match trouble {
        Trouble::Foreign => {
            "this is no manifest of a text: its first line is not '# cerantuh text 1'"
        }
        Trouble::Altered => {
            "its last line is not the digest of the lines before it: it was cut or changed"
        }
        Trouble::Line => "a line is neither a comment nor a digest, two blanks and a name",
        Trouble::NoStretch => "it lists no stretch",
        Trouble::Counts => "its counts are not those of its stretches",
        Trouble::Missing => "not all of its stretches were read",
        _ => return,
    };
    tell(rt, name, reason);
    if matches!(trouble, Trouble::Missing) {
        tell_named(rt, b"missing ", name);
    } else {
        tell_named(rt, b"unsound ", name);
    }
}

// What is wrong with the stretch of this file, if something is.
pub fn tell_stretch(rt: &HostRuntime, trouble: Option<Trouble>, name: &[u8]) {
    match trouble {
        Some(Trouble::Unread) => tell_named(rt, b"unread ", name),
        Some(Trouble::Changed) => {
            tell(
                rt,
                name,
                "this is not the stretch whose digest the manifest has",
            );
            tell_named(rt, b"changed ", name);
        }
        Some(Trouble::Added) => tell_named(rt, b"added ", name),
        Some(Trouble::Refused(wrong)) => tell_refused(rt, wrong, name),
        _ => {}
    }
}
