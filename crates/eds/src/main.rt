// Texts in braces and stretches. With the word -d standard input is a stretch, and its braces are printed, or its refusal. Else
// standard input is a text in braces, the first word a file's name and the second what the manifest calls its source: the stretches go into
// files of that name and a number, and the manifest into the file of that name. What is printed then is how many stretches were written,
// or what is wrong and its line and column.
#![tactic(auto)]

mod back;
mod forth;

use crate::back::print_braces;
use crate::forth::convert;
use files::{WORD, word};

fn main(rt: HostRuntime) {
    let mut name = [0u8; WORD];
    let name = word(&rt, 1, &mut name);
    if name == b"-d".as_slice() {
        print_braces(&rt);
    } else {
        // What failed has been said, and the script reads the rest off what is printed.
        let _ = convert(&rt, name);
    }
}
