// Every sequence of the list, taken over one stretch.
ghost use Rattle.std.specs.Prelude.{◌≡◌, ◌<◌};
ghost use Rattle.desk_night.specs.Sweep.{turned, swept};

use crate::moving::moved_by;
use crate::trouble::Trouble;
use desk_list::{MOST, line_at};
use desk_verdict::Standing;
use text::part;

// Where each sequence stands, and the first refusal.
#[derive(Clone, Copy)]
pub struct Swept {
    pub standings: [Standing; MOST],
    pub trouble: Option<Trouble>,
}

// Takes sequence k. One that is refused stays where it stands.
fn turn(done: Swept, k: usize, first: bool, pattern: &[u8], stretch: &[u8]) -> Swept
    requires { k < 32 }
    ensures { result ≡ turned first stretch.now pattern.now k done }
{
    match moved_by(first, pattern, done.standings[k], stretch) {
        Ok(reached) => {
            let mut next = done;
            next.standings[k] = reached;
            next
        }
        Err(wrong) => Swept {
            trouble: done.trouble.or(Some(Trouble::from(wrong))),
            ..done
        },
    }
}

// Takes every sequence of the list, in order; also those after one that is refused, so that where each stands is known. After the last
// that a list may have, no line is read.
pub fn sweep(standings: [Standing; MOST], first: bool, list: &[u8], stretch: &[u8]) -> Swept
    ensures { result ≡ swept first list.now stretch.now standings }
{
    let mut sweep = Swept {
        standings,
        trouble: None,
    };
    let mut k = 0;
    let mut at = 0;
    while let Some(line) = line_at(list, at) {
        at = line.next;
        let Some(withheld) = line.said.unwrap_or(None) else {
            continue;
        };
        let pattern = part(list, withheld.start, withheld.end);
        sweep = turn(sweep, k, first, pattern, stretch);
        k += 1;
        if k == MOST {
            return sweep;
        }
    }
    sweep
}
