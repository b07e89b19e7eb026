// The list as a whole: whether every line is right, and how many sequences there are.
ghost use Rattle.std.specs.Prelude.{◌≡◌};
ghost use Rattle.desk_list.specs.Lines.{counted, checked_of};

use crate::reading::line_at;

// The most sequences of a list.
pub const MOST: usize = 32;

// What is wrong with a list: a line; it has no sequence; or it has more than 32.
#[derive(Clone, Copy)]
pub enum Unsound {
    Wrong,
    Empty,
    Many,
}

// What is said of a list with right lines and that many sequences.
#[tactic(auto, unfolding(crate::specs::Lines::counted))]
fn counted(count: usize) -> Result<usize, Unsound>
    ensures { result ≡ counted count }
{
    if count == 0 {
        return Err(Unsound::Empty);
    }
    if MOST < count {
        return Err(Unsound::Many);
    }
    Ok(count)
}

// The number of the sequences of a list, 1 to 32, if every line of it is right.
pub fn check(list: &[u8]) -> Result<usize, Unsound>
    ensures { result ≡ checked_of list.now }
{
    let mut at = 0;
    let mut count = 0;
    while let Some(line) = line_at(list, at) {
        match line.said {
            Ok(Some(_)) => count += 1,
            Ok(None) => {}
            Err(_) => return Err(Unsound::Wrong),
        }
        at = line.next;
    }
    counted(count)
}
