// The marked segments, one after another.
ghost use Rattle.std.specs.Prelude.{◌≡◌, ◌≤◌, IfSome};
ghost use Rattle.desk_verdict.specs.Standing.{next_mark};

// The first marked segment from `from` on, if there is one.
pub fn next_marked(marks: &[u8], from: usize) -> Option<usize>
    ensures value { result ≡ next_mark marks.now from }
    ensures onward { IfSome result (λ j. from ≤ j) }
{
    for j in from..marks.len() {
        if marks[j] == 1 {
            return Some(j);
        }
    }
    None
}
