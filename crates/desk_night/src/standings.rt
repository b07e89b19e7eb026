// The standings of the sequences of a list, asked together.
ghost use Rattle.std.specs.Prelude.{◌≡◌, min};
ghost use Rattle.desk_night.specs.Standings.{some_end, all_end};

use desk_list::MOST;
use desk_verdict::Standing;

// Whether one of that many sequences has ended.
pub fn some_end(standings: &[Standing; MOST], count: usize) -> bool
    ensures { result ≡ some_end (min count 32) standings.now }
{
    standings[..count.min(MOST)]
        .iter()
        .any(|standing| standing.ends != 0)
}

// Whether all of that many sequences have ended.
pub fn all_end(standings: &[Standing; MOST], count: usize) -> bool
    ensures { result ≡ all_end (min count 32) standings.now }
{
    standings[..count.min(MOST)]
        .iter()
        .all(|standing| standing.ends != 0)
}
