// A word that is compared with a name as it comes, byte by byte.
ghost use Rattle.std.specs.Prelude.{◌≡◌};
ghost use Rattle.pool_files.specs.Words.{go_on};

// The word differs from the name. A number and no `None`: the theorems `matched-is` and `name-matched` speak of numbers.
const OTHER: usize = usize::MAX;

// How many bytes of the word are the name's first, with one byte more.
#[tactic(auto, unfolding(crate::specs::Words::go_on))]
pub fn go_on(name: &[u8], matched: usize, byte: u8) -> usize
    ensures { result ≡ go_on name.now matched byte }
{
    if matched < name.len() && name[matched] == byte {
        return matched + 1;
    }
    OTHER
}
