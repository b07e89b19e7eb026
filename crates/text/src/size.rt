// Sizes: what a variant counts in the size of a text.
ghost use Rattle.std.specs.Prelude.{◌≡◌};
ghost use Rattle.text.specs.Text.{counted};

// What a variant of that many letters counts: its letters, and the empty variant as one, as the partners' sheets have it.
pub fn counted(letters: usize) -> usize
    ensures { result ≡ counted letters }
{
    if letters == 0 {
        return 1;
    }
    letters
}
