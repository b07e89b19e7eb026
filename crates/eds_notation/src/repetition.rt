// Whether the variant that ends stands in its segment already. `write` asks this too; asked here, the place in the text is known.
ghost use Rattle.std.specs.Prelude.{◌≡◌, ◌≤◌, length};
ghost use Rattle.eds_notation.specs.Filling.{stands};

use text::from_end::alike_from_end;

// Whether the last `spelt` letters of a segment spell what one of its variants of these lengths spells. A length that goes beyond the
// letters, as no tape has it, ends with them.
pub(crate) fn stands(letters: &[u8], lengths: &[u16], spelt: usize) -> bool
    requires { spelt ≤ length letters.now }
    ensures { result ≡ stands letters.now lengths.now spelt }
{
    let end = letters.len();
    let variant = &letters[end - spelt..];
    let mut start = 0;
    for length in lengths {
        let size = usize::from(*length).min(end - start);
        let next = start + size;
        if alike_from_end(variant, &letters[start..next]) {
            return true;
        }
        start = next;
    }
    false
}
