// The bytes of a variant, put into a buffer where they have room, and the place after them.
ghost use Rattle.std.specs.Prelude.{◌≡◌};
ghost use Rattle.text.specs.Letter.{meant};
ghost use Rattle.layout.specs.Bytes.{put};
ghost use Rattle.layout.specs.Encoding.{encode_variant};
ghost use Rattle.layout.specs.Sizes.{after_variant, saturated};

use crate::number::{has_room, put_word};
use crate::sizes::{FIRST_LETTER, plus};
use text::letter::raise;

// The place after a variant of that many letters that stands at `at`; the greatest number where it is beyond.
pub fn after_variant(at: usize, letters: usize) -> usize
    ensures { result ≡ saturated (after_variant at letters) }
{
    let start = plus(at, FIRST_LETTER);
    plus(start, letters)
}

// A variant: its length, then its letters, raised to upper case; nothing is put where they have no room.
pub fn put_variant(variant: &[u8], out: &mut [u8], at: usize)
    ensures { out.new ≡ put out.old at (encode_variant (meant variant.now)) }
{
    let needed = FIRST_LETTER + variant.len();
    if !has_room(out.len(), at, needed) {
        return;
    }
    put_word(variant.len(), &mut *out, at);
    let start = at + FIRST_LETTER;
    for (i, letter) in variant.iter().enumerate() {
        out[start + i] = raise(*letter);
    }
}
