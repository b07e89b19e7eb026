// Kinds of bytes in the text of a list, and the place where bytes of a kind end.
ghost use Rattle.std.specs.Prelude.{◌≡◌, ◌≤◌, ◌<◌, ℕ, Bool, max, length};
ghost use Rattle.desk_list.specs.Kinds.{plain, blank, digit, word, in_line, past};

// Plain bytes are those that a reader of the list sees: printable ASCII and tab.
#[tactic(auto, unfolding(crate::specs::Kinds::plain))]
pub fn is_plain(byte: u8) -> bool
    ensures { result ≡ plain byte }
{
    matches!(byte, b'\t' | b' '..=b'~')
}

// Blanks part a label from its sequence: space and tab.
pub fn is_blank(byte: u8) -> bool
    ensures { result ≡ blank byte }
{
    matches!(byte, b'\t' | b' ')
}

#[tactic(auto, unfolding(crate::specs::Kinds::digit))]
pub fn is_digit(byte: u8) -> bool
    ensures { result ≡ digit byte }
{
    byte.is_ascii_digit()
}

// A word is whatever is no blank and begins no comment.
#[tactic(auto, unfolding(crate::specs::Kinds::word))]
pub fn is_word(byte: u8) -> bool
    ensures { result ≡ word byte }
{
    !matches!(byte, b'\t' | b' ' | b'#')
}

// A line is made of all but the line feed.
#[tactic(auto, unfolding(crate::specs::Kinds::in_line))]
pub fn is_in_line(byte: u8) -> bool
    ensures { result ≡ in_line byte }
{
    byte != b'\n'
}

// The first place from `from` on whose byte is not of a kind; the end where there is none.
pub fn past<F: Fn(u8) -> bool>(is: F, text: &[u8], from: usize) -> usize
    requires { F.IsAlwaysCallable is }
    ensures value { (kind : ℕ → Bool) → ((c : ℕ) (b : Bool) → c < 256 → F.post is c b → b ≡ kind c) → result ≡ past kind text.now from }
    ensures lower_bound { (from ≤ result) × (result ≤ max from (length text.now)) }
{
    for i in from..text.len() {
        if !is(text[i]) {
            return i;
        }
    }
    from.max(text.len())
}
