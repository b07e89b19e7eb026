// The numbers that a write is given: what each of them states, and whether they fit together (refusal 14).
ghost use Rattle.std.specs.Prelude.{◌≡◌, ℕ, eqb};
ghost use Rattle.text.specs.Text.{total};

// A number of a write: a count of variants or a length.
pub trait Stated: Copy {
    ghost value: { Self → ℕ };

    // What it states.
    fn stated(self) -> usize
        ensures { result ≡ value self };
}

impl Stated for u8 {
    ghost value = { λ n. n };

    fn stated(self) -> usize {
        usize::from(self)
    }
}

impl Stated for u16 {
    ghost value = { λ n. n };

    fn stated(self) -> usize {
        usize::from(self)
    }
}

// Whether the numbers sum to `target`. Only what is left of it is kept, so no sum grows beyond it.
pub fn sums_to<T: Stated>(numbers: &[T], target: usize) -> bool
    ensures { result ≡ eqb (total T.value numbers.now) target }
{
    let mut left = target;
    for number in numbers {
        let more = number.stated();
        if left < more {
            return false;
        }
        left -= more;
    }
    left == 0
}
