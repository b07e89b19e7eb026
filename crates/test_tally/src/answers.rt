// A call's answer in numbers: refusal number and place, and up to three results, 0 where the call has fewer or refuses.
ghost use Rattle.std.specs.Prelude.{◌≡◌, ◌<◌, ◌≤◌, ◌^◌, ℕ, List, ◌++◌, length, replicate, take, drop};
ghost use Rattle.std.specs.Fn.{FnOnceReturnsAtMut};
ghost use Rattle.test_tally.specs.Answers.{refused_as, told_as, held_as};

use check::same;
use std::fmt;
use text::refusal::Refusal;

// Stays five numbers: `refused_as`, `told_as` and `alike_same` speak of them.
#[derive(Clone, Copy, PartialEq, Eq)]
pub struct Answer {
    pub number: u64,
    pub place: usize,
    pub first: usize,
    pub second: usize,
    pub third: usize,
}

impl Answer {
    // A call that is refused.
    pub fn refused(number: u64, place: usize) -> Answer
        ensures { result ≡ refused_as number place }
    {
        Answer {
            number,
            place,
            first: 0,
            second: 0,
            third: 0,
        }
    }

    // A call that is accepted, with its results.
    pub fn told(first: usize, second: usize, third: usize) -> Answer
        ensures { result ≡ told_as first second third }
    {
        Answer {
            number: 0,
            place: 0,
            first,
            second,
            third,
        }
    }
}

impl From<Refusal> for Answer {
    ghost from_gives = { λ r a. a ≡ refused_as r.number r.place };

    fn from(refusal: Refusal) -> Answer {
        Answer::refused(refusal.number, refusal.place)
    }
}

impl fmt::Display for Answer {
    fn fmt<W: fmt::Write>(&self, f: &mut fmt::Formatter<W>) -> fmt::Result {
        write!(
            f,
            "{} {} {} {} {}",
            self.number, self.place, self.first, self.second, self.third
        )
    }
}

// The answer of a call that is to leave these bytes in its buffer; where it leaves others, a refusal that no call gives.
pub fn held(answer: Answer, buffer: &[u8], wanted: &[u8]) -> Answer
    ensures { result ≡ held_as answer buffer.now wanted.now }
{
    if same(buffer, wanted) {
        return answer;
    }
    Answer::refused(100, 0)
}

// The answer of a call that is lent N bytes, each of this value, and is to leave in them what another puts into such bytes.
pub fn held_in<const N: usize, P: FnOnce(&mut [u8]) -> usize, C: FnOnce(&mut [u8]) -> Answer>(
    value: u8,
    put: P,
    call: C,
) -> Answer
    requires room { N < 2 ^ 63 }
    requires put { P.IsAlwaysCallable put }
    requires call { C.IsAlwaysCallable call }
    ensures { (n : ℕ) × (wanted : List ℕ) × (answer : _) × (buffer : List ℕ)
        × FnOnceReturnsAtMut P.FnOnce put (replicate N value) n wanted
        × FnOnceReturnsAtMut C.FnOnce call (replicate N value) answer buffer
        × (result ≡ held_as answer buffer wanted) }
{
    let mut wanted = [value; N];
    put(&mut wanted);
    let mut buffer = [value; N];
    let answer = call(&mut buffer);
    held(answer, &buffer, &wanted)
}

// The answer of a call that is lent the first that many bytes of a buffer; where it has fewer, a refusal that no call gives.
pub fn lent<C: FnOnce(&mut [u8]) -> Answer>(buffer: &mut [u8], room: usize, call: C) -> Answer
    requires { C.IsAlwaysCallable call }
    ensures short { length buffer.old < room → result ≡ refused_as 101 0 }
    ensures lent { room ≤ length buffer.old → (part : List ℕ) × FnOnceReturnsAtMut C.FnOnce call (take room buffer.old) result part
        × (buffer.new ≡ part ++ drop room buffer.old) }
{
    if buffer.len() < room {
        return Answer::refused(101, 0);
    }
    call(&mut buffer[..room])
}
