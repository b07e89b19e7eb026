// Numbers that look random: each is made of a seed and of what it is for, by sums, shifts and exclusive or.

// Each bit of a number spread over many others.
fn mixed(x: u64) -> u64 {
    let a = x.wrapping_add(x << 21);
    let b = a ^ a >> 24;
    let c = b.wrapping_add(b << 11);
    let d = c ^ c >> 14;
    let e = d.wrapping_add(d << 28);
    e ^ e >> 31
}

// A seed made of another one, for one of the things that are drawn with it.
pub fn seed(from: u64, what: usize) -> u64 {
    mixed(mixed(from.wrapping_add(what as u64)))
}

// A number below n, 0 where n is 0.
pub fn below(from: u64, what: usize, n: usize) -> usize {
    if n == 0 {
        return 0;
    }
    (seed(from, what) >> 20) as usize % n
}
