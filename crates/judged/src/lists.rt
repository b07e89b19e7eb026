// The calls on watch lists, as the lines give them.
use test_examples::notation::{number, raw, word};
use test_lists::List;
use test_reference::Bytes;
use test_tally::{Answer, held_in, lent};

// The list whose length is the word of that number, and whose records are those after it, raw. A record's label is 100 more than its
// number.
fn list(line: &[u8], length: usize) -> List {
    let mut list = List::empty();
    for k in 0..number(line, length) {
        let record = word(line, length.wrapping_add(k).wrapping_add(1));
        let bases = Bytes::<80>::put(|out| raw(out, record));
        let label = list.n.wrapping_add(100) as u64;
        list.push(bases.as_slice(), label);
    }
    list
}

// known STRETCH n PATTERNS = label segment: of the first of n records that ends; 0 4294967295 where none does.
pub fn known(line: &[u8], text: &[u8]) -> Answer {
    Answer::from(list(line, 2).first(text))
}

// ticked STRETCH room MARKS n PATTERNS = : a mark for each of n records, into forty bytes, each 7 before, of which that many are lent.
pub fn ticked(line: &[u8], text: &[u8]) -> Answer {
    let list = list(line, 4);
    held_in::<40, _, _>(
        7,
        |left| raw(left, word(line, 3)),
        |marks| {
            lent(marks, number(line, 2), |room| {
                Answer::from(list.mark(text, room))
            })
        },
    )
}
