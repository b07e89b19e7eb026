// The build, as the lines give it.
use test_examples::notation::{file, number, raw, stretch, word};
use test_reference::Bytes;
use test_reference::places::put_part;
use test_tally::{Answer, held_in, lent};

// build FILE WINDOW first NAME room STRETCH = bytes: the window is raw. Into as much of a buffer of 170s as the line lends, where it
// leaves the line's stretch in front of them.
pub fn build(line: &[u8]) -> Answer {
    let records = Bytes::<70000>::put(|out| file(out, word(line, 1)));
    let window = Bytes::<70000>::put(|out| raw(out, word(line, 2)));
    let first = number(line, 3);
    let name = word(line, 4);
    let text = Bytes::<40000>::put(|out| stretch(out, word(line, 6), 2));
    held_in::<40000, _, _>(
        170,
        |left| put_part(left, 0, text.as_slice()),
        |out| {
            lent(out, number(line, 5), |room| {
                let built = vcf::build(records.as_slice(), window.as_slice(), first, name, room);
                Answer::from(built)
            })
        },
    )
}
