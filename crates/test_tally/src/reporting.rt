// What a program prints at the end, put into a buffer: a line for each group that counts something, and the last line. What there
// is no room for is cut off. It stays put byte by byte in place of println: `report_of` promises the bytes.
ghost use Rattle.std.specs.Prelude.{[]};
ghost use Rattle.lines.specs.Puts.{Put};
ghost use Rattle.test_tally.specs.Report.{group_line, group_lines, report_of};

use crate::counts::Tally;
use lines::{put_bytes, put_line, put_number};

// The line of a group: its name and its count; nothing where it counts nothing.
fn put_group(name: &[u8], count: u64, out: &mut [u8], at: usize) -> usize
    ensures { Put out.old at (group_line name.now count) out.new result }
{
    if count == 0 {
        return at;
    }
    let behind = put_bytes(name, &mut *out, at);
    put_line(b": ", count, &mut *out, behind)
}

// The lines of all groups. A group's name is the line of its number in `names`.
fn put_groups(tally: &Tally, names: &[u8], out: &mut [u8]) -> usize
    ensures { Put out.old 0 (group_lines tally.now.groups 0 [] names.now) out.new result }
{
    let mut next = 0;
    let mut number = 0;
    let mut start = 0;
    for (i, byte) in names.iter().enumerate() {
        if *byte == b'\n' {
            let count = tally.of(number);
            next = put_group(&names[start..i], count, &mut *out, next);
            number += 1;
            start = i + 1;
        }
    }
    next
}

// The groups, and the last line, which calls what was compared by a name. The place after them.
pub fn report(tally: &Tally, names: &[u8], compared: &[u8], out: &mut [u8]) -> usize
    ensures { Put out.old 0 (report_of tally.now names.now compared.now) out.new result }
{
    let groups = put_groups(tally, names, &mut *out);
    let ran = put_number(tally.ran, &mut *out, groups);
    let called = put_bytes(compared, &mut *out, ran);
    let differ = put_number(tally.differ, &mut *out, called);
    put_bytes(b" differ\n", &mut *out, differ)
}

// Prints the first answer that differs, if one does, and the report.
pub fn tell(rt: &HostRuntime, tally: &Tally, names: &[u8], compared: &[u8]) {
    if let Some(difference) = tally.first {
        let _ = println!(rt; "{difference}");
    }
    let mut out = [0u8; 4096];
    let end = report(tally, names, compared, &mut out);
    if let Some(lines) = out.get(..end) {
        let _ = rt.write_all(lines);
    }
}
