// A stretch back to braces.
use eds_notation::put_braces;
use files::{fail, read_all, write_all};
use lines::put_refusal;
use text::{limits, part};

// Prints the braces of a stretch on a line, or its refusal.
fn print(rt: &HostRuntime, stretch: &[u8]) {
    let mut out = [0u8; limits::GREATEST_STRETCH];
    match put_braces(stretch, &mut out) {
        Ok(end) => {
            let _ = write_all(&mut rt.stdout(), part(&out, 0, end));
            let _ = write_all(&mut rt.stdout(), b"\n");
        }
        Err(wrong) => {
            let mut line = [0u8; 64];
            let end = put_refusal(wrong, &mut line, 0);
            let _ = write_all(&mut rt.stdout(), part(&line, 0, end));
        }
    }
}

// Prints the braces of the stretch on standard input on a line, or its refusal; nothing where it could not be read. The buffer has one byte
// more than a stretch, so that a longer file is refused by its length.
pub fn print_braces(rt: &HostRuntime) {
    let mut bytes = [0u8; limits::GREATEST_STRETCH + 1];
    match read_all(&mut rt.stdin(), &mut bytes) {
        Ok(Some(stretch)) => print(rt, stretch),
        Ok(None) => print(rt, &bytes),
        Err(error) => {
            fail(rt, b"standard input", error);
        }
    }
}
