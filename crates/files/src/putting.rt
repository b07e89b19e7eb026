// What is put into a buffer of a fixed size before it is written.
ghost use Rattle.std.specs.Prelude.{◌≡◌, take};
ghost use Rattle.std.specs.Io.Cursor.{cursor_inner, cursor_position};

use std::io::Cursor;

// The bytes that were written so far, as far as there was room.
pub fn written<const N: usize>(out: &Cursor<[u8; N]>) -> &[u8]
    ensures { result.now ≡ take (cursor_position out.now) (cursor_inner out.now) }
{
    let bytes: &[u8] = out.get_ref();
    bytes.get(..out.position() as usize).unwrap_or(bytes)
}
