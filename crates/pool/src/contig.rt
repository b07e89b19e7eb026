// What a ##contig line says of a sequence's length: VCF 4.3, section 1.4.7.
use desk_list::told;
use text::part;

// How many bases a ##contig line, without its first #, says that the sequence of this name has, if it says so: 0 says nothing. Its fields
// are ID= and the name, length= and a number, or any other; a comma in quotes ends none.
pub fn length_said(line: &[u8], name: &[u8]) -> Option<u64> {
    let fields = line.strip_prefix(b"#contig=<")?;
    let mut is_named = false;
    let mut length = None;
    let mut from = 0;
    let mut is_quoted = false;
    for (i, byte) in fields.iter().enumerate() {
        match byte {
            b'"' => is_quoted = !is_quoted,
            b',' | b'>' if !is_quoted => {
                let field = part(fields, from, i);
                if let Some(id) = field.strip_prefix(b"ID=") {
                    is_named = id == name;
                }
                if let Some(digits) = field.strip_prefix(b"length=") {
                    length = told(digits);
                }
                from = i + 1;
            }
            _ => {}
        }
    }
    length.filter(|n| is_named && *n != 0)
}
