//! Names: 1 to 32 letters and digits of ASCII, `_` and `-`.

ghost use Rattle.std.specs.Prelude.{◌≡◌, ◌↔◌, IsTrue};
ghost use Rattle.vss_names.specs.Names.{IsName, is_name_byte as is_plain_byte};

/// At most so many bytes.
const LONGEST_NAME: usize = 32;

/// Whether the text is a name. Takes no memory, and looks at 32 bytes at most.
pub fn is_name(text: &str) -> bool
    ensures { IsTrue result ↔ IsName text.now }
{
    let bytes = text.as_bytes();
    let length_fits = 0 < bytes.len() && bytes.len() <= LONGEST_NAME;
    length_fits && bytes.iter().all(|byte| is_name_byte(*byte))
}

/// Whether the byte may stand in a name: a letter or a digit of ASCII, `_` or `-`.
pub fn is_name_byte(byte: u8) -> bool
    ensures { result ≡ is_plain_byte byte }
{
    byte.is_ascii_alphanumeric() || byte == b'_' || byte == b'-'
}
