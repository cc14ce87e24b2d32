// What a name may be.
ghost use Rattle.std.specs.Prelude.{◌≡◌};
ghost use Rattle.std.specs.List.{list_all};
ghost use Rattle.script_parts.specs.Names.{has_name_len, is_name, is_name_byte};

// Whether these bytes are no more and no fewer than a name has.
fn has_name_len(bytes: &[u8]) -> bool
    ensures { result ≡ has_name_len bytes.now }
{
    1 <= bytes.len() && bytes.len() <= 32
}

// Whether all bytes are letters, digits, `_`, `-` or `.`.
fn has_name_bytes(bytes: &[u8]) -> bool
    ensures { result ≡ list_all is_name_byte bytes.now }
{
    bytes.iter().all(|b| b.is_ascii_alphanumeric() || *b == b'_' || *b == b'-' || *b == b'.')
}

/// Whether an item or a tree may have this name: 1 to 32 bytes of ASCII letters, digits, `_`, `-`, `.`.
pub fn is_plain_name(bytes: &[u8]) -> bool
    ensures { result ≡ is_name bytes.now }
{
    has_name_len(bytes) && has_name_bytes(bytes)
}
