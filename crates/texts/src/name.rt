//! Names of nodes and writers.

ghost use Rattle.std.specs.Prelude.{◌≡◌};
ghost use Rattle.std.specs.List.{list_all};
ghost use Rattle.texts.specs.Name.{is_name_byte, is_name as is_spelled_name};

/// Whether each byte is one of `a-z0-9_.:-`, as in names and keys.
pub fn are_name_bytes(field: &[u8]) -> bool
    ensures { result ≡ list_all is_name_byte field.now }
{
    field.iter().all(|byte| matches!(*byte, b'a'..=b'z' | b'0'..=b'9' | b'_' | b'.' | b':' | b'-'))
}

/// Whether a field is a name: 1 to 32 bytes of `a-z0-9_.:-`.
pub fn is_name(field: &[u8]) -> bool
    ensures { result ≡ is_spelled_name field.now }
{
    1 <= field.len() && field.len() <= 32 && are_name_bytes(field)
}
