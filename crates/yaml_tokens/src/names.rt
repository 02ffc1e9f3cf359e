//! Anchors of nodes, as in `&NAME` and `*NAME`.

ghost use Rattle.std.specs.Prelude.{◌≡◌, ◌≤◌, length};
ghost use Rattle.yaml_tokens.specs.Anchors.{is_name_byte, name_len, name_at, after_name};

/// Letters, digits, `_` and `-`.
pub(crate) fn is_name_byte(b: u8) -> bool
    ensures { result ≡ is_name_byte b }
{
    matches!(b, b'a'..=b'z' | b'A'..=b'Z' | b'0'..=b'9' | b'_' | b'-')
}

/// How many bytes of a name stand at the front.
pub(crate) fn name_len(bytes: &[u8]) -> usize
    ensures len { result ≡ name_len bytes.now }
    ensures within { result ≤ length bytes.now }
{
    for (i, b) in bytes.iter().enumerate() {
        if !is_name_byte(*b) {
            return i;
        }
    }
    bytes.len()
}

/// The name at the front.
pub(crate) fn name_at(bytes: &[u8]) -> &[u8]
    ensures { result.now ≡ name_at bytes.now }
{
    let n = name_len(bytes);
    &bytes[..n]
}

/// The bytes behind the name at the front.
pub(crate) fn after_name(bytes: &[u8]) -> &[u8]
    ensures { result.now ≡ after_name bytes.now }
{
    let n = name_len(bytes);
    &bytes[n..]
}
