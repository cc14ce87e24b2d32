// The two parts of a text that is audited.
ghost use Rattle.std.specs.Prelude.{◌≡◌, drop, true};
ghost use Rattle.history_audit.specs.Audits.{begins_history, divided, ends_line};

// Whether a text is at its end or at the end of a line.
fn ends_line(text: &[u8]) -> bool
    ensures { result ≡ ends_line text.now }
{
    match text.first() {
        Some(byte) => *byte == b'\n',
        None => true,
    }
}

// Whether a text begins with a line that is exactly `history`.
fn begins_history(text: &[u8]) -> bool
    ensures { result ≡ begins_history text.now }
{
    if !text.starts_with(b"history") {
        return false;
    }
    ends_line(&text[7..])
}

// What stands before the first line that is exactly `history`, and what stands behind it; all, and nothing, where there is
// no such line.
pub(crate) fn divide(text: &[u8]) -> (&[u8], &[u8])
    ensures { (result.0.now, result.1.now) ≡ divided true text.now }
{
    let mut starts = true;
    for (place, byte) in text.iter().enumerate() {
        let rest = &text[place..];
        if starts && begins_history(rest) {
            return (&text[..place], behind(rest));
        }
        starts = *byte == b'\n';
    }
    (text, &[])
}

// What stands behind the first line of a text that begins with `history`.
fn behind(text: &[u8]) -> &[u8]
    ensures { result.now ≡ drop 8 text.now }
{
    match text.get(8..) {
        Some(rest) => rest,
        None => &[],
    }
}
