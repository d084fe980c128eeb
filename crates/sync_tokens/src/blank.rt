ghost use Rattle.std.specs.Prelude.{◌≡◌, ◌≤◌, length};
ghost use Rattle.sync_tokens.specs.Blanks as spec;

/// White space: a space, a tab, a carriage return or a line feed.
pub(crate) fn is_space(c: char) -> bool
    ensures { result ≡ spec.is_space c }
{
    c == ' ' || c == '\t' || c == '\r' || c == '\n'
}

/// How many characters there are before the next line feed.
pub(crate) fn line_len(chars: &[char]) -> usize
    ensures value { result ≡ spec.line_len chars.now }
    ensures within { result ≤ length chars.now }
{
    for (i, c) in chars.iter().enumerate() {
        if *c == '\n' {
            return i;
        }
    }
    chars.len()
}

/// How many characters there are up to the first `*/` and with it.
pub(crate) fn comment_len(chars: &[char]) -> Option<usize>
    ensures { result ≡ spec.comment_len chars.now }
{
    let mut star = false;
    for (i, c) in chars.iter().enumerate() {
        if star && *c == '/' {
            return Some(i + 1);
        }
        star = *c == '*';
    }
    None
}
