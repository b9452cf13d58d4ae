//! Cuts texts.

ghost use Rattle.std.specs.Prelude.{◌≡◌, ◌≢◌, [], ◌∷◌, MatchOption};
ghost use Rattle.std.specs.List.{All};
ghost use Rattle.trace_audit.specs.private.Cutting.{IsCutAt, IsFirstLine, IsNextLine};

/// The first line of a script, without its LF, and what stands behind; the last may lack it.
pub fn next_line(script: &[u8]) -> Option<(&[u8], &[u8])>
    ensures { MatchOption result (script.now ≡ []) (IsNextLine script.now) }
{
    if script.is_empty() {
        return None;
    }
    match cut_at(script, b'\n') {
        Some(parts) => Some(parts),
        None => Some((script, b"".as_slice())),
    }
}

/// The first line with its LF, and what stands behind.
pub fn first_line(text: &[u8]) -> Option<(&[u8], &[u8])>
    ensures { MatchOption result (All (λ b. b ≢ 10) text.now) (IsFirstLine text.now) }
{
    let (line, _) = cut_at(text, b'\n')?;
    Some(text.split_at(line.len() + 1))
}

/// What stands before and behind the first such byte of a text.
pub fn cut_at(text: &[u8], byte: u8) -> Option<(&[u8], &[u8])>
    ensures { MatchOption result (All (λ b. b ≢ byte) text.now) (IsCutAt byte text.now) }
{
    for (i, b) in text.iter().enumerate() {
        if *b == byte {
            return Some((&text[..i], &text[i + 1..]));
        }
    }
    None
}
