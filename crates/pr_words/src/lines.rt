// The lines of a text.
ghost use Rattle.std.specs.Prelude.{◌≡◌, ◌≤◌, length, position};
ghost use Rattle.std.specs.List.{position_or_len};
ghost use Rattle.pr_words.specs.Lines.{is_feed, without_return};

/// Where the first line feed stands.
pub fn first_feed(text: &[u8]) -> Option<usize>
    ensures { result ≡ position is_feed text.now }
{
    text.iter().position(|b| *b == b'\n')
}

/// How many bytes stand before the first line feed: all, where there is none.
#[tactic(auto, using(crate::proofs::Places::place_or_end, crate::proofs::Places::within))]
pub fn line_len(text: &[u8]) -> usize
    ensures value { result ≡ position_or_len is_feed text.now }
    ensures within { result ≤ length text.now }
{
    first_feed(text).unwrap_or(text.len())
}

/// A line without a carriage return at its end.
pub fn without_return(line: &[u8]) -> &[u8]
    ensures value { result.now ≡ without_return line.now }
    ensures within { length result.now ≤ length line.now }
{
    if !line.is_empty() && line[line.len() - 1] == b'\r' {
        &line[..line.len() - 1]
    } else {
        line
    }
}
