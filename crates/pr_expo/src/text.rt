// The lines of an exposition.
ghost use Rattle.std.specs.Prelude.{◌≡◌, ◌-◌, ◌<◌, ◌≤◌, [], ◌∷◌, IfSome, MatchOption, drop, length, take};
ghost use Rattle.pr_labels.specs.pr_words.Lines.{text_lines};

use pr_labels::words_crate::{line_len, without_return};

fn front_of(bytes: &[u8], count: usize) -> &[u8]
    requires { count ≤ length bytes.now }
    ensures value { result.now ≡ take count bytes.now }
    ensures shorter { length result.now ≡ count }
{
    &bytes[..count]
}

fn rest_of(bytes: &[u8], count: usize) -> &[u8]
    requires { count ≤ length bytes.now }
    ensures value { result.now ≡ drop count bytes.now }
    ensures shorter { length result.now ≡ length bytes.now - count }
{
    &bytes[count..]
}

// The first line, and what stands after its line feed, where it has one.
#[tactic(auto, using(crate::proofs::Lines::first_line, crate::proofs::Lines::last_line))]
pub(crate) fn next_line(bytes: &[u8]) -> (&[u8], Option<&[u8]>)
    ensures lines { MatchOption result.1 (text_lines bytes.now ≡ result.0.now ∷ []) (λ rest. text_lines bytes.now ≡ result.0.now ∷ text_lines rest.now) }
    ensures within { length result.0.now ≤ length bytes.now }
    ensures shorter { IfSome result.1 (λ rest. length rest.now < length bytes.now) }
{
    let at = line_len(bytes);
    if at < bytes.len() {
        (
            without_return(front_of(bytes, at)),
            Some(rest_of(bytes, at + 1)),
        )
    } else {
        (bytes, None)
    }
}
