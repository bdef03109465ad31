//! What the functions of a reader hand to each other.
ghost use Rattle.std.specs.Prelude.{◌≡◌, ◌-◌, ◌≤◌, length, MatchOption};
ghost use Rattle.pr_forms.specs.private.Take.{IsMissed, IsTaken};

use std::alloc::{AllocError, AllocFailed};

/// Why a reader that goes by recursion gives no value: the tokens from the first bad one on, or
/// want of memory. A reader that takes no memory hands back the tokens themselves.
#[derive(Drop, Debug)]
pub enum Fault<'a, T> {
    Bad(&'a [T]),
    Memory,
}

impl<T> From<AllocError> for Fault<'_, T> {
    ghost use Rattle.pr_forms.specs.declared.reader.Fault.TheVariants.{Memory};

    ghost from_gives = { λ _ e. e ≡ Memory };

    fn from(_error: AllocError) -> Self {
        Fault::Memory
    }
}

impl<T, X: Drop> From<AllocFailed<X>> for Fault<'_, T> {
    ghost use Rattle.pr_forms.specs.declared.reader.Fault.TheVariants.{Memory};

    ghost from_gives = { λ _ e. e ≡ Memory };

    fn from(_error: AllocFailed<X>) -> Self {
        Fault::Memory
    }
}

/// The place of the first of the tokens that are left, among all tokens.
pub fn place_of<T>(tokens: &[T], left: &[T]) -> usize
    requires { length left.now ≤ length tokens.now }
    ensures { result ≡ length tokens.now - length left.now }
{
    tokens.len() - left.len()
}

/// The value of the next token, where it has one, and what follows that token: how a reader takes a
/// token, or looks at it.
pub fn take<T, V, F: Fn(&T) -> Option<V>>(tokens: &[T], value: F) -> Option<(V, &[T])>
    requires { F.IsAlwaysCallable value }
    ensures { MatchOption result (IsMissed (F.post value) tokens.now) (λ x. IsTaken (F.post value) x.0 tokens.now x.1.now) }
{
    let Some((first, rest)) = tokens.split_first() else {
        return None;
    };
    match value(first) {
        Some(found) => Some((found, rest)),
        None => None,
    }
}
