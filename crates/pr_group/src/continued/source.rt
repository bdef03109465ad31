ghost use Rattle.std.specs.Prelude.{◌≡◌, ◌++◌, codes, IfOk};
ghost use Rattle.pr_rule.specs.spec_rules.private.Carried.{func_name};
ghost use Rattle.pr_group.specs.private.Waiting.{key_of};

use crate::continued::key_bytes::KeyBytes;
use pr_ast::Func;
use pr_ast::words_crate::Items;
use std::alloc::{AllocError, Global};
use std::marker::Model;

/// A range selector of an expression: its printed text, and the function that it stands under, if
/// it stands under one. Contracts see both as a use of a range.
#[derive(Drop)]
pub(crate) struct Source {
    printed: Items<u8>,
    func: Option<Func>,
}

impl Model for Source {
    ghost use Rattle.pr_rule.specs.spec_rules.private.Carried.{RangeUse};

    ghost Value = { RangeUse };

    ghost view = { λ s. record { printed = s.printed; func = s.func } };
}

// The name of the function; nothing where there is none.
fn func_name(func: Option<Func>) -> &'static str
    ensures { result.now ≡ func_name func }
{
    match func {
        Some(func) => func.text(),
        None => "",
    }
}

impl Source {
    pub(crate) fn new(printed: Items<u8>, func: Option<Func>) -> Source
        ensures { result ≡ record { printed = printed; func = func } }
    {
        Source { printed, func }
    }

    /// What tells its kind: those of one key have one printed text and stand under one function.
    pub(crate) fn key(&self, alloc: Global) -> Result<KeyBytes, AllocError>
        ensures { IfOk result (λ k. k ≡ key_of self.now) }
    {
        let mut key = Vec::new(alloc);
        key.extend_from_slice(func_name(self.func).as_bytes())?;
        key.extend_from_slice(b"(")?;
        key.extend_from_slice(self.printed.as_slice())?;
        Ok(KeyBytes::new(key))
    }
}
