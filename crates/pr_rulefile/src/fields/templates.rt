// Templates of labels and annotations.
ghost use Rattle.std.specs.Prelude.{◌≡◌, IfOk};
ghost use Rattle.pr_rulefile.specs.Labels.{template_fault};

use spec_rules::tmpl::{Template, TmplError};
use std::alloc::{AllocError, Global};

/// The first byte with which no template goes on, where the text is no template.
#[tactic(auto, unfolding(crate::specs::Labels::template_fault))]
pub(crate) fn template_fault(alloc: Global, text: &str) -> Result<Option<usize>, AllocError>
    ensures { IfOk result (λ o. o ≡ template_fault text.now) }
{
    match Template::parse(alloc, text) {
        Ok(_template) => Ok(None),
        Err(TmplError::BadTemplate { at }) => Ok(Some(at)),
        Err(TmplError::Memory) => Err(AllocError),
    }
}
