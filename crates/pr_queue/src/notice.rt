ghost use Rattle.std.specs.Prelude.{◌≡◌, ◌++◌, IfOk, OnOk};

use crate::copies::copied;
use spec_alerts::Sending;
use std::alloc::{AllocError, Global};
use std::marker::Model;
use std::rc::Rc;

/// A notice that queues share: one more queue with it costs a count. Contracts see the notice.
#[derive(Drop)]
pub(crate) struct Notice {
    held: Rc<Sending>,
}

impl Model for Notice {
    ghost use Rattle.spec_alerts.specs.declared.sending.Sending.{Sending};

    ghost Value = { Sending };

    ghost view = { λ n. n.held.value };
}

impl Notice {
    /// A copy of a notice, to be shared.
    pub(crate) fn new(alloc: Global, sending: &Sending) -> Result<Notice, AllocError>
        ensures { IfOk result (λ n. n ≡ sending.now) }
    {
        Ok(Notice {
            held: Rc::new(alloc, copied(alloc, sending)?)?,
        })
    }

    /// The same notice, shared.
    pub(crate) fn share(&self) -> Result<Notice, AllocError>
        ensures { IfOk result (λ n. n ≡ self.now) }
    {
        Ok(Notice {
            held: self.held.clone()?,
        })
    }

    /// Another notice with the same content.
    pub(crate) fn copy(&self, alloc: Global) -> Result<Sending, AllocError>
        ensures { IfOk result (λ s. s ≡ self.now) }
    {
        copied(alloc, self.held.as_ref())
    }
}

/// Copies of notices, each to be shared.
pub(crate) fn notices_of(alloc: Global, sendings: &[Sending]) -> Result<Vec<Notice>, AllocError>
    ensures { IfOk result (λ v. v.items ≡ sendings.now) }
{
    let mut notices = Vec::with_capacity(alloc, sendings.len())?;
    for sending in sendings {
        notices.push(Notice::new(alloc, sending)?)?;
    }
    Ok(notices)
}

/// The same notices, shared.
pub(crate) fn shares_of(alloc: Global, notices: &[Notice]) -> Result<Vec<Notice>, AllocError>
    ensures { IfOk result (λ v. v.items ≡ notices.now) }
{
    let mut shares = Vec::with_capacity(alloc, notices.len())?;
    for notice in notices {
        shares.push(notice.share()?)?;
    }
    Ok(shares)
}
