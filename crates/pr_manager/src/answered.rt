// What is answered to orders about groups.
ghost use Rattle.std.specs.Prelude.{◌≡◌};
ghost use Rattle.pr_manager.specs.private.Rounds.{admitted_in};

use pr_ast::words_crate::Items;
use spec_world::Report;
use spec_world::history::Entry;

/// What is answered to a reload, and the entries that it added.
#[derive(Debug, Drop)]
pub struct Answered {
    pub report: Report,
    pub added: Items<Entry>,
}

/// The entries that the evaluation of a group added, in order, which stand in what is told of it.
/// Nothing else that is told has any.
pub fn admitted_in(report: &Report) -> &[Entry]
    ensures { result.now ≡ admitted_in report.now }
{
    match report {
        Report::Evaluated { group } => group.admitted.as_slice(),
        _ => &[],
    }
}
