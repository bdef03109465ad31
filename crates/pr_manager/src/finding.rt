// A group that is looked for by its file and its name.
ghost use Rattle.std.specs.Prelude.{◌≡◌};
ghost use Rattle.pr_manager.specs.private.Finding.{place_of};
ghost use Rattle.pr_manager.specs.private.Naming.{is_kept_named};

use pr_group::GroupOver;
use pr_group::range::Ranges;

fn is_named<R: Ranges + Drop>(group: &GroupOver<R>, file: &str, name: &str) -> bool
    ensures { result ≡ is_kept_named file.now name.now group.now }
{
    group.file() == file && group.def().name.as_str() == name
}

/// The place of the first group of a file with a name.
#[tactic(auto, using(crate::proofs::Places::one_more, crate::proofs::Places::here, crate::proofs::Places::from_none))]
pub(crate) fn place_of<R: Ranges + Drop>(
    groups: &[GroupOver<R>],
    file: &str,
    name: &str,
) -> Option<usize>
    ensures { result ≡ place_of (is_kept_named file.now name.now) groups.now }
{
    let mut place = 0;
    let mut rest = groups;
    'finding: while let Some((group, after)) = rest.split_first() {
        if is_named(group, file, name) {
            return Some(place);
        }
        place += 1;
        rest = after;
    }
    None
}
