// What is known of families so far.
ghost use Rattle.std.specs.Prelude.{◌≡◌, ◌+◌, ◌<◌, ◌^◌};
ghost use Rattle.pr_expo.specs.private.Keeping.{nothing_known, with_help, with_sample, with_type};

use crate::expo_line::FamilyKind;

// What is known of a family so far: its kind, how many help lines and type lines it has, whether a
// type line stands after a sample, and whether it has a sample.
#[derive(Clone, Copy, Debug)]
pub(crate) struct Known {
    pub(crate) kind: FamilyKind,
    pub(crate) helps: u32,
    pub(crate) types: u32,
    pub(crate) late_type: bool,
    pub(crate) sampled: bool,
}

pub(crate) fn nothing_known() -> Known
    ensures { result ≡ nothing_known }
{
    Known {
        kind: FamilyKind::Untyped,
        helps: 0,
        types: 0,
        late_type: false,
        sampled: false,
    }
}

pub(crate) fn with_help(known: Known) -> Known
    requires { known.helps + 1 < 2 ^ 32 }
    ensures { result ≡ with_help known }
{
    Known {
        helps: known.helps + 1,
        ..known
    }
}

pub(crate) fn with_type(known: Known, kind: FamilyKind) -> Known
    requires { known.types + 1 < 2 ^ 32 }
    ensures { result ≡ with_type known kind }
{
    Known {
        kind: if known.types == 0 { kind } else { known.kind },
        types: known.types + 1,
        late_type: known.late_type || known.sampled,
        ..known
    }
}

pub(crate) fn with_sample(known: Known) -> Known
    ensures { result ≡ with_sample known }
{
    Known {
        sampled: true,
        ..known
    }
}
