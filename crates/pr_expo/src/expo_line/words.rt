// The names of what makes a line no line of an exposition.
ghost use Rattle.std.specs.Prelude.{◌≡◌, codes};
ghost use Rattle.pr_expo.specs.declared.expo_line.place.ExpoKind.TheVariants.{BadLabels};
ghost use Rattle.pr_expo.specs.Words.{expo_word};

use crate::expo_line::place::ExpoKind;

/// The name of what makes a line no line of an exposition.
#[tactic(auto, unfolding(crate::specs::Words::expo_word))]
pub fn expo_word(kind: ExpoKind) -> &'static str
    ensures { result.now ≡ expo_word kind }
{
    match kind {
        ExpoKind::NotText => "NotText",
        ExpoKind::BadName => "BadName",
        ExpoKind::BadLabels => "BadLabels",
        ExpoKind::DuplicateLabel => "DuplicateLabel",
        ExpoKind::BadValue => "BadValue",
        ExpoKind::BadTime => "BadTime",
        ExpoKind::BadType => "BadType",
    }
}

/// A kind is written by its name.
#[tactic(auto, unfolding(crate::specs::Words::expo_word))]
pub fn kinds_of_bad_lines_are_written_so()
    ensures { expo_word BadLabels ≡ codes "BadLabels" }
{}
