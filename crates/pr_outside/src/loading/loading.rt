// Files that are named, loaded one after another.
ghost use Rattle.std.specs.Prelude.{◌≡◌, ◌∷◌, [], ⊤, ℕ, Bool, true, false, List, cond, length, IfOk, OnOk};
ghost use Rattle.std.specs.declared.option.Option.{Option};
ghost use Rattle.std.specs.Prelude.{Some};
ghost use Rattle.pr_outside.specs.Contents.{IsFound, IsWithinLimit};
ghost use Rattle.pr_outside.specs.Asks.{AsksBy};
ghost use Rattle.pr_outside.specs.Ends.{LoadEnds};
ghost use Rattle.pr_outside.specs.Outside.{AreTold, Held};
ghost use Rattle.pr_outside.specs.Loading.{Holding, Made, holding_by, made_by, walk};

use crate::status::Stop;
use crate::{FileContent, Files};
use std::alloc::{AllocError, Global};

/// What is made of files that are asked for one after another, each by a name of type `N`.
pub trait Taker<N> {
    /// The file that a name asks for.
    ghost file: { N → List ℕ };

    /// What is made of what was made so far, of a name and of what its file holds.
    ghost make: { N → Self → Holding → Made Self };

    /// Whether all files are asked for, whatever is found.
    ghost asks_all: { Bool } = { false };

    /// What holds of what was made, of all names and of those that are left, whatever was found.
    ghost fits: { List N → List N → Self → Type 0 } = { λ all rest made. ⊤ };

    /// The path of the file that a name asks for.
    fn file(name: &N) -> &str
        ensures { result.now ≡ file name.now };

    /// Takes what was found under a name, and says whether the next file is asked for.
    fn take(&mut self, alloc: Global, name: &N, found: FileContent) -> Result<bool, AllocError>
        requires { IsWithinLimit found }
        ensures made { (content : Option (List ℕ)) → IsFound (Some content) found
            → IfOk result (λ more. make name.now self.old (holding_by content) ≡ made_by more self.new) }
        ensures all { asks_all ≡ true → IfOk result (λ more. more ≡ true) }
        ensures fits { (all rest : List N) → fits all (name.now ∷ rest) self.old → IfOk result (λ more. fits all (cond more rest []) self.new) };
}

/// Loads the files of these names, one after another, each once, until there are no more or no
/// further one is asked for.
pub fn load_each<N, T: Taker<N>, F: Files>(
    alloc: Global,
    taker: &mut T,
    names: &[N],
    files: &mut F,
) -> Result<(), Stop>
    ensures made { (held : Held) → AreTold (F.means files.old).content held (walk T.file T.make held names.now taker.old).asks
        → OnOk result (taker.new ≡ (walk T.file T.make held names.now taker.old).made) }
    ensures fits { T.fits names.now names.now taker.old → OnOk result (T.fits names.now [] taker.new) }
    ensures asked { (held : Held) → AreTold (F.means files.old).content held (walk T.file T.make held names.now taker.old).asks
        → AsksBy (F.means files.old).calls (F.means files.new).calls (length (walk T.file T.make held names.now taker.old).asks) result }
    ensures all { T.asks_all ≡ true → AsksBy (F.means files.old).calls (F.means files.new).calls (length names.now) result }
    ensures same { (other : List ℕ) → (F.means files.new).content other ≡ (F.means files.old).content other }
    ensures ends { LoadEnds (F.means files.old) (F.means files.new) result }
{
    let mut rest = names;
    'loading: while let Some((name, after)) = rest.split_first() {
        let found = files.load(T::file(name))?;
        if !taker.take(alloc, name, found)? {
            return Ok(());
        }
        rest = after;
    }
    Ok(())
}
