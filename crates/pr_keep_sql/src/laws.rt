// Laws of what a store means.
ghost use Rattle.std.specs.Prelude.{◌≡◌, ◌↔◌, ℕ, List, IsSome, IsTrue};
ghost use Rattle.sqlite.specs.Effect.{Database};
ghost use Rattle.sqlite.specs.Held.{state};
ghost use Rattle.sqlite.specs.State.{HasCleanDisk};
ghost use Rattle.sqlite.specs.WalFiles.{image_at};
ghost use Rattle.pr_keep_sql.specs.private.Kept.{told};
ghost use Rattle.pr_keep_sql.specs.private.Opened.{IsFoundIn, faults_with, rows_in, size_in, sound_in};
ghost use Rattle.pr_keep_sql.specs.private.Store.{KeptStore};
ghost use Rattle.pr_keep_sql.specs.declared.opened.Opened.TheVariants.{File};

use crate::keeper::SqlKeeper;
use crate::opening::{DiskFile, Open};
use pr_outside::Keeper;
use sqlite::{Alter, FileFrom, FileStore, Start};

/// What a store means, and so what the promise of the program says of it, is told by what it has
/// opened.
#[tactic(auto, using(crate::proofs::OpenedLemmas::sound_file))]
pub fn a_store_means_what_it_has_opened<S: Alter + Drop, O: Open<S>>(keeper: &SqlKeeper<S, O>)
    ensures means { ⟦<SqlKeeper<S, O> as Keeper>⟧.means keeper.now ≡ record { rows = rows_in S.Store keeper.now.opened; count = size_in keeper.now.opened; sound = sound_in S.Store keeper.now.opened; paths = keeper.now.paths.items; faults = faults_with keeper.now.own keeper.now.opened } }
    // A file keeps its word exactly as long as the tables stand first in it, and the disk has returned
    // what was written.
    ensures sound { (kept : KeptStore S) → keeper.now.opened ≡ File kept → IsTrue (⟦<SqlKeeper<S, O> as Keeper>⟧.means keeper.now).sound ↔ (IsTrue kept.is_first × HasCleanDisk (state S.Store kept.conn)) }
    // Its rows are told then, while the connection is open.
    ensures told { (kept : KeptStore S) → keeper.now.opened ≡ File kept → (⟦<SqlKeeper<S, O> as Keeper>⟧.means keeper.now).rows ≡ told kept.is_first (state S.Store kept.conn) }
    // Whatever is open, rows that are told stand on what has kept its word.
    ensures kept { IsSome (⟦<SqlKeeper<S, O> as Keeper>⟧.means keeper.now).rows → IsTrue (⟦<SqlKeeper<S, O> as Keeper>⟧.means keeper.now).sound }
{}

/// What is known of a database that is found in a file of the disk: it is what the file, as it was
/// left, recovers to.
pub fn a_file_is_found_as_it_recovers<T: Start>()
    ensures { (path : List ℕ) (db : Database) → ⟦<DiskFile<'static, T> as Open<FileStore<FileFrom<T>>>>⟧.finds path db → IsFoundIn (image_at T.Start) db }
{}
