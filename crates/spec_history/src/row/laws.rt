//! Laws of rows, each as the contract of a function that does nothing.
ghost use Rattle.std.specs.Prelude.{◌≡◌, ◌≢◌, ◌<◌, ℕ, List, [], ◌∷◌, ◌++◌, length, map, Some, None, Ok, Err};
ghost use Rattle.pr_num.specs.declared.value.Point.{Point};
ghost use Rattle.spec_history.specs.Admission.{admit};
ghost use Rattle.spec_history.specs.private.Laws.{IsLawful, IsLawfulAfter, AreEntries};
ghost use Rattle.spec_history.specs.declared.append.Append.TheVariants.{Added};
ghost use Rattle.spec_history.specs.declared.entry.Entry.{Entry};
ghost use Rattle.spec_history.specs.declared.row.Row.{Row};
ghost use Rattle.spec_history.specs.Histories.{history_of};
ghost use Rattle.spec_history.specs.Points.{IsFitPoint, point_of, shown_point};
ghost use Rattle.spec_history.specs.Rows.{encoded, decoded, IsEntry};

/// The printed text of every point names that point.
#[tactic(auto, using(crate::proofs::PointTexts::point_back))]
pub fn printed_points_read_back()
    ensures { (p : Point) → IsFitPoint p → point_of (shown_point p) ≡ Some p }
{}

/// The row of an entry decodes as that entry, and a row that decodes is the row of its entry.
pub fn rows_decode_as_their_entries()
    ensures back { (entry : Entry) → IsEntry entry → decoded (encoded entry) ≡ Some entry }
    ensures only { (row : Row) (entry : Entry) → decoded row ≡ Some entry → row ≡ encoded entry }
{}

/// What rows tell is lawful, and has an entry for each of them. It goes on with the rows of entries
/// that are added, and with each row whose entry is; a row of no entry, and one whose entry is not
/// added, is the first bad one, and stays so whatever comes behind it.
pub fn rows_tell_a_history()
    ensures lawful { (rows : List Row) (history : List Entry) → history_of rows ≡ Ok history → IsLawful history × (length history ≡ length rows) }
    ensures added { (rows : List Row) (history entries : List Entry) → history_of rows ≡ Ok history → AreEntries entries → IsLawfulAfter history entries → history_of (rows ++ map encoded entries) ≡ Ok (history ++ entries) }
    ensures next { (rows : List Row) (row : Row) (history : List Entry) (e : Entry) → history_of rows ≡ Ok history → decoded row ≡ Some e → admit history e.labels e.time e.point ≡ Added → history_of (rows ++ row ∷ []) ≡ Ok (history ++ e ∷ []) }
    ensures no_entry { (rows more : List Row) (row : Row) (history : List Entry) → history_of rows ≡ Ok history → decoded row ≡ None → history_of (rows ++ row ∷ more) ≡ Err (length rows) }
    ensures refused { (rows more : List Row) (row : Row) (history : List Entry) (e : Entry) → history_of rows ≡ Ok history → decoded row ≡ Some e → admit history e.labels e.time e.point ≢ Added → history_of (rows ++ row ∷ more) ≡ Err (length rows) }
    ensures first { (rows more : List Row) (at : ℕ) → history_of rows ≡ Err at → (at < length rows) × (history_of (rows ++ more) ≡ Err at) }
{}
