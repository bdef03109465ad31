// Whether the tables of a database are those of the store.
ghost use Rattle.std.specs.Prelude.{◌≡◌, ◌↔◌, ◌⊎◌, ◌∷◌, [], All, Any, Bool, IsTrue, Some, drop, false, true};
ghost use Rattle.sqlite.specs.declared.types.Value.TheVariants.{Null};
ghost use Rattle.pr_keep_sql.specs.private.Tables.{column_of, table_of, Has, HasOurs, IsFree, IsOther, is_named, kept, version, HasOursFirst, schema_of};
ghost use Rattle.pr_keep_sql.specs.declared.tables.Standing.TheVariants.{Free, Ours, Others};

use sqlite_schema::code::Terms;
use sqlite_schema::names::same_name;
use sqlite_schema::schema::{Column, Kind, Schema, Stamps, Table};
use sqlite_value::keys::Collation;
use sqlite_value::value::Value;

fn is_null(value: &Value) -> bool
    ensures { IsTrue result ↔ (value.now ≡ Null) }
{
    matches!(value, Value::Null)
}

fn is_column(column: &Column, name: &[u8], kind: Kind, not_null: bool) -> bool
    ensures { IsTrue result ↔ (column.now ≡ column_of name.now kind not_null) }
{
    column.name.as_slice() == name
        && column.kind == kind
        && !column.is_strict
        && column.not_null == not_null
        && is_null(&column.default)
        && column.collation == Collation::Binary
}

fn is_empty(terms: &Terms) -> bool
    ensures { IsTrue result ↔ (terms.now ≡ []) }
{
    terms.roots.is_empty()
}

fn is_undated(stamps: &Stamps) -> bool
    ensures { IsTrue result ↔ (stamps.now ≡ record { places = []; terms = []; formats = [] }) }
{
    stamps.places.is_empty() && is_empty(&stamps.terms) && stamps.formats.is_empty()
}

// Whether no rule is there but those of the columns and the key.
fn is_unruled(table: &Table) -> bool
    ensures { IsTrue result ↔ (table.now ≡ record table.now { uniques = []; orders = []; checks = []; references = []; computed = []; stamps = record { places = []; terms = []; formats = [] }; is_counted = false }) }
{
    table.uniques.is_empty()
        && table.orders.is_empty()
        && is_empty(&table.checks)
        && table.references.is_empty()
        && table.computed.is_empty()
        && is_undated(&table.stamps)
        && !table.is_counted
}

// Whether the first column is the key, and no other rule is there.
fn is_plain(table: &Table, name: &[u8], tree: u32) -> bool
    ensures { IsTrue result ↔ (table.now ≡ table_of name.now tree table.now.columns) }
{
    table.name.as_slice() == name
        && table.tree == tree
        && table.key == Some(0)
        && table.primary.as_slice() == [0].as_slice()
        && is_unruled(table)
}

fn are_kept(columns: &[Column]) -> bool
    ensures { IsTrue result ↔ (columns.now ≡ kept.columns) }
{
    match columns {
        [seq, series, time, point] => {
            is_column(seq, b"seq", Kind::Integer, false)
                && is_column(series, b"series", Kind::Text, true)
                && is_column(time, b"time", Kind::Integer, true)
                && is_column(point, b"point", Kind::Text, true)
        }
        _ => false,
    }
}

fn are_version(columns: &[Column]) -> bool
    ensures { IsTrue result ↔ (columns.now ≡ version.columns) }
{
    match columns {
        [n] => is_column(n, b"n", Kind::Integer, false),
        _ => false,
    }
}

fn is_kept(table: &Table, tree: u32) -> bool
    ensures { IsTrue result ↔ (table.now ≡ record kept { tree = tree }) }
{
    is_plain(table, b"kept", tree) && are_kept(table.columns.as_slice())
}

fn is_version(table: &Table, tree: u32) -> bool
    ensures { IsTrue result ↔ (table.now ≡ record version { tree = tree }) }
{
    is_plain(table, b"version", tree) && are_version(table.columns.as_slice())
}

fn are_first(tables: &[Table]) -> bool
    ensures { IsTrue result ↔ (tables.now ≡ kept ∷ version ∷ drop 2 tables.now) }
{
    match tables {
        [kept, version, ..] => is_kept(kept, 0) && is_version(version, 1),
        _ => false,
    }
}

// Whether the tables of the store stand first, as the store makes them.
fn has_ours_first(schema: &Schema) -> bool
    ensures { IsTrue result ↔ HasOursFirst schema.now }
{
    are_first(schema.tables.as_slice())
}

// Whether nothing is there.
fn is_bare(schema: &Schema) -> bool
    ensures { IsTrue result ↔ (schema.now ≡ schema_of []) }
{
    schema.tables.is_empty() && schema.indexes.is_empty() && schema.views.is_empty()
}

// Whether the table has a name of the store.
fn is_named(table: &Table) -> bool
    ensures { result ≡ is_named table.now }
{
    same_name(table.name.as_slice(), b"kept") || same_name(table.name.as_slice(), b"version")
}

// Whether no table has a name of the store.
fn is_free(schema: &Schema) -> bool
    ensures { IsTrue result ↔ IsFree schema.now }
{
    schema
        .tables
        .as_slice()
        .iter()
        .all(|table| !is_named(table))
}

fn has_kept(tables: &[Table]) -> bool
    ensures { IsTrue result ↔ Has kept tables.now }
{
    tables.iter().any(|table| is_kept(table, table.tree))
}

fn has_version(tables: &[Table]) -> bool
    ensures { IsTrue result ↔ Has version tables.now }
{
    tables.iter().any(|table| is_version(table, table.tree))
}

// Whether both tables of the store are there, wherever they stand among others.
fn has_ours(schema: &Schema) -> bool
    ensures { IsTrue result ↔ HasOurs schema.now }
{
    has_kept(schema.tables.as_slice()) && has_version(schema.tables.as_slice())
}

/// What a database has, by the names of its tables.
#[derive(Clone, Copy, Debug, PartialEq, Eq)]
pub(crate) enum Standing {
    /// No table has a name of the store.
    Free { is_first: bool },
    /// The tables of the store are there.
    Ours { is_first: bool },
    /// Tables with a name of the store are there, and they are not both of the store.
    Others,
}

/// What this database has. Tables that are to be made will stand first where nothing is there.
#[tactic(auto, using(crate::proofs::FoundLemmas::not_free, crate::proofs::FoundLemmas::bare_is_free))]
pub(crate) fn standing_of(schema: &Schema) -> Standing
    ensures bare { (result ≡ Free true) ↔ (schema.now ≡ schema_of []) }
    ensures first { (result ≡ Ours true) ↔ HasOursFirst schema.now }
    ensures free { IsFree schema.now → (result ≡ Free true) ⊎ (result ≡ Free false) }
    ensures frees { (is_first : Bool) → result ≡ Free is_first → IsFree schema.now }
    ensures others { (result ≡ Others) ↔ IsOther schema.now }
{
    if is_bare(schema) {
        return Standing::Free { is_first: true };
    }
    if is_free(schema) {
        return Standing::Free { is_first: false };
    }
    if has_ours_first(schema) {
        return Standing::Ours { is_first: true };
    }
    if has_ours(schema) {
        Standing::Ours { is_first: false }
    } else {
        Standing::Others
    }
}
