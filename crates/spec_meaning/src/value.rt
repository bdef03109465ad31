use pr_ast::labels::Item;
use pr_ast::words_crate::Items;
use pr_num::Num;

/// What an expression gives at a moment. (Prometheus: Querying basics, "Expression language data
/// types".)
#[derive(Debug, Drop)]
pub enum Value {
    /// A number.
    Scalar { value: Num },
    /// An instant vector: elements in label order, with distinct label sets.
    Vector { items: Items<Item<Num>> },
}
