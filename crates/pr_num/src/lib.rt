//! Exact decimals.
//!
//! A value is a whole number of units of 10^-9 below 10^29 units in magnitude, or NaN, or an
//! infinity. Sums and differences are exact. A product, a quotient, a mean, a quantile and a text
//! that is read are rounded once, half to even. A result of 10^20 or more is refused as `TooWide`.
//! What each call gives is a definition of `specs/` over whole numbers of any size, and each
//! contract says that the call equals its definition.
#![tactic(auto)]

mod arithmetic;
mod examples;
mod formulas;
mod kept;
mod laws;
mod multiples;
mod order;
mod print;
mod ranks;
mod round;
mod scale;
mod sign;
mod text;
mod totals;
mod value;
mod wide;

pub use examples::{
    lists_by_example, multiples_by_example, products_by_example, quotients_by_example,
    rounding_by_example, sums_by_example, texts_by_example,
};
pub use formulas::{compare_products, half, half_product, muldiv_units};
pub use laws::{
    floor_is_next_below, number_texts_have_the_form, order_is_total, printed_texts_are_ascii,
    printed_texts_read_back, rounding_is_half_to_even, sums_and_products_commute, totals_join,
};
pub use print::write;
pub use ranks::quantile;
pub use text::{NumFault, read};
pub use totals::Total;
pub use value::{Nano, Num, Point, TooWide};
