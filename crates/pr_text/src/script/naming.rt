// The receivers that a line names.
ghost use Rattle.std.specs.Prelude.{◌≡◌, IfOk};
ghost use Rattle.pr_text.specs.Naming.{name_in, receiver_of, receiver_in, flush_of, flush_in};

use super::order::Order;
use super::script::some_text;
use pr_words::{Text, split_first};
use std::alloc::{AllocError, Global};

// A name, which is one field.
fn name_in(alloc: Global, text: &[u8]) -> Result<Option<Text>, AllocError>
    ensures { IfOk result (λ o. o ≡ name_in text.now) }
{
    let (name, rest) = split_first(text);
    if !rest.is_empty() {
        return Ok(None);
    }
    some_text(alloc, name)
}

fn receiver_of(name: Option<Text>) -> Order
    ensures { result ≡ receiver_of name }
{
    match name {
        Some(name) => Order::Receiver { name },
        None => Order::Bad,
    }
}

fn flush_of(name: Option<Text>) -> Order
    ensures { result ≡ flush_of name }
{
    match name {
        Some(name) => Order::Flush { name },
        None => Order::Bad,
    }
}

/// The order that adds a receiver, by what stands behind its word.
pub(crate) fn receiver_in(alloc: Global, text: &[u8]) -> Result<Order, AllocError>
    ensures { IfOk result (λ order. order ≡ receiver_in text.now) }
{
    Ok(receiver_of(name_in(alloc, text)?))
}

/// The order that hands a receiver its notices, by what stands behind its word.
pub(crate) fn flush_in(alloc: Global, text: &[u8]) -> Result<Order, AllocError>
    ensures { IfOk result (λ order. order ≡ flush_in text.now) }
{
    Ok(flush_of(name_in(alloc, text)?))
}
