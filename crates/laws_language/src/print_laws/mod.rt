//! What is printed is read again: the printed text of a tree has the tokens of the tree, and is
//! parsed as the same tree, but for places, where it is not too deep; and how deep the texts of
//! trees with types are.
pub mod examples;
pub mod laws;
