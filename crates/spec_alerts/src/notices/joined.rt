/// What became of a name that was to be added. (Own choice.)
#[derive(Clone, Copy, PartialEq, Eq, Debug)]
pub enum Joined {
    /// It is a receiver from now on.
    New,
    /// It was one already.
    Known,
    /// There are as many receivers as there may be.
    Full,
}
