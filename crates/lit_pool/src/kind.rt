//! What the units of a pool are.

/// A unit of words.
#[derive(Clone, Copy)]
pub(crate) enum Kind {
    /// It goes on with a piece that begins before it.
    Inside,
    /// A piece begins here that has no entry.
    Freed,
    /// A piece begins here that has an entry.
    Live,
}
