//! The ways to combine sets.

/// What is made of several sets: the members of all, those of any, or those of the first alone.
#[derive(Clone, Copy, Debug, PartialEq, Eq)]
pub enum Combine {
    Inter,
    Union,
    Diff,
}
