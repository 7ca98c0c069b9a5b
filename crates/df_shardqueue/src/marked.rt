//! What a queue may keep of each of its items.

/// A value with a mark, for contracts alone. The mark says what the next holder must know of the value
/// beyond its type.
pub trait Marked {
    type Mark;

    ghost mark: { Self → Self.Mark };
}
