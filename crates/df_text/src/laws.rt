//! Laws of the definitions, each the contract of a function that does nothing.

ghost use Rattle.df_text.specs.Laws.{SignedAreDecimals, UnsignedAreDecimals};

/// A text is read as a number exactly where it is the decimal of that number.
pub fn numbers_are_decimals()
    ensures signed { SignedAreDecimals }
    ensures unsigned { UnsignedAreDecimals }
{}
