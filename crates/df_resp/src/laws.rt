//! Laws of the definitions, each the contract of a function that does nothing.

ghost use Rattle.df_resp.specs.Laws.{EveryListIsFramed, FramingIsUnique, BadByteBehindFrames};

/// Whatever bytes come, they are whole requests, in order, and then a rest that begins with no whole
/// one. So an output that is said of the framed requests is said of every input.
pub fn every_list_is_framed()
    ensures { EveryListIsFramed }
{}

/// There is one such way alone.
pub fn framing_is_unique()
    ensures { FramingIsUnique }
{}

/// A reader that looks at what is left finds the first bad byte of the whole input.
pub fn bad_byte_behind_frames()
    ensures { BadByteBehindFrames }
{}
