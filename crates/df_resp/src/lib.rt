//! RESP2: requests from a stream in any pieces, and replies to bytes.
//!
//! How a request is taken: `held` has what came. `front` looks at what stands first, a frame's line
//! or a word. `input` takes it from there, step by step, and counts the bytes. After the last word
//! `Reader::next` gives the words. What a reader promises is in specs/Next and specs/Stream; specs/Scan,
//! Lines and Frames read the same bytes as functions on lists, and proofs/ shows that these are right.
#![tactic(auto)]

mod encoder;
mod front;
mod held;
mod input;
pub mod laws;
mod limits;
mod reader;

pub use encoder::{
    encode, encode_array_head, encode_bulk, encode_count, encode_error, encode_int, encode_null,
    encode_null_array, encode_protocol_error, encode_simple,
};
pub use reader::{Next, Reader};
