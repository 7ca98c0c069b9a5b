//! What goes to and fro stays small. The book's part of it has no bytes.

use crate::answer::Answer;
use crate::message::Message;
use std::mem::size_of;

const _: () = prove!(size_of::<Message>() <= 48);

const _: () = prove!(size_of::<Answer>() <= 56);
