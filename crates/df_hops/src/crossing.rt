//! What goes to other threads: messages and answers, by value. A lost `Send` shows here at once, and not at the first
//! thread above.

use crate::answer::Answer;
use crate::message::Message;

fn is_send<T: Send>(_: &T) {}

fn cross(message: &Message, answer: &Answer) {
    is_send(message);
    is_send(answer);
}
