//! What goes to other threads: rows, by value. A lost `Send` shows here at once, and not at the first thread above.

use crate::rows::Rows;

fn is_send<T: Send>(_: &T) {}

fn cross(rows: &Rows) {
    is_send(rows);
}
