//! What leaves the queue of a list: equal elements from either end, and what lies outside a range.
//!
//! An element that stays goes from the end that is looked at to the other one, so after a whole turn the
//! queue stands in its order again. Once enough are removed, the rest of the turn is made at once by the
//! shorter way round. Every element moves within the queue, so no memory is taken.

ghost use Rattle.std.specs.Prelude.{◌≡◌, ◌≤◌, reverse, take, drop};
ghost use Rattle.std.specs.VecDeque.{deque_len, deque_capacity};
ghost use Rattle.df_model.specs.Meaning.Lists.{without, without_first};

use df_model::Bin;
use std::collections::VecDeque;

/// Removes the first `count` elements that equal this one, the last ones where it is negative, all where
/// it is 0.
pub fn remove_equal(queue: &mut VecDeque<Bin>, element: &[u8], count: i64)
    ensures items { queue.new.items ≡ without count element.now queue.old.items }
    ensures len { deque_len queue.new ≤ deque_len queue.old }
    ensures capacity { deque_capacity queue.new ≡ deque_capacity queue.old }
{
    if count == 0 {
        let all = queue.len();
        return remove_first(queue, element, all);
    }
    if count < 0 {
        return remove_last(queue, element, count.unsigned_abs() as usize);
    }
    remove_first(queue, element, count as usize)
}

/// Removes the first `most` elements that equal this one.
fn remove_first(queue: &mut VecDeque<Bin>, element: &[u8], most: usize)
    ensures items { queue.new.items ≡ without_first most element.now queue.old.items }
    ensures len { deque_len queue.new ≤ deque_len queue.old }
    ensures capacity { deque_capacity queue.new ≡ deque_capacity queue.old }
{
    let mut wanted = most;
    let mut left = queue.len();
    'turn: while wanted > 0 && left > 0 {
        left -= 1;
        if let Some(first) = queue.pop_front() {
            if first.as_slice() == element {
                wanted -= 1;
            } else {
                queue.push_back_reserved(first);
            }
        }
    }
    queue.rotate_left(left);
}

/// Removes the last `most` elements that equal this one.
fn remove_last(queue: &mut VecDeque<Bin>, element: &[u8], most: usize)
    ensures items { queue.new.items ≡ reverse (without_first most element.now (reverse queue.old.items)) }
    ensures len { deque_len queue.new ≤ deque_len queue.old }
    ensures capacity { deque_capacity queue.new ≡ deque_capacity queue.old }
{
    let mut wanted = most;
    let mut left = queue.len();
    'turn: while wanted > 0 && left > 0 {
        left -= 1;
        if let Some(last) = queue.pop_back() {
            if last.as_slice() == element {
                wanted -= 1;
            } else {
                queue.push_front_reserved(last);
            }
        }
    }
    queue.rotate_right(left);
}

/// Keeps the elements from `start` up to `stop`.
pub fn keep(queue: &mut VecDeque<Bin>, start: usize, stop: usize)
    ensures items { queue.new.items ≡ drop start (take stop queue.old.items) }
    ensures len { deque_len queue.new ≤ deque_len queue.old }
    ensures capacity { deque_capacity queue.new ≡ deque_capacity queue.old }
{
    queue.truncate(stop);
    // A range may begin far behind the last element.
    let mut left = start.min(queue.len());
    'front: while left > 0 {
        left -= 1;
        let _first = queue.pop_front();
    }
}
