//! Letters in a queue, with room made before.
ghost use Rattle.std.specs.Prelude.{◌≡◌, ◌+◌, ◌≤◌, ◌++◌, [], IfOk, length};
ghost use Rattle.std.specs.VecDeque.{deque_len, deque_capacity};

use mail_base::{Letter, Sequence};
use std::alloc::{AllocError, Global};
use std::collections::VecDeque;

/// An empty queue with room for as many letters as a step of a call that reads sends at most.
pub(crate) fn room_for_letters(alloc: Global) -> Result<VecDeque<Letter>, AllocError>
    ensures none { IfOk result (λ queue. queue.items ≡ []) }
    ensures room { IfOk result (λ queue. deque_len queue + 64 ≤ deque_capacity queue) }
{
    let mut queue = VecDeque::new(alloc);
    queue.reserve(64)?;
    Ok(queue)
}

/// The letters come into the queue, which has room for them. It takes no memory.
pub(crate) fn fill(queue: &mut VecDeque<Letter>, letters: Sequence<Letter>)
    requires room { deque_len queue.old + length letters ≤ deque_capacity queue.old }
    ensures items { queue.new.items ≡ queue.old.items ++ letters }
    ensures len { deque_len queue.new ≡ deque_len queue.old + length letters }
    ensures capacity { deque_capacity queue.new ≡ deque_capacity queue.old }
{
    for letter in letters.into_vec() {
        let _ = queue.push_back(letter);
    }
}
