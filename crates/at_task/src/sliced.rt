//! A source over bytes that are there.

ghost use Rattle.std.specs.Prelude.{◌≡◌, ◌≤◌, ◌-◌, false, drop, vec_len};

use crate::chunks::Chunks;
use futures::task::{Context, Poll};

/// Bytes that come so many at a time, and tells all that it does. Its calls are numbered from 0, and one is pending,
/// and wakes the task, exactly where its number is listed. No call of its takes memory, and the memory of what was given is
/// let go of once, as soon as that is half of the bytes.
#[derive(Drop)]
pub struct Sliced {
    bytes: Vec<u8>,
    at: usize,
    size: u32,
    listed: Vec<u32>,
    calls: u64,
    waits: u64,
    ended: bool,
    /// No memory was let go of yet.
    whole: bool,
    ghost within: { at ≤ vec_len bytes },
    ghost some: { 1 ≤ size },
}

/// Of fewer bytes that were given the memory isn't let go of.
const FEW: usize = 1 << 20;

/// Lets go of the bytes up to a place, and of their memory. The rest is no longer than these, so it is copied at once.
fn shed(bytes: &mut Vec<u8>, to: usize)
    requires within { to ≤ vec_len bytes.old }
    requires half { vec_len bytes.old - to ≤ to }
    ensures { bytes.new.items ≡ drop to bytes.old.items }
{
    let left = bytes.len() - to;
    let (front, back) = bytes.split_at_mut(to);
    front[..left].copy_from_slice(back);
    bytes.truncate(left);
    bytes.shrink_to_fit();
}

impl Sliced {
    ghost use Rattle.at_task.specs.SlicedChunks.{rest_of, has_ended, waits_of, calls_of, size_of, listed_of};

    /// The bytes, how many a call gives, and the numbers of the calls that are pending.
    pub fn new(bytes: Vec<u8>, size: u32, waits: Vec<u32>) -> Sliced
        requires { 1 ≤ size }
        ensures rest { rest_of result ≡ bytes.items }
        ensures ended { has_ended result ≡ false }
        ensures size { size_of result ≡ size }
        ensures listed { listed_of result ≡ waits.items }
        ensures counts { (calls_of result ≡ 0) × (waits_of result ≡ 0) }
    {
        Sliced {
            bytes,
            at: 0,
            size,
            listed: waits,
            calls: 0,
            waits: 0,
            ended: false,
            whole: true,
        }
    }
}

impl Chunks for Sliced {
    ghost use Rattle.std.specs.Prelude.{◌≡◌, ◌⊎◌, ◌<◌, ◌≤◌, ◌↔◌, ℕ, [], true, length, take, drop, Some};
    ghost use Rattle.at_io.specs.Counts.{next_count, Rose};
    ghost use Rattle.futures.specs.Poll.{IfReady, OnPending};
    ghost use Rattle.futures.specs.Task.{IsArmed, Keeps};
    ghost use Rattle.at_task.specs.Ends.{IsEnd};
    ghost use Rattle.at_task.specs.SlicedChunks.{rest_of, has_ended, waits_of, calls_of, size_of, listed_of};
    ghost use Rattle.at_task.specs.SlicedChunks.{IsListed, given_of};

    ghost rest = { λ s. Some (rest_of s) };

    ghost ended = { has_ended };

    ghost waits = { waits_of };

    fn poll_fill(&mut self, cx: &mut Context<'_>, room: &mut [u8]) -> Poll<usize>
        ensures bound { IfReady result (λ n. n ≤ length room.new) }
        ensures bytes { IfReady result (λ n. (take n room.new ≡ take n (rest_of self.old))
            × (Some (rest_of self.new) ≡ Some (drop n (rest_of self.old)))) }
        ensures end { IsEnd result (length room.new) → has_ended self.new ≡ true }
        ensures nothing_left { IsEnd result (length room.new) → rest_of self.new ≡ [] }
        ensures told { has_ended self.new ≡ true → (has_ended self.old ≡ true) ⊎ IsEnd result (length room.new) }
        ensures ended { has_ended self.old ≡ true → has_ended self.new ≡ true }
        ensures pending { OnPending result (Rose (waits_of self.old) (waits_of self.new)) }
        ensures armed { OnPending result (IsArmed cx.new) }
        ensures unread { OnPending result (Some (rest_of self.new) ≡ Some (rest_of self.old)) }
        ensures counted { waits_of self.old ≤ waits_of self.new }
        ensures kept { Keeps cx.old cx.new }

        // Exactly when it is pending, how many bytes it gives, and what else stays.
        ensures cause { (result ≡ Poll.Pending) ↔ IsListed self.old }
        ensures woken { OnPending result (cx.new.is_woken ≡ true) }
        ensures given { IfReady result (λ n. n ≡ given_of self.old (length room.old)) }
        ensures calls { calls_of self.new ≡ next_count (calls_of self.old) }
        ensures same_size { size_of self.new ≡ size_of self.old }
        ensures same_listed { listed_of self.new ≡ listed_of self.old }
    {
        let number = self.calls;
        self.calls = number.saturating_add(1);
        if self.listed.iter().any(|call| u64::from(*call) == number) {
            self.waits = self.waits.saturating_add(1);
            return cx.yield_now();
        }
        let left = &self.bytes[self.at..];
        let given = left.len().min(room.len()).min(self.size as usize);
        room[..given].copy_from_slice(&left[..given]);
        self.at += given;
        if self.whole && self.at >= FEW && self.bytes.len() - self.at <= self.at {
            shed(&mut self.bytes, self.at);
            self.at = 0;
            self.whole = false;
        }
        if given == 0 && !room.is_empty() {
            self.ended = true;
        }
        Poll::Ready(given)
    }
}
