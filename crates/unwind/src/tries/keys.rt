// The next funclets of a group of paths, each with the calls before it, in order.
ghost use Rattle.std.specs.Prelude.{◌≡◌, length};
ghost use Prim.Native.Nat.{◌+◌, ◌<◌, ◌≤◌, compare};
ghost use Rattle.image.specs.Image.{routes_in};
ghost use Rattle.image.specs.Accepted.{AcceptedRoutes};
ghost use Rattle.image.specs.There.{RoutesThere};
ghost use Rattle.addition.specs.Order.{compare_tagged};
ghost use Rattle.unwind.specs.Interning.{ordering_of, after, Starts, GroupIn, paths_of};
ghost use Rattle.unwind.specs.Keys.{keys_of, key_in, key_of, merged, KeySmall, KeyIn, KeyWithin, is_final, Final, KeyOf, NextAmong, NextOf};

use crate::tries::compare::compare_calls;
use crate::tries::paths::{Group, cut_at, left_of};
use image::access::step_in;
use image::section::RouteLayout;
use std::cmp::Ordering;

// The calls, which are consecutive steps, and the funclet behind them; of the paths looked at, the first and the last that
// has them, and whether another has a key that comes after.
#[derive(Clone, Copy)]
pub struct Key {
    pub step: usize,
    pub calls: usize,
    pub first: usize,
    pub last: usize,
    pub more: bool,
}

// The key that comes next after `last`, or the first one. Where `last` says that there is none, the paths are not looked at.
pub fn next_key(
    s: &[u8],
    y: RouteLayout,
    starts: &[u16],
    g: Group,
    last: Option<Key>,
) -> Option<Key>
    requires accepted { AcceptedRoutes (routes_in s.now y) }
    requires starts { Starts (routes_in s.now y) starts.now }
    requires group { GroupIn (routes_in s.now y) g }
    requires key { KeyIn (routes_in s.now y) g last }
    requires last_final { Final (routes_in s.now y) (keys_of (paths_of (routes_in s.now y) g)) last }
    requires there { RoutesThere s.now y }
    ensures { NextOf (routes_in s.now y) g last result }
{
    if is_final(last) {
        return None;
    }
    let mut best = None;
    for k in 0..g.count {
        best = nearer_key(s, y, starts, g, last, best, k);
    }
    best
}

// Whether a key says that none comes after it.
fn is_final(last: Option<Key>) -> bool
    ensures { result ≡ is_final last }
{
    last.is_some_and(|key| !key.more)
}

// The next key of the group's first k paths is `best`: that of one path more.
fn nearer_key(
    s: &[u8],
    y: RouteLayout,
    starts: &[u16],
    g: Group,
    last: Option<Key>,
    best: Option<Key>,
    k: usize,
) -> Option<Key>
    requires accepted { AcceptedRoutes (routes_in s.now y) }
    requires starts { Starts (routes_in s.now y) starts.now }
    requires group { GroupIn (routes_in s.now y) g }
    requires key { KeyIn (routes_in s.now y) g last }
    requires best { NextAmong (routes_in s.now y) g last k best }
    requires path { k < g.count }
    requires there { RoutesThere s.now y }
    ensures { NextAmong (routes_in s.now y) g last (k + 1) result }
{
    let Some(key) = key_of(s, y, starts, g, g.first + k) else {
        return best;
    };
    let Some(other) = best else {
        if is_after(s, y, last, key) {
            return Some(key);
        }
        return best;
    };
    Some(merge_key(s, y, last, key, other))
}

// The key of path q, if it is one of the group's and enters a funclet.
pub fn key_of(s: &[u8], y: RouteLayout, starts: &[u16], g: Group, q: usize) -> Option<Key>
    requires accepted { AcceptedRoutes (routes_in s.now y) }
    requires starts { Starts (routes_in s.now y) starts.now }
    requires group { GroupIn (routes_in s.now y) g }
    requires path { q < length (routes_in s.now y).paths }
    requires there { RoutesThere s.now y }
    ensures { KeyOf (routes_in s.now y) g q result }
{
    let left = left_of(s, y, starts, g, q)?;
    let calls = cut_at(s, y, left.first, left.count)?;
    Some(Key {
        step: left.first,
        calls,
        first: q,
        last: q,
        more: false,
    })
}

// Whether a key comes after `last`.
fn is_after(s: &[u8], y: RouteLayout, last: Option<Key>, key: Key) -> bool
    requires last_small { KeySmall last }
    requires key_small { key.step + key.calls ≤ 512 }
    requires there { RoutesThere s.now y }
    requires last_within { KeyWithin (routes_in s.now y) last }
    requires key_within { key.step + key.calls < length (routes_in s.now y).steps }
    ensures { result ≡ after (compare_tagged compare) (key_of (routes_in s.now y) last) (key_in (routes_in s.now y) key) }
{
    let Some(other) = last else {
        return true;
    };
    compare_keys(s, y, other, key).is_lt()
}

// Which of a path's key and `best`, which comes after `last`, comes next. If they are the same, the path is the last that
// has it. Only a key that comes before `best` is compared with `last`.
fn merge_key(s: &[u8], y: RouteLayout, last: Option<Key>, key: Key, best: Key) -> Key
    requires last_small { KeySmall last }
    requires key_small { key.step + key.calls ≤ 512 }
    requires best_small { best.step + best.calls ≤ 512 }
    requires there { RoutesThere s.now y }
    requires last_within { KeyWithin (routes_in s.now y) last }
    requires key_within { key.step + key.calls < length (routes_in s.now y).steps }
    requires best_within { best.step + best.calls < length (routes_in s.now y).steps }
    ensures { result ≡ merged (routes_in s.now y) last key best }
{
    match compare_keys(s, y, key, best) {
        Ordering::Greater => Key { more: true, ..best },
        Ordering::Equal => Key {
            last: key.last,
            ..best
        },
        Ordering::Less => {
            if is_after(s, y, last, key) {
                return Key { more: true, ..key };
            }
            best
        }
    }
}

fn compare_keys(s: &[u8], y: RouteLayout, a: Key, b: Key) -> Ordering
    requires small_a { a.step + a.calls ≤ 512 }
    requires small_b { b.step + b.calls ≤ 512 }
    requires there { RoutesThere s.now y }
    requires within_a { a.step + a.calls < length (routes_in s.now y).steps }
    requires within_b { b.step + b.calls < length (routes_in s.now y).steps }
    ensures { ordering_of result ≡ compare_tagged compare (key_in (routes_in s.now y) a) (key_in (routes_in s.now y) b) }
{
    let calls = compare_calls(s, y, a.step, a.calls, b.step, b.calls);
    if calls.is_ne() {
        return calls;
    }
    let x = step_in(s, y.steps, a.step + a.calls);
    let z = step_in(s, y.steps, b.step + b.calls);
    x.value.cmp(&z.value)
}
