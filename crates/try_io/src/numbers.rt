//! What a program has read, taken number by number.
ghost use Rattle.std.specs.Prelude.{◌≡◌, ◌==◌, List, ℤ, pos, min, drop, length, slice_get, unwrap_or};
ghost use Rattle.try_io.specs.Narrow.{clamped};

use crate::first_of_mut;
use crate::width::{FromNumber, as_usize};
use std::marker::Model;

/// The numbers that are left to a program. A clause sees them as a list.
#[derive(Drop)]
pub struct Numbers<'a> {
    left: &'a [i64],
}

impl<'a> Model for Numbers<'a> {
    ghost Value = { List ℤ };

    ghost view = { λ n. n.left.now };
}

impl<'a> Numbers<'a> {
    /// All numbers of a list.
    pub fn new(left: &'a [i64]) -> Self
        ensures { result ≡ left.now }
    {
        Numbers { left }
    }

    /// Whether none is left.
    pub fn is_empty(&self) -> bool
        ensures { result ≡ (length self.now == 0) }
    {
        self.left.is_empty()
    }

    /// How many are left.
    pub fn len(&self) -> usize
        ensures { result ≡ length self.now }
    {
        self.left.len()
    }

    /// The number at a place after the next; it stays.
    pub fn peek(&self, place: usize) -> Option<i64>
        ensures { result ≡ slice_get self.now place }
    {
        self.left.get(place).copied()
    }

    /// The next number; `None` at the end.
    pub fn next(&mut self) -> Option<i64>
        ensures number { result ≡ slice_get self.old 0 }
        ensures left { self.new ≡ drop 1 self.old }
    {
        let (first, rest) = self.left.split_first()?;
        self.left = rest;
        Some(*first)
    }

    /// The next number as a type has it; of 0 at the end.
    pub fn read<T: FromNumber>(&mut self) -> T
        ensures value { result ≡ T.value_of (unwrap_or (slice_get self.old 0) (pos 0)) }
        ensures left { self.new ≡ drop 1 self.old }
    {
        T::from_number(self.next().unwrap_or(0))
    }

    /// The next number as a count: one below 0 counts nothing.
    pub fn count(&mut self) -> usize
        ensures value { result ≡ clamped (unwrap_or (slice_get self.old 0) (pos 0)) 18446744073709551615 }
        ensures left { self.new ≡ drop 1 self.old }
    {
        as_usize(self.read())
    }

    /// Leaves numbers out.
    pub fn skip(&mut self, count: usize)
        ensures { self.new ≡ drop count self.old }
    {
        self.left = &self.left[count.min(self.left.len())..];
    }

    /// As many numbers as a list has room for.
    pub fn fill<T: FromNumber + Drop>(&mut self, list: &mut [T])
        ensures { self.new ≡ drop (length list.old) self.old }
    {
        for item in list {
            *item = self.read();
        }
    }

    /// A list: its length, and its numbers, into the room's start; of a longer list as many as there is room for.
    pub fn list<'r, T: FromNumber + Drop>(&mut self, room: &'r mut [T]) -> &'r [T]
        ensures left { self.new ≡ drop (length result.now) (drop 1 self.old) }
        ensures length { length result.now ≡ min (clamped (unwrap_or (slice_get self.old 0) (pos 0)) 18446744073709551615) (length room.old) }
    {
        let count = self.count();
        self.list_of(count, room)
    }

    /// A list whose length is known.
    pub fn list_of<'r, T: FromNumber + Drop>(&mut self, count: usize, room: &'r mut [T]) -> &'r [T]
        ensures length { length result.now ≡ min count (length room.old) }
        ensures left { self.new ≡ drop (min count (length room.old)) self.old }
    {
        let list = first_of_mut(room, count);
        self.fill(list);
        list
    }

    /// As many numbers as are asked for, into a table's start; those beyond the table are left out.
    pub fn lay<T: FromNumber + Drop>(&mut self, count: usize, table: &mut [T])
        ensures { self.new ≡ drop count self.old }
    {
        let list = first_of_mut(table, count);
        let beyond = count.saturating_sub(list.len());
        self.fill(list);
        self.skip(beyond);
    }

    /// Tells case after case until no number is left. A case takes at least one.
    pub fn each_case<F: FnMut(&mut Numbers<'a>)>(mut self, mut tell: F)
        requires { F.IsAlwaysCallable tell }
    {
        for _ in 0..self.left.len() {
            if self.is_empty() {
                break;
            }
            tell(&mut self);
        }
    }
}
