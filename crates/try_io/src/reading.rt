//! Standard input as numbers.
ghost use Rattle.std.specs.Prelude.{◌≤◌, length};

use crate::first_of;
use crate::numbers::Numbers;
use crate::scan::Scan;
use std::io::Read;

/// Standard input, to its end or to 65,536 bytes, as numbers: as many as there is room for.
pub fn read_numbers<'r>(rt: &impl Input, room: &'r mut [i64]) -> Numbers<'r>
    ensures { length result ≤ length room.old }
{
    let mut text = [0u8; 65536];
    let n = read_full(&mut rt.reader(), &mut text);
    numbers_of(&text[..n], room)
}

/// Reads until the room is full, the input ends or a read fails; the answer is how many bytes are at the room's start.
/// A `while`: each read says how far it came.
fn read_full<R: Read>(from: &mut R, room: &mut [u8]) -> usize
    ensures { result ≤ length room.new }
{
    let mut done = 0;
    while done < room.len() {
        match from.read(&mut room[done..]) {
            Ok(n) if 0 < n => done += n,
            _ => break,
        }
    }
    done
}

/// The numbers of a text; those beyond the room are left out.
pub fn numbers_of<'r>(text: &[u8], room: &'r mut [i64]) -> Numbers<'r>
    ensures { length result ≤ length room.old }
{
    let mut scan = Scan::Outside;
    let mut count = 0;
    for byte in text {
        let next = scan.after(*byte);
        if !next.is_inside() {
            count = stored(room, count, scan);
        }
        scan = next;
    }
    count = stored(room, count, scan);
    Numbers::new(first_of(room, count))
}

/// Stores a number that has been read, if there is one and a place for it; the answer is the next place.
fn stored(room: &mut [i64], count: usize, scan: Scan) -> usize {
    let Some(number) = scan.number() else {
        return count;
    };
    if count < room.len() {
        room[count] = number;
        return count + 1;
    }
    count
}
