//! What the two programs do with their streams: the input is read in blocks, each of which is handed on, and a text is written in
//! pieces. Both end: nothing says that an input does, so the turns are counted down from a number that no run uses up.
#![tactic(auto)]

ghost use Rattle.std.specs.Prelude.{IfSome, List, ℕ, OnOk};
ghost use Rattle.std.specs.Io.KnownBytes.{Appends, IsAtEnd};
ghost use Rattle.printing.specs.Pieces.{rest_at};
ghost use Rattle.streams.specs.Blocks.{TakesAll};

use printing::pieces;
use printing::pieces::Pieces;
use std::io;
use std::io::{ErrorKind, Read, Write};

/// The bytes of a block that is read, and of a piece that is written, at most.
const BLOCK: usize = 4096;

/// Hands the whole input on, block after block.
pub fn read_blocks<R: Read, F: FnMut(&[u8])>(input: &mut R, mut take: F) -> io::Result<()>
    requires { F.IsAlwaysCallable take }
    ensures end { OnOk result (IsAtEnd (R.remaining input.new)) }
    ensures taken { OnOk result (IfSome (R.remaining input.old) (TakesAll F.FnMut take)) }
{
    let mut block = [0u8; BLOCK];
    for _ in 0..u64::MAX {
        let n = input.read(&mut block)?;
        if n == 0 {
            return Ok(());
        }
        take(&block[..n]);
    }
    Err(ErrorKind::TimedOut.into())
}

/// Writes what is to be written of a text from a part on, piece after piece.
pub fn write_text<T: Pieces, W: Write>(
    text: &T,
    first: Option<T::Part>,
    out: &mut W,
) -> io::Result<()>
    ensures { OnOk result (Appends (W.contents out.old) (W.contents out.new) (rest_at (T.rest text.now) first)) }
{
    let mut piece = [0u8; BLOCK];
    let mut next = first;
    for _ in 0..u64::MAX {
        if next.is_none() {
            return Ok(());
        }
        let wrote = pieces::write(text, next, &mut piece);
        out.write_all(&piece[..wrote.len])?;
        next = wrote.next;
    }
    Err(ErrorKind::TimedOut.into())
}
