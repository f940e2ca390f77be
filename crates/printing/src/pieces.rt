//! A text that is too long for one buffer is written in pieces: token by token, while there is room for the longest. What the pieces make
//! up does not depend on how long they are (`proofs/Written`, `written-whole`).
ghost use Rattle.std.specs.Prelude.{◌≡◌, ◌+◌, ◌≤◌, List, ℕ, length};
ghost use Rattle.printing.specs.Pieces.{Piece, Token};

/// Where the writing goes on, none at its end; and the place after the last byte that was put.
#[derive(Clone, Copy, Debug, PartialEq, Eq)]
pub struct Wrote<A> {
    pub next: Option<A>,
    pub len: usize,
}

/// A text that is written token by token, each from one part of the text to the next.
pub trait Pieces {
    type Part: Copy;

    /// What is still to be written from a part on.
    ghost rest: { Self → Self.Part → List ℕ };

    /// How many turns are left at most.
    ghost left: { Self → Self.Part → ℕ };

    ghost longest: { ℕ };

    /// No token has more bytes. A function, since the check gives a constant of an `impl` with a lifetime no proof.
    fn longest() -> usize
        ensures { result ≡ longest };

    /// The token of a part, if it has one, from a place of the buffer on.
    fn put_token(&self, part: Self::Part, out: &mut [u8], at: usize) -> Wrote<Self::Part>
        requires { at + longest ≤ length out.old }
        ensures { Token (rest self.now) (left self.now) part result.next at result.len out.old out.new };
}

/// The next piece, from the buffer's first byte on: every token that surely fits.
/// A `while`: what is free decides, and no token says before how long it is.
pub fn write<P: Pieces>(text: &P, part: Option<P::Part>, out: &mut [u8]) -> Wrote<P::Part>
    ensures { Piece (P.rest text.now) (P.left text.now) P.longest part result.next result.len out.old out.new }
{
    let mut wrote = Wrote { next: part, len: 0 };
    while P::longest() <= out.len() - wrote.len {
        let Some(part) = wrote.next else {
            return wrote;
        };
        wrote = text.put_token(part, out, wrote.len);
    }
    wrote
}
