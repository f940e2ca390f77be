//! What an encoder holds, part by part and number by number.
ghost use Rattle.std.specs.Prelude.{◌≡◌, length};
ghost use Rattle.party.specs.Read.{given_of, terms_of, structure_of, tally_of};

use crate::encoder::{Encoder, Given, Structure, Tally, Terms};

impl Encoder {
    /// What the start wrote.
    pub fn given(&self) -> Given
        ensures { given_of result ≡ self.now.given }
    {
        self.given
    }

    /// The pending terms.
    pub fn terms(&self) -> &Terms
        ensures terms { terms_of result.now ≡ self.now.terms }
        ensures widths { (length result.now.weights ≡ 128) × (length result.now.words ≡ 128) }
    {
        self.terms.told()
    }

    /// What the last build left.
    pub fn structure(&self) -> &Structure
        ensures structure { structure_of result.now ≡ self.now.structure }
        ensures width { length result.now.outputs ≡ 48 }
    {
        self.structure.told()
    }

    /// The clauses that stand in the buffer, and the numbers drawn.
    pub fn tally(&self) -> Tally
        ensures { tally_of result ≡ self.now.tally }
    {
        self.tally
    }

    /// The first fresh number.
    pub fn first(&self) -> u32
        ensures { result ≡ self.now.given.first }
    {
        self.given.first
    }

    /// How many nodes there are.
    pub fn nodes(&self) -> u32
        ensures { result ≡ self.now.structure.nodes }
    {
        self.structure.nodes
    }

    /// How many bound records there are.
    pub fn bounds(&self) -> u32
        ensures { result ≡ self.now.bounds }
    {
        self.bounds
    }

    /// The clauses that stand in the buffer.
    pub fn clauses(&self) -> usize
        ensures { result ≡ self.now.tally.clauses }
    {
        self.tally.clauses
    }

    /// The numbers that accepted calls drew.
    pub fn drawn(&self) -> u32
        ensures { result ≡ self.now.tally.drawn }
    {
        self.tally.drawn
    }

    /// How many literals are pending.
    pub fn pending(&self) -> usize
        ensures { result ≡ self.now.terms.count }
    {
        self.terms.count
    }
}
