// What a book is: lines between blocks, changed one at a time and never closing a circle.
ghost use Rattle.std.specs.Prelude.{◌≡◌};
ghost use Rattle.books.specs.Graph.{Meaning, Lawful};
ghost use Rattle.books.specs.Calls.Effect.{querying};
ghost use Rattle.books.specs.Calls.{Effect, change_effect, query_effect, entering, entered, striking, struck, factoring, reaching, supporting, needing, totalling};

use crate::fault::BookFault;
use factors::factor::Factor;

/// A book of one factor kind. Every call keeps `sound`, the condition that opening brings about.
// The rules have each book name its condition, so it stands with the calls and not in a type.
pub trait Book {
    type Kind: Factor;

    // the size and the lines with their factors
    ghost meaning: { Self → Meaning Self.Kind };

    // the condition in which the laws and the promises hold
    ghost sound: { Self → Type 0 };

    // what a call of each effect may alter of what the implementation holds beside the meaning
    ghost alters: { Effect → Self → Self → Type 0 };

    /// The number of blocks, 0 for a book that could not be opened.
    fn size(&mut self) -> usize
        requires { sound self.old }
        ensures answers { result ≡ (meaning self.old).size }
        ensures leaves { meaning self.new ≡ meaning self.old }
        ensures keeps { sound self.new }
        ensures same { alters querying self.old self.new };

    /// Adds the line from `a` to `b`, unless it would be none between two blocks, stands already or closes a circle.
    fn enter(&mut self, a: usize, b: usize, factor: Self::Kind) -> Result<(), BookFault>
        requires { sound self.old }
        ensures answers { result ≡ entering (meaning self.old) a b }
        ensures leaves { meaning self.new ≡ entered (meaning self.old) a b factor }
        ensures keeps { sound self.new }
        ensures same { alters (change_effect result) self.old self.new };

    /// Removes the line from `a` to `b`.
    fn strike(&mut self, a: usize, b: usize) -> Result<(), BookFault>
        requires { sound self.old }
        ensures answers { result ≡ striking (meaning self.old) a b }
        ensures leaves { meaning self.new ≡ struck (meaning self.old) a b }
        ensures keeps { sound self.new }
        ensures same { alters (change_effect result) self.old self.new };

    /// The factor of the line from `a` to `b`.
    fn factor(&mut self, a: usize, b: usize) -> Result<Self::Kind, BookFault>
        requires { sound self.old }
        ensures answers { result ≡ factoring (meaning self.old) a b }
        ensures leaves { meaning self.new ≡ meaning self.old }
        ensures keeps { sound self.new }
        ensures same { alters (query_effect result) self.old self.new };

    /// Whether a chain of lines goes from `a` to `b`.
    fn reach(&mut self, a: usize, b: usize) -> Result<bool, BookFault>
        requires { sound self.old }
        ensures answers { result ≡ reaching (meaning self.old) a b }
        ensures leaves { meaning self.new ≡ meaning self.old }
        ensures keeps { sound self.new }
        ensures same { alters (query_effect result) self.old self.new };

    /// How many lines end at `b` whose upper block `a` reaches.
    fn support(&mut self, a: usize, b: usize) -> Result<u16, BookFault>
        requires { sound self.old }
        ensures answers { result ≡ supporting (meaning self.old) a b }
        ensures leaves { meaning self.new ≡ meaning self.old }
        ensures keeps { sound self.new }
        ensures same { alters (query_effect result) self.old self.new };

    /// Whether the line from `a` to `b` is needed: no chain of two lines or more goes from `a` to `b`.
    fn need(&mut self, a: usize, b: usize) -> Result<bool, BookFault>
        requires { sound self.old }
        ensures answers { result ≡ needing (meaning self.old) a b }
        ensures leaves { meaning self.new ≡ meaning self.old }
        ensures keeps { sound self.new }
        ensures same { alters (query_effect result) self.old self.new };

    /// The sum over all chains from `a` to `b` of the product of their factors.
    fn total(&mut self, a: usize, b: usize) -> Result<Self::Kind, BookFault>
        requires { sound self.old }
        ensures answers { result ≡ totalling (meaning self.old) a b Self.Kind.Factor.ring.ops }
        ensures leaves { meaning self.new ≡ meaning self.old }
        ensures keeps { sound self.new }
        ensures same { alters (query_effect result) self.old self.new };

    // The law of every book: at most 64 blocks, lines only between blocks, no circle.
    ghost lawful: { (s : Self) → sound s → Lawful (meaning s) };
}
