//! Listings, whose rows are written line by line.
ghost use Rattle.std.specs.Prelude.{List, ℕ, IfOk, OnErr, ◌≡◌};
ghost use Rattle.std.specs.List.{concat};
ghost use Rattle.listings.specs.Listing.{Listed, Steps, pouring};

use av_base::{NoMemory, Sink, Stop, pour_piece};

/// What is listed step by step, each of which adds a line or nothing.
pub trait Listing {
    /// What each step that is left adds.
    ghost left: { Self → List (List ℕ) };

    /// Takes the next step, and answers whether there was one. Where memory runs out nothing is added.
    fn put_next(&mut self, text: &mut Vec<u8>) -> Result<bool, NoMemory>
        ensures steps { IfOk result (λ some.
            Steps some (left self.old) (left self.new) text.old.items text.new.items) }
        ensures err { OnErr result (text.new.items ≡ text.old.items) };
}

/// Takes all steps of a listing. The text is held, and written in pieces.
pub fn put_all<G: Listing, W: Sink>(
    listing: &mut G,
    out: &mut W,
    text: &mut Vec<u8>,
) -> Result<(), Stop>
    ensures listed { Listed (concat (G.left listing.old))
        (pouring W.Sink out.old text.old.items) (pouring W.Sink out.new text.new.items) result }
{
    while listing.put_next(text)? {
        pour_piece(out, text)?;
    }
    Ok(())
}
