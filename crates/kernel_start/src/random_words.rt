//! The random words of a session.
ghost use Rattle.std.specs.Prelude.{◌≡◌, ℕ, List, None};
ghost use Rattle.world.specs.Counts.{RandCause};
ghost use Rattle.world.specs.Moments.{Told, Since};
ghost use Rattle.world.specs.Parts.{IsOf, OnRand};
ghost use Rattle.world.specs.Touched.{Spares};
ghost use Rattle.kernel_start.specs.RandomWords.{Draws, DrawsPair};

use world::Rand;

/// Two pairs of random words, which name a session and make its key.
#[derive(Clone, Copy, Debug, Drop, PartialEq, Eq)]
pub struct RandomPairs {
    /// The words of the session's name.
    pub name: (u64, u64),
    /// The words of its key.
    pub key: (u64, u64),
}

/// Draws four random words, those of the name first. After the first word that can't be had no
/// further one is drawn.
pub fn random_pairs<W: Rand>(w: &mut W) -> Option<RandomPairs>
    ensures entries { Told (W.journal w.old) (W.journal w.new) (Draws result) }

    // It draws alone, and without an answer one could not be had.
    ensures part { Told (W.journal w.old) (W.journal w.new) (Since (IsOf OnRand)) }
    ensures others { (path : List ℕ) →
        Told (W.journal w.old) (W.journal w.new) (Since (Spares path)) }
    ensures cause { RandCause (W.counts w.old) (W.counts w.new) (result ≡ None) }
{
    drawn_pairs(w)
}

/// The same, by its entries.
fn drawn_pairs<W: Rand>(w: &mut W) -> Option<RandomPairs>
    ensures entries { Told (W.journal w.old) (W.journal w.new) (Draws result) }
    ensures cause { RandCause (W.counts w.old) (W.counts w.new) (result ≡ None) }
{
    let name = drawn_pair(w)?;
    let key = drawn_pair(w)?;
    Some(RandomPairs { name, key })
}

fn drawn_pair<W: Rand>(w: &mut W) -> Option<(u64, u64)>
    ensures entries { Told (W.journal w.old) (W.journal w.new) (DrawsPair result) }
    ensures cause { RandCause (W.counts w.old) (W.counts w.new) (result ≡ None) }
{
    let first = w.word()?;
    let second = w.word()?;
    Some((first, second))
}
