// A word of a key, an address of a rom or an element of a set: its lookups, above the two links of
// a search tree, each of which is below 65,536.
ghost use Rattle.std.specs.Prelude.{◌≡◌};
ghost use Rattle.words.specs.Counts.{lookups_in};

// One lookup: two links are below this.
pub const LOOKUP: u64 = 4294967296;

// The lookups in a word: a part of it, so no conversion.
#[tactic(auto, unfolding(crate::specs::Counts::lookups_in, crate::specs::Counts::lookup))]
pub fn lookups_in(word: u64) -> u64
    ensures { result ≡ lookups_in word }
{
    word / LOOKUP
}
