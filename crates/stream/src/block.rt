// The lines that lie whole in a block.
ghost use Rattle.field.specs.Moduli.{modulus_of};
ghost use Rattle.memory.specs.Stream.{line_of};
ghost use Rattle.pieces.specs.Block.{LinesTaken};

use field::moduli::Modulus;
use fields::written::Written;
use memory::Stand;
use pieces::Taken;

// Every whole line of a block, each as a part of the block: from one line feed to the next, so that
// nothing is counted. The loop stands in crates stream and intake: as one loop over a trait it
// proves, but `check` then executes 6 % more instructions.
#[tactic(auto, using(pieces::proofs::Feeds::feed_some))]
pub fn lines_in(k: Modulus, mut stand: Stand, block: &[u8]) -> Taken<Stand>
    ensures { LinesTaken (line_of (modulus_of k)) stand block.now result.known result.used }
{
    let mut used = 0;
    while let Some(at) = pieces::feed_from(block, used) {
        let line = Written {
            text: &block[used..at],
            ended: true,
        };
        stand = stands::line(k, stand, &line);
        used = at + 1;
    }
    Taken { known: stand, used }
}
