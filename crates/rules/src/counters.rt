// Counters of rows and gates, and the numbers of lines: at the largest number of their type they
// stay.
ghost use Rattle.std.specs.Prelude.{◌≡◌};
ghost use Rattle.memory.specs.Step.{raise};

// x + k, and at most the largest number of a counter.
#[tactic(auto, unfolding(memory::specs::Step::top, memory::specs::Step::raise))]
pub fn raise(x: u32, k: u64) -> u32
    ensures { result ≡ raise x k }
{
    x.saturating_add(u32::try_from(k).unwrap_or(u32::MAX))
}
