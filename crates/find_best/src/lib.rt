// The choice over a list, after bmc/bmca.rs (find_best_announce_message).
#![tactic(auto)]

ghost use Rattle.std.specs.Prelude.{◌≡◌, take};
ghost use Rattle.choice.specs.Candidate.{winner, itself};

use choice::Candidate;

// The choice over a lent list, left to right; nothing for an empty list.
pub fn find_best(cands: &[Candidate]) -> Option<Candidate>
    ensures { result ≡ winner itself cands.now }
{
    let mut held = None;
    for c in cands {
        held = choice::keep(held, *c);
    }
    held
}

// The choice over the first n of a list by value, over all of it where n is more. Eight ports with twelve masters offer 96.
pub fn best_of(list: [Candidate; 96], n: usize) -> Option<Candidate>
    ensures { result ≡ winner itself (take n list) }
{
    find_best(&list[..n.min(96)])
}
