// The book as lists and what the calls do to it: definitions in specs/. The code is the numbers of its rules and the sequence rule.
#![tactic(auto)]

ghost use Rattle.std.specs.Prelude.{◌≡◌, ◌<◌};
ghost use Rattle.history.specs.Rules.{in_step};

// How many masters a port holds.
pub const MASTERS: usize = 8;

// Whether a message of one sequence may follow the last one held: the difference is below 32767.
pub fn in_step(before: u64, after: u64) -> bool
    requires { (before < 65536) × (after < 65536) }
    ensures { result ≡ in_step before after }
{
    (after + 65536 - before) % 65536 < 32767
}
