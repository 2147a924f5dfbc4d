// What a graph call leaves: its definitions, laws about them, and the one refusal that changes a room. The calls are those of `estimate`.
#![tactic(auto)]

ghost use Rattle.std.specs.Prelude.{◌≡◌, length, replicate, Err};
ghost use Rattle.rules.specs.declared.Refusal.TheVariants.{Pairing};

use rules::{Finished, Refusal};

// A pairing that was handed in is not accepted: the answer is 19, and the working room is all zeros.
pub fn refuse_pairing(work: &mut [u64]) -> Result<Finished, Refusal>
    ensures value { result ≡ Err Pairing }
    ensures work_after { work.new ≡ replicate (length work.old) 0 }
{
    work.fill(0);
    Err(Refusal::Pairing)
}
