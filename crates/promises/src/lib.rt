// The user's demands as theorems over the definitions that the contracts cite: the statements stand in specs/, the theorems in proofs/.
#![tactic(auto)]

ghost use Rattle.std.specs.Prelude.{◌≡◌};

// How many refusals a reader can give: 1 to 8 and 12 to 14; 9 to 11 are the writer's.
pub fn reader_refusals() -> u8
    ensures { result ≡ 11 }
{
    11
}
