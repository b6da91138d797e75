// The worked cases: what the definitions come to, computed.
#![tactic(auto)]

ghost use Rattle.std.specs.Prelude.{◌≡◌};
ghost use Rattle.cases.specs.Table.{table};

// FR has no axiom at size 2, and stores 3 clauses for the small sheet.
// kept: a list of numbers, as the table that it is held to.
pub fn worked_cases() -> [u32; 2]
    ensures { result ≡ table }
{
    [0, 3]
}
