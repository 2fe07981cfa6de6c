// What every crate may use and none owns: the lesser of two sizes. Its specs have the choice by a test and the form of "no second answer".
#![tactic(auto)]

ghost use Rattle.std.specs.Prelude.{◌≡◌, min};

// The lesser of two sizes.
pub fn least(a: usize, b: usize) -> usize
    ensures { result ≡ min a b }
{
    a.min(b)
}
