//! The worked examples: one list of claims, each of which the checker computes to be so.
#![tactic(auto)]

ghost use Rattle.std.specs.Prelude.{All};
ghost use Rattle.analysis_cases.specs.Claims.{Holds};
ghost use Rattle.analysis_cases.specs.Examples.{examples};

/// Every worked example holds.
// Kept beside that of `cases`, no plainer: the claims of the two are of two types, with two meanings.
pub fn examples_hold()
    ensures { All Holds examples }
{}
