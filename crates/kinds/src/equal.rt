ghost use Rattle.std.specs.Prelude.{◌≡◌, Decides};
ghost use Rattle.kinds.specs.Same.{alike};

use crate::kind::Kind;

impl Kind {
    /// Whether two kinds are the same, as `==` tells. It is here to say so in a contract: a derive has no clauses.
    pub fn is(self, other: Kind) -> bool
        ensures value { result ≡ alike self other }
        ensures decides { Decides result (self ≡ other) }
    {
        self == other
    }
}
