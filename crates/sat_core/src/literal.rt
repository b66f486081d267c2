//! Variables, literals and the numbers of clauses.

ghost use Rattle.std.specs.Prelude.{◌≡◌, ◌≤◌};
ghost use Rattle.sat_core.specs.Clauses.{negated as negation};
ghost use Rattle.sat_core.specs.Marks.{mark_place};

/// A variable, numbered from 1.
#[derive(Clone, Copy, Debug, Default, PartialEq, Eq, PartialOrd, Ord, Hash)]
pub struct Var(pub u32);

/// A variable or its negation.
#[derive(Clone, Copy, Debug, Default, PartialEq, Eq, PartialOrd, Ord, Hash)]
pub struct Lit {
    pub var: Var,
    /// Whether it is the variable itself.
    pub positive: bool,
}

/// The number of a clause. A formula numbers its clauses from 1.
#[derive(Clone, Copy, Debug, Default, PartialEq, Eq, PartialOrd, Ord, Hash)]
pub struct ClauseId(pub u32);

impl Lit {
    /// The literal of the same variable with the other sign.
    pub fn negated(self) -> Lit
        ensures { result ≡ negation self }
    {
        Lit {
            var: self.var,
            positive: !self.positive,
        }
    }

    /// The literal's place in a table that has two places for each variable.
    pub fn place(self) -> usize
        requires { 1 ≤ self.var.0 }
        ensures { result ≡ mark_place self }
    {
        2 * (self.var.0 as usize - 1) + usize::from(self.positive)
    }
}
