// Kinds of values.
#![tactic(auto)]

ghost use Rattle.std.specs.Prelude.{◌≡◌};
ghost use Rattle.xvalue.specs.Kinds.{same_kind};

/// The kinds of values.
#[derive(Clone, Copy, PartialEq, Eq, Debug)]
pub enum Kind {
    Number,
    Text,
    Date,
    Logical,
}

impl Kind {
    /// Whether both are one kind.
    pub fn is(self, other: Kind) -> bool
        ensures { result ≡ same_kind self other }
    {
        match (self, other) {
            (Kind::Number, Kind::Number) => true,
            (Kind::Text, Kind::Text) => true,
            (Kind::Date, Kind::Date) => true,
            (Kind::Logical, Kind::Logical) => true,
            _ => false,
        }
    }
}
