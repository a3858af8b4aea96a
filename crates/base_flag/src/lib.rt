// A yes or no in a table: a `bool`, or a byte that is 1 for yes and any other number for no.
// Functions that only ask a table take either, so that one proof serves both.
#![tactic(auto)]

ghost use Rattle.std.specs.Prelude.{◌≡◌, Bool, eqb};

// What stands for yes or no.
pub trait Flag: Copy {
    /// Whether the value stands for yes.
    ghost raised: { Self → Bool };

    /// Whether it is yes.
    fn is_raised(self) -> bool
        ensures { result ≡ raised self };

    /// The value for a yes or no.
    fn of(yes: bool) -> Self
        ensures { raised result ≡ yes };
}

impl Flag for bool {
    ghost raised = { λ yes. yes };

    fn is_raised(self) -> bool {
        self
    }

    fn of(yes: bool) -> bool {
        yes
    }
}

// A byte, as marks are for C.
impl Flag for u8 {
    ghost raised = { λ byte. eqb byte 1 };

    fn is_raised(self) -> bool {
        self == 1
    }

    fn of(yes: bool) -> u8 {
        u8::from(yes)
    }
}
