// Station sets and configurations: definitions and laws; what the code has of them are two names and the sides.
#![tactic(auto)]

ghost use Rattle.std.specs.Prelude.{◌≡◌};
ghost use Rattle.quorum.specs.Configurations.{side_start};

// "A configuration is 32 bytes".
pub const CONFIG_SIZE: usize = 32;

// How many places a side has.
pub const SIDE_SIZE: usize = 8;

// The two sides of a configuration, by the place where each starts.
#[derive(Clone, Copy, Debug, PartialEq, Eq)]
pub enum Side {
    Read = 0,
    Write = 8,
}

impl Side {
    // The place where it starts.
    pub fn start(self) -> usize
        ensures { result ≡ side_start self }
    {
        self as usize
    }
}
