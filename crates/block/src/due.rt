// Which field is due next: its tag, its length and the codes that it may hold. Assumes nothing.
ghost use Rattle.std.specs.Prelude.{◌≡◌};
ghost use Rattle.block.specs.Fields.{tag_of, length_of};

#[derive(Clone, Copy, PartialEq, Eq, Debug)]
pub enum Due {
    // tag 1
    Plan,
    // tag 2
    Search,
    // tag 3, for a plan of `sent` sent bits
    Values { sent: u16 },
}

impl Due {
    pub fn tag(self) -> u8
        ensures { result ≡ tag_of self }
    {
        match self {
            Due::Plan => 1,
            Due::Search => 2,
            Due::Values { .. } => 3,
        }
    }

    // The bytes of the body.
    pub fn length(self) -> usize
        ensures { result ≡ length_of self }
    {
        match self {
            Due::Plan | Due::Search => 9,
            Due::Values { sent } => 2 * usize::from(sent),
        }
    }
}
