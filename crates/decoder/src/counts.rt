// The counts of a search. Assumes nothing.
ghost use Rattle.std.specs.Prelude.{◌≤◌};

// The limits at which the search gives up, and its counts since the load.
#[derive(Clone, Copy, Drop)]
pub struct Counts {
    // C and T
    pub most_failures: u32,
    pub most_steps: u32,
    // the serial of the next candidate that is put
    pub serial: u32,
    pub steps: u32,
    pub failures: u32,
    ghost few: { most_failures ≤ 64 },
    ghost brief: { most_steps ≤ 16777216 },
}

// Of a decoder that never was loaded.
pub const NO_COUNTS: Counts = Counts {
    most_failures: 0,
    most_steps: 0,
    serial: 0,
    steps: 0,
    failures: 0,
};
