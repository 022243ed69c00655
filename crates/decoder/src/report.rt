// What a decoder answers. Assumes nothing.

// The figures of a search since the load.
#[derive(Clone, Copy, PartialEq, Eq, Debug)]
pub struct Report {
    // the metric of the shown word; absent unless one is shown
    pub shown: Option<u32>,
    // the least metric that the store shed; absent until something was shed
    pub floor: Option<u32>,
    // no word that is still to come costs less: the lesser of the floor and the first kept metric, absent if both are
    pub bound: Option<u32>,
    pub steps: u32,
    pub failures: u32,
}

// What an advance met.
#[derive(Clone, Copy, PartialEq, Eq, Debug)]
pub enum Met {
    // a word, whose payload the call `word` writes; the phase is shown
    Shown,
    // nothing is kept; the phase is ended
    NoneLeft,
    // as many failures or steps as the load allows; the phase is ended
    GivenUp,
    // as many steps as this call allows; the phase is searching
    Paused,
}
