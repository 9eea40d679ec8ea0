// Survey words: the types of their rules and places. `rules`, `wellformed` and `places` have the code.
#![tactic(auto)]

// What may stand next: whether there is a device yet, which dumps of the last head were read, whether path space has begun, and the last offset.
#[derive(Clone, Copy)]
pub struct Under {
    pub begun: bool,
    pub registers: bool,
    pub paths: bool,
    pub listing: bool,
    pub least: u32,
}

// Where a device's group starts and where it ends.
#[derive(Clone, Copy)]
pub struct Bounds {
    pub start: usize,
    pub end: usize,
}
