// What packs and placements share: what reading their heads and checking their rows gives.
#![tactic(auto)]

// Which file is read: each has its own first numbers.
#[derive(Clone, Copy)]
pub enum FileKind {
    Pack,
    Placement,
}

// The nodes out of service, in order: the first `count` entries; those after them are 0.
#[derive(Clone, Copy)]
pub struct Dark {
    pub count: usize,
    pub nodes: [usize; 255],
}

// What reading the list of these nodes gives, with the next place.
#[derive(Clone, Copy)]
pub struct DarkRead {
    pub dark: Dark,
    pub next: usize,
}

// What every file has after its kind: n nodes, r replicas, and the nodes out of service.
#[derive(Clone, Copy)]
pub struct Base {
    pub n: usize,
    pub r: usize,
    pub dark: Dark,
}

// What reading the kind, n, r and the list gives, with the next place.
#[derive(Clone, Copy)]
pub struct BaseRead {
    pub kind: usize,
    pub base: Base,
    pub next: usize,
}

// A layer's two numbers in the head: its bound (mu or lambda) and its size (m or c).
#[derive(Clone, Copy)]
pub struct LayerHead {
    pub bound: usize,
    pub size: usize,
}

// The limits of a layer's two numbers: the bound is from `lo` to `hi`; the sizes so far sum to at most a limit, and, where
// `full`, the last must equal what is left of it.
#[derive(Clone, Copy)]
pub struct LayerLimits {
    pub lo: usize,
    pub hi: usize,
    pub full: bool,
}

// What reading the two numbers of every layer gives, with the next place; entries past the layers are 0.
#[derive(Clone, Copy)]
pub struct LayersRead {
    pub heads: [LayerHead; 5],
    pub next: usize,
}
