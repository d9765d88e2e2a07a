// The records of a graph. Each field is a word, and a graph that is handed in may hold any word in each of them.

// One instruction of the table. A target and cases stay in the image.
#[repr(C)]
#[derive(Clone, Copy, Default, PartialEq, Eq)]
pub struct TableEntry {
    pub address: u64,
    pub end: u64,
    pub has_end: u64,
    pub keeps: u64,
    pub flow: u64,
}

// A run of the table: `count` instructions from position `first` on.
#[repr(C)]
#[derive(Clone, Copy, Default, PartialEq, Eq)]
pub struct Block {
    pub first: u64,
    pub count: u64,
}

// An edge with its AddressEdgeInfo: `number` is what the role carries (or a given edge's payload), `key` a case's key.
#[repr(C)]
#[derive(Clone, Copy, Default, PartialEq, Eq)]
pub struct Edge {
    pub source: u64,
    pub target: u64,
    pub kind: u64,
    pub role: u64,
    pub number: u64,
    pub key: u64,
    pub source_address: u64,
    pub target_address: u64,
}

// A protected range with its set of blocks and how many handlers it has.
#[repr(C)]
#[derive(Clone, Copy, Default, PartialEq, Eq)]
pub struct Region {
    pub has_parent: u64,
    pub parent: u64,
    pub start: u64,
    pub end: u64,
    pub handlers: u64,
    pub protected: [u64; 16],
}

// Handler `place` of `region`. Its input index is its place in the graph's list: the handler's reference.
#[repr(C)]
#[derive(Clone, Copy, Default, PartialEq, Eq)]
pub struct HandlerRecord {
    pub region: u64,
    pub place: u64,
    pub entry: u64,
    pub kind: u64,
    pub filter: u64,
}

// A transfer whose target starts no instruction. Its role tells whether it has a target and a case index.
#[repr(C)]
#[derive(Clone, Copy, Default, PartialEq, Eq)]
pub struct UnresolvedTransfer {
    pub source: u64,
    pub target: u64,
    pub role: u64,
    pub case_index: u64,
}

// A flattened call.
#[repr(C)]
#[derive(Clone, Copy, Default, PartialEq, Eq)]
pub struct CallSite {
    pub source: u64,
    pub has_target: u64,
    pub target: u64,
}

// How many records of each kind there are.
#[repr(C)]
#[derive(Clone, Copy, PartialEq, Eq)]
pub struct Counts {
    pub table: u64,
    pub blocks: u64,
    pub edges: u64,
    pub regions: u64,
    pub handlers: u64,
    pub unresolved: u64,
    pub calls: u64,
}
