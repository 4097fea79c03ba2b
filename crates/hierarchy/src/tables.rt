// The two tables of edges, with the roles that live: what a command changes, and all else is worked out from.

// Row x of `i` is the set of the juniors that role x has by I, row x of `a` of those by A; an IA edge is in both. `live` is the set of the
// live roles. C has them as they stand here.
#[repr(C)]
#[derive(Clone, Copy, PartialEq, Eq)]
pub struct Tables {
    pub live: u64,
    pub i: [u64; 64],
    pub a: [u64; 64],
}
