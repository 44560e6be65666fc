// RULES, 'The access journal': one record of it, and what a run over it comes to.
use crate::access::Access;
use crate::state::State;

// A record has as many bytes as its answer.
pub const RECORD_BYTES: usize = 24;

// The most records that a journal may have.
pub const RECORD_LIMIT: usize = 1024;

#[derive(Clone, Copy, Debug, PartialEq, Eq)]
pub struct Record {
    pub access: Access,
    pub reserved: u32,
}

// The number that a run answers itself, and the state that it leaves. It is no Result: `journal::run` cannot fail, and promises the
// state of a refused run too.
#[repr(C)]
#[derive(Clone, Copy, Debug, PartialEq, Eq)]
pub struct Run {
    pub number: u8,
    pub next: State,
}
