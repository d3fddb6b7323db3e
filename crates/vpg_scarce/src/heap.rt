//! Memory that a process takes from itself.

use std::alloc::{AllocError, Global};

/// The memory that serves calls if it is ample.
const POOL: usize = 16 << 20;

/// The C library gets a block by a mapping of its own if it is greater than the greatest such block that was ever
/// freed, 32 MB at most. Once a block of this size was freed, all that the pool serves comes from one heap.
const GREATEST_IN_HEAP: usize = (32 << 20) - 8192;

/// More than a process has of anything.
const ALL: usize = 1 << 46;

/// The C library keeps freed blocks up to this size apart, each for requests of its own size.
const GREATEST_KEPT_APART: usize = 1032;

/// The number of sizes that it keeps apart, sixteen bytes from one to the next.
const KEPT_APART: usize = 64;

/// A block that isn't kept apart.
const PLUG: usize = 2048;

/// The most blocks that are taken at a time.
const MOST_BLOCKS: usize = 1 << 17;

/// The sizes of the marks before a call and after it.
const BEGINS: usize = 7_654_321;

const ENDS: usize = 7_654_323;

/// The memory of a process. All of it is taken, except the part that it gives back.
#[derive(Drop)]
pub struct Heap {
    alloc: Global,
    /// The blocks that stay taken.
    wall: Vec<Vec<u8>>,
    /// The blocks that are taken while a call is made.
    filling: Vec<Vec<u8>>,
    /// The front of the block that leaves its rest to a call.
    plug: Vec<u8>,
    /// Whether calls are marked, and nothing is taken.
    is_marked: bool,
    /// The number of times that memory was left for a call.
    tries: u64,
}

/// Takes blocks of a size until there is none, or the list is full.
fn take_each(alloc: Global, taken: &mut Vec<Vec<u8>>, size: usize) {
    for _ in 0..MOST_BLOCKS {
        if taken.len() == taken.capacity() {
            return;
        }
        let Ok(block) = Vec::with_capacity(alloc, size) else {
            return;
        };
        taken.push_reserved(block);
    }
}

/// Takes all memory that there is, in blocks as large as there are.
fn take_all(alloc: Global, taken: &mut Vec<Vec<u8>>, greatest: usize) {
    let mut size = greatest;
    for _ in 0..64 {
        if size > GREATEST_KEPT_APART {
            take_each(alloc, taken, size);
        }
        size /= 2;
    }
    for step in 0..KEPT_APART {
        take_each(alloc, taken, GREATEST_KEPT_APART - 16 * step);
    }
}

/// Returns a block of this size, or none.
fn block_of(alloc: Global, size: usize) -> Vec<u8> {
    Vec::with_capacity(alloc, size).unwrap_or(Vec::new(alloc))
}

/// Takes a block of this size and gives it back.
fn pass_by(alloc: Global, size: usize) {
    let _block = block_of(alloc, size);
}

/// Uses a megabyte of the stack below its caller, so that it is there when the process can get no more. Put into its
/// caller by the compiler it would use the stack above all later calls.
#[inline(never)]
fn deepen(at: usize) -> u8 {
    let mut room = [0u8; 1 << 20];
    let last = room.len() - 1;
    room[at.min(last)] = 1;
    room[at.saturating_mul(4099).min(last)]
}

/// Takes all but the pool.
fn wall_in(alloc: Global, wall: &mut Vec<Vec<u8>>) {
    pass_by(alloc, GREATEST_IN_HEAP);
    let _pool = block_of(alloc, POOL);
    take_all(alloc, wall, ALL);
}

impl Heap {
    /// Returns the memory of the process, with all taken except a pool of 16 MB. If the program was called with a word,
    /// nothing is taken, and calls are marked.
    pub fn new(alloc: Global, words: usize) -> Result<Heap, AllocError> {
        let is_marked = words > 1 || deepen(words) > 1;
        let mut wall = Vec::with_capacity(alloc, MOST_BLOCKS)?;
        let filling = Vec::with_capacity(alloc, MOST_BLOCKS)?;
        if !is_marked {
            wall_in(alloc, &mut wall);
        }
        Ok(Heap {
            alloc,
            wall,
            filling,
            plug: Vec::new(alloc),
            is_marked,
            tries: 0,
        })
    }

    /// Returns the allocator.
    pub fn alloc(&self) -> Global {
        self.alloc
    }

    /// Whether calls are marked, and nothing is taken.
    pub fn is_marked(&self) -> bool {
        self.is_marked
    }

    /// Returns the number of times that memory was left for a call.
    pub fn tries(&self) -> u64 {
        self.tries
    }

    /// Leaves this many bytes in one piece, 8 MB at most, and nothing else.
    pub fn leave(&mut self, bytes: usize) {
        self.tries = self.tries.saturating_add(1);
        if self.is_marked {
            pass_by(self.alloc, BEGINS);
            return;
        }
        let room = block_of(self.alloc, PLUG + bytes.min(POOL / 2));
        take_all(self.alloc, &mut self.filling, POOL);
        let_go(room);
        self.plug = block_of(self.alloc, PLUG);
    }

    /// Gives back all that was taken for a call.
    pub fn relax(&mut self) {
        if self.is_marked {
            pass_by(self.alloc, ENDS);
            return;
        }
        self.plug = Vec::new(self.alloc);
        self.filling.clear();
    }

    /// Returns the number of blocks that stay taken.
    pub fn walls(&self) -> usize {
        self.wall.len()
    }
}

fn let_go(_block: Vec<u8>) {}
