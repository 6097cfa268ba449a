// The engine's state, the state of the rules that it stands for with the working buffer and the store, and what holds of them between two events. Of code
// only the types.
#![tactic(auto)]

// The engine's state. RECORDS is how many records there are, and PLACES twice as many: a const argument isn't computed.
#[derive(Clone, Copy)]
pub struct State<const RECORDS: usize, const PLACES: usize> {
    // of each transaction the set of itself and its ancestors; empty where the number is free
    pub line: [u32; 24],
    // of each record at 2 * r the set of transactions that hold its lock, at 2 * r + 1 of those that do so in write mode
    pub held: [u32; PLACES],
    // the same of those that retain it
    pub retained: [u32; PLACES],
    // of each record the set of transactions that have a version of it: in the working buffer slot r * DEPTHS + depth - 1 holds that of the writer at that
    // depth
    pub writers: [u32; RECORDS],
    // of each transaction its parent; 0 where the number is free; a top transaction has the parent 31
    pub parent: [u8; 24],
    // of each transaction its depth, which is 1 for a top transaction; 0 where the number is free
    pub depth: [u8; 24],
    // 1 while up, 0 while down
    pub up: u8,
}

// What follows from the state and the store, found at the start of a list and not kept, so that nothing is searched at an event.
#[derive(Clone, Copy)]
pub struct Derived {
    // of each parent the set of its live children; at 31 the top transactions
    pub children: [u32; 32],
    // the set of live transactions
    pub live: u32,
    // the map of the records that the prepared transaction changed; 0 where none is prepared
    pub reserved: u64,
    // the prepared transaction's identity; 0 where none is prepared
    pub identity: u8,
}
