// Nothing runs here: the two-qubit actions, each a code of 16 bits, and the book of all 720 with their least lengths.
// Not in the source.
#![tactic(auto)]

// An entry of the book: the code of an action, and its least length.
#[derive(Clone, Copy)]
pub struct Entry {
    pub code: u16,
    pub length: u8,
}
