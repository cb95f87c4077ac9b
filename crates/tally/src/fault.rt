/// Why bytes are no tally: the number of the fault, and the place of the byte where it was found.
// A number and not an enum: kinds are open, each has faults of its own, and answers print the number.
#[derive(Clone, Copy, PartialEq, Eq, Debug)]
pub struct Fault {
    pub number: u8,
    pub place: usize,
}
