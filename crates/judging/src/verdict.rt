// A call is decided, and then carried out: deciding changes nothing, and what is granted is stored first, then written, then returned.
use kinds::Framing;
use marks::Plan;

// Past the tests that come first: the framing of the frame and the entry that it matches.
#[derive(Clone, Copy)]
pub struct Admission {
    pub framing: Framing,
    pub entry: u8,
}

// What is used where no test refuses: the entry, its new number, the octet stores, and the octets of the result.
#[derive(Clone, Copy)]
pub struct Grant {
    pub entry: u8,
    pub number: u32,
    pub plan: Plan,
    pub size: usize,
}
