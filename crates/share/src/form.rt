// A share part by part.
use line::names::Part;
use number::cents::Cents;

// What a farm pays of a part: its cost over the number of its users.
#[derive(Clone, Copy, PartialEq, Eq, Debug)]
pub struct PartShare {
    pub part: Part,
    pub cost: Cents,
    pub users: u64,
}
