// How large counts may become: specs/Limits states the same, and nothing else knows this number.

// How many odd cents a farm has paid stays below this.
pub const COUNTS_END: u64 = 4_294_967_296;
