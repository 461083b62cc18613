// What is known of sums, counts and the first number that passes a test.
ghost use Rattle.number.specs.Laws.{SumAdds, SumScales, SumSwaps, SumOrders, FirstIsFirst, SomeCounts};

// Sums add, scale, swap and keep the order of their terms.
pub fn sums_stand()
    ensures { SumAdds × SumScales × SumSwaps × SumOrders }
{}

// The first number is the first that passes, and there is one exactly where the count is above 0.
pub fn first_stands()
    ensures { FirstIsFirst × SomeCounts }
{}
