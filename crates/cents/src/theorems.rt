// What is known of a split in whole cents: each function stands for the theorem that its contract names.
ghost use Rattle.cents.specs.Theorems.{RanksCount, CentsAddUp, CentsNear, CentsFair, UnusedPayNothing};
ghost use Rattle.cents.specs.Theorems.{OddCount, FewestPay, FewestAlike, FreePart, EqualUsers};
ghost use Rattle.cents.specs.Theorems.{ThresholdSelects, ClosingAddsUp, OddLevel, OddGap, ClosingLevel};

// Of any candidates just r have a rank below r, if there are as many.
pub fn ranks_count()
    ensures { RanksCount }
{}

// The cents of a part add up to its cost.
pub fn cents_add_up()
    ensures { CentsAddUp }
{}

// What a farm pays is less than one cent away from its weight times the cost over the whole weight.
pub fn cents_near()
    ensures { CentsNear }
{}

// So it is less than one cent away from what every fair rule has the farm pay.
pub fn cents_fair()
    ensures { CentsFair }
{}

// Who does not use a part pays nothing of it.
pub fn unused_pay_nothing()
    ensures { UnusedPayNothing }
{}

// As many farms pay one cent more as cents are left.
pub fn odd_count()
    ensures { OddCount }
{}

// Who pays an odd cent had paid no more of them than one who could pay it and does not.
pub fn fewest_pay()
    ensures { FewestPay }
{}

// Nor than one who counts the same and does not.
pub fn fewest_alike()
    ensures { FewestAlike }
{}

// A part that costs nothing is paid by nobody, and moves no count.
pub fn free_part()
    ensures { FreePart }
{}

// Where each user counts once, a part is split equally among its users.
pub fn equal_users()
    ensures { EqualUsers }
{}

// A threshold of odd cents selects the lowest ranks.
pub fn threshold_selects()
    ensures { ThresholdSelects }
{}

// What all farms pay for a year adds up to its costs.
pub fn closing_adds_up()
    ensures { ClosingAddsUp }
{}

// Two farms that count the same for every part, and began at most one odd cent apart, never differ by more than one.
pub fn odd_level()
    ensures { OddLevel }
{}

// Any two farms differ by no more than before, or one, and the odd cents of parts for which they do not count the same.
pub fn odd_gap()
    ensures { OddGap }
{}

// In a year two farms that count the same for every part differ by at most one odd cent, if they did before.
pub fn closing_level()
    ensures { ClosingLevel }
{}
