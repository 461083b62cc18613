// What is known of sharing the costs of a line: each function stands for the theorem that its contract names.
ghost use Rattle.share.specs.Theorems.{RuleFair, NoOther, EveryFairRule, NobodyLeaves};
ghost use Rattle.share.specs.Theorems.{SomeFair, OneScale, WholeEvery, OnceFits, OnceAgree, OnceRule, ScaledRight};
ghost use Rattle.share.specs.Theorems.{WholeFair, WholeNoOther, WholeNobodyLeaves, SharesRight};

// The rule is fair.
pub fn rule_is_fair()
    ensures { RuleFair }
{}

// Any two fair rules give every farm the same share.
pub fn no_other_is_fair()
    ensures { NoOther }
{}

// Every fair rule gives the shares of the rule.
pub fn every_fair_rule()
    ensures { EveryFairRule }
{}

// No group pays more than the parts that one of it uses cost.
pub fn nobody_leaves()
    ensures { NobodyLeaves }
{}

// Where each part has a user, some rule is fair.
pub fn some_rule_is_fair()
    ensures { SomeFair }
{}

// If each part has a user, weights by which each user counts once fit the line.
pub fn once_fits()
    ensures { OnceFits }
{}

// Where each user counts once, to share by weight is to have all users of a part pay the same.
pub fn once_agrees()
    ensures { OnceAgree }
{}

// There a farm pays, for each part that it uses, the cost over the number of its users.
pub fn once_rule()
    ensures { OnceRule }
{}

// Over a scale that the weights of the parts that cost something divide, the whole numbers are the shares.
pub fn scaled_is_right()
    ensures { ScaledRight }
{}

// In whole numbers: the rule is fair.
pub fn whole_is_fair()
    ensures { WholeFair }
{}

// In whole numbers: any two fair rules give every farm the same share.
pub fn whole_no_other()
    ensures { WholeNoOther }
{}

// In whole numbers: no group pays more than the parts that one of it uses cost.
pub fn whole_nobody_leaves()
    ensures { WholeNobodyLeaves }
{}

// What a program computes over a scale is what every fair rule gives, and no group pays too much.
pub fn shares_are_right()
    ensures { SharesRight }
{}

// There is one least scale, and only one.
pub fn one_scale()
    ensures { OneScale }
{}

// In whole numbers: every fair rule gives the shares of the rule.
pub fn whole_every()
    ensures { WholeEvery }
{}
