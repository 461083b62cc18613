// What is known of a line that changes: each function stands for the theorem that its contract names.
ghost use Rattle.change.specs.Theorems.{PartNotRaised, JoiningRaisesNone, LeavingLowersNone};
ghost use Rattle.change.specs.Theorems.{JoinedGrows, PartedGrows, Back};

// Who joins raises no other farm's share of a part.
pub fn part_is_not_raised()
    ensures { PartNotRaised }
{}

// Who joins raises no other farm's share.
pub fn joining_raises_none()
    ensures { JoiningRaisesNone }
{}

// Who leaves lowers no other farm's share, if each part still has a user.
pub fn leaving_lowers_none()
    ensures { LeavingLowersNone }
{}

// A line grows by a farm that joins.
pub fn joined_grows()
    ensures { JoinedGrows }
{}

// A line has grown by a farm that leaves.
pub fn parted_grows()
    ensures { PartedGrows }
{}

// Who joins a part that it doesn't use, and leaves it again, leaves the line as it was; so does who leaves one that it uses, and joins it again.
pub fn back_again()
    ensures { Back }
{}
