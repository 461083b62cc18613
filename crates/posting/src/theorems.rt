// What is promised of every row of bookings: each function stands for the statement that its contract names.
ghost use Rattle.posting.specs.Laws.{RowsRight};
ghost use Rattle.posting.specs.Years.{YearsRight};

// Every row from a sound state leaves a sound state, and accounts, closings and odd cents are as promised.
pub fn rows_are_right()
    ensures { RowsRight }
{}

// The worked years come out as the table has them.
pub fn years_are_right()
    ensures { YearsRight }
{}
