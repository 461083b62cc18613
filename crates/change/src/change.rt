// A farm joins a part of the line, or leaves it. Line, farm and part go as three arguments, as `join` and `leave` are called with them.
ghost use Rattle.std.specs.Prelude.{◌≡◌, ◌/◌, ◌<◌, None, length};
ghost use Rattle.std.specs.Result.{result_err};
ghost use Rattle.line.specs.Held.{held};
ghost use Rattle.share.specs.Weight.{AllUsed};
ghost use Rattle.change.specs.Answer.{WithBit, Kept, Joined, Parted};
ghost use Rattle.change.specs.Change.{marked, only_user, known_or};

use line::line::Line;
use line::names::{Farm, Part};
use line::refusal::Refusal;

// Writes the farm's bit in a part's row: `uses` is the bit.
fn mark(row: &mut [u64], farm: Farm, uses: bool)
    requires { farm.0 / 64 < length row.old }
    ensures { WithBit row.old row.new farm.0 uses }
{
    let k = farm.0 as usize / 64;
    let bit = 1u64 << (farm.0 % 64);
    if uses {
        row[k] |= bit;
    } else {
        row[k] &= !bit;
    }
}

// Writes whether a farm of the line uses a part of it; each part needs a user then.
fn write_use(line: &mut Line, farm: Farm, part: Part, uses: bool)
    requires farm { farm.0 < line.old.size.farms }
    requires part { part.0 < line.old.size.parts }
    requires used { AllUsed (marked (held line.old) farm.0 part.0 uses) }
    ensures holds { held line.new ≡ marked (held line.old) farm.0 part.0 uses }
    ensures kept { Kept line.old line.new }
{
    let width = line.size.row_words();
    let from = part.0 as usize * width;
    mark(&mut line.words[from..from + width], farm, uses);
}

// Refuses a part that is not one of the line's, then a farm that is not.
fn check_names(line: &Line, farm: Farm, part: Part) -> Result<(), Refusal>
    ensures { result_err result ≡ known_or (held line.now) farm.0 part.0 None }
{
    if part.0 >= line.size.parts {
        return Err(Refusal::Unknown(part.0 as usize));
    }
    if farm.0 >= line.size.farms {
        return Err(Refusal::Unknown(farm.0 as usize));
    }
    Ok(())
}

// Whether the farm uses the part, and no other does.
fn is_only_user(line: &Line, farm: Farm, part: Part) -> bool
    ensures { result ≡ only_user (held line.now) farm.0 part.0 }
{
    line.uses(farm, part) && line.users(part) == 1
}

// From now on the farm uses the part; no other farm's exact share rises.
pub fn join(line: &mut Line, farm: Farm, part: Part) -> Result<(), Refusal>
    ensures { Joined farm.0 part.0 line.old line.new result }
{
    check_names(line, farm, part)?;
    write_use(line, farm, part, true);
    Ok(())
}

// From now on the farm doesn't use the part, which needs another user; no other farm's exact share falls.
pub fn leave(line: &mut Line, farm: Farm, part: Part) -> Result<(), Refusal>
    ensures { Parted farm.0 part.0 line.old line.new result }
{
    check_names(line, farm, part)?;
    if is_only_user(line, farm, part) {
        return Err(Refusal::Users(part.0 as usize));
    }
    write_use(line, farm, part, false);
    Ok(())
}
