// Calls for C on a shelf of saved lists.
ghost use Rattle.std.specs.Prelude.{◌≡◌};
ghost use Rattle.shelf.specs.Shelf.{shelf_out, enter_call, jump_call};

use rules_shelf::{Shelf, ShelfRecord};
use shelf::ShelfAnswer;

// ---- entering and jumping
// The list of area and length of g is entered; its stamp is not read.
#[unsafe(no_mangle)]
pub extern "C" fn seek_raw_shelf_enter(
    s: &mut [ShelfRecord],
    shelf: Shelf,
    g: ShelfRecord,
) -> ShelfAnswer
    ensures { shelf_out result s.new ≡ enter_call shelf s.old g }
{
    shelf::table::seek_raw_shelf_enter(s, shelf, g)
}

// A jump in the area of g; nothing else of it is read.
#[unsafe(no_mangle)]
pub extern "C" fn seek_raw_shelf_jump(
    s: &mut [ShelfRecord],
    shelf: Shelf,
    g: ShelfRecord,
) -> ShelfAnswer
    ensures { shelf_out result s.new ≡ jump_call shelf s.old g }
{
    shelf::table::seek_raw_shelf_jump(s, shelf, g)
}
