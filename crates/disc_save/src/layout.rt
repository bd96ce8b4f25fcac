// Where the lists of a disc file stand: their order, and the entry and the length of a file of one list.
ghost use Rattle.std.specs.Prelude.{◌≡◌, ◌+◌, ◌≤◌, ltb};
ghost use Rattle.rules.specs.Values.{max32};
ghost use Rattle.rules_disc.specs.Disc.{entry, table_size};

use rules::AreaIndex;
use rules_disc::Entry;

pub fn slot_of(x: AreaIndex) -> u8
    ensures { result ≡ x.area.key.slot }
{
    x.area.key.slot
}

// Two lists stand by slot: does the first given stand first?
pub fn stands_first(x: AreaIndex, y: AreaIndex) -> bool
    ensures { result ≡ ltb x.area.key.slot y.area.key.slot }
{
    slot_of(x) < slot_of(y)
}

// The entry of one list whose file has m bytes.
pub fn entry_of_one(slot: u8, m: u64) -> Entry
    requires { m ≤ max32 }
    ensures { result ≡ entry slot (table_size 1) m }
{
    Entry {
        slot: slot as u32,
        offset: 16,
        len: m as u32,
    }
}

// The length of the disc file of that list.
pub fn length_of_one(m: u64) -> u64
    requires { m ≤ max32 }
    ensures { result ≡ table_size 1 + m }
{
    16 + m
}
