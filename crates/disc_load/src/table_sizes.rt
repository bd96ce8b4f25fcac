// How long the tables of both lists of a disc file have to be.
ghost use Rattle.std.specs.Prelude.{◌≡◌, Some};
ghost use Rattle.rules.specs.Tests.{Accepted, bind};
ghost use Rattle.rules_disc.specs.Disc.{body_at};
ghost use Rattle.disc_load.specs.Steps.{entry_in, Inside, body_sized_of};
ghost use Rattle.sizes.specs.Sizes.{sized_of};
ghost use Rattle.disc_load.specs.DiscLoad.{body_sizes, both_sizes, disc_sizes, disc_sized_of};

use crate::contents::read_contents;
use crate::questions::areas_ok;
use rules::{Area, Sized};
use rules_disc::{BodySized, Contents, DiscSized, SlotEntry, SlotSizes};
use sizes::file_sizes;

fn body_sized(sized: Sized) -> BodySized
    ensures { body_sized_of result ≡ bind (sized_of sized) (λ s. Accepted (Some s)) }
{
    match sized {
        Sized::Refused(n) => BodySized::Refused(n),
        Sized::Sizes(s) => BodySized::Passed(SlotSizes::Sizes(s)),
    }
}

// The sizes for the body of a slot; an absent one needs none.
fn body_sizes(place: SlotEntry, area: Area, bytes: &[u8], limit: u64) -> BodySized
    requires { Inside bytes.now place }
    ensures { body_sized_of result ≡ body_sizes area limit (body_at bytes.now (entry_in place)) }
{
    match place {
        SlotEntry::Absent => BodySized::Passed(SlotSizes::Absent),
        SlotEntry::At(e) => {
            let from = e.offset as usize;
            let to = from + e.len as usize;
            body_sized(file_sizes(area, &bytes[from..to], limit))
        }
    }
}

// The first failing body's own number, or the sizes of both.
fn both_sized(first: BodySized, second: BodySized) -> DiscSized
    ensures { disc_sized_of result ≡ both_sizes (body_sized_of first) (body_sized_of second) }
{
    match first {
        BodySized::Refused(n) => DiscSized::Refused(n),
        BodySized::Passed(x) => match second {
            BodySized::Refused(n) => DiscSized::Refused(n),
            BodySized::Passed(y) => DiscSized::Sizes(x, y),
        },
    }
}

// 1 of both areas, 54, then 20 to 38 of each body, as loading asks them.
pub fn disc_sizes(area0: Area, area1: Area, bytes: &[u8], limit: u64) -> DiscSized
    ensures { disc_sized_of result ≡ disc_sizes area0 area1 bytes.now limit }
{
    if !areas_ok(area0, area1) {
        return DiscSized::Refused(1);
    }
    match read_contents(bytes) {
        Contents::Broken => DiscSized::Refused(54),
        Contents::Lists(first, second) => {
            let x = body_sizes(first, area0, bytes, limit);
            let y = body_sizes(second, area1, bytes, limit);
            both_sized(x, y)
        }
    }
}
