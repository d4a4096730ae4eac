// The bytes of a row report.
ghost use Rattle.std.specs.Prelude.{◌≡◌, ◌≤◌, length};
ghost use Rattle.desk.specs.Sizes.{most_room};

pub mod row;

// The most that a report's place can have.
const MOST_ROOM: usize = 64;

// The first bytes of a place, which the report wrote. The kit's vectors are not `Copy`, as an answer has to be, and its texts would have the bytes tested.
#[derive(Clone, Copy)]
pub struct Report {
    place: [u8; MOST_ROOM],
    size: usize,
    ghost sized: { length place ≡ most_room },
    ghost within: { size ≤ most_room },
}
