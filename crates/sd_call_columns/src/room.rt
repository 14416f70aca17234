//! What is lent for the answers to a column.

ghost use Rattle.std.specs.Prelude.{◌≡◌, ◌<◌};
ghost use Rattle.sd_call_columns.specs.Answered.{has_room};

/// How much is lent for the answers.
#[derive(Clone, Copy)]
pub struct Room {
    pub bytes: usize,
    pub offsets: usize,
    pub outcomes: usize,
}

/// Whether so many offsets can be written, with their answers and outcomes.
pub fn has_room(count: usize, begin: usize, room: &Room) -> bool
    requires { room.now.outcomes < usize.MAX }
    ensures { result ≡ has_room count begin room.now }
{
    0 < count && count <= room.offsets && count <= room.outcomes + 1 && begin <= room.bytes
}
