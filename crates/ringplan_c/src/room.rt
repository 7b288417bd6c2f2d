//! The caller's buffer for a text.

ghost use Rattle.ringplan_c.specs.Room.{Fills};

// The status if the room is too small.
const MORE_ROOM: u8 = 4;

/// Writes a text to the start of the caller's buffer, always sets its length, and returns its status. If the text does
/// not fit, writes nothing and returns 4.
pub fn fill(text: &[u8], status: u8, room: &mut [u8], length: &mut usize) -> u8
    ensures { Fills text.now status room.old room.new length.new result }
{
    *length = text.len();
    if text.len() > room.len() {
        return MORE_ROOM;
    }
    room[..text.len()].copy_from_slice(text);
    status
}
