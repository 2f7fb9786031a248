// Room for what is written.
ghost use Rattle.apei_bytes.specs.Room.{NeedsRoom};

/// The bytes given are fewer than those needed.
#[derive(Clone, Copy, Debug, PartialEq, Eq)]
pub struct NoRoom {
    pub need: u64,
}

/// Looks whether in a room of so many bytes there are those needed.
pub fn room_for(room: usize, need: usize) -> Result<(), NoRoom>
    ensures { NeedsRoom need room result }
{
    if room < need {
        return Err(NoRoom { need: need as u64 });
    }
    Ok(())
}
