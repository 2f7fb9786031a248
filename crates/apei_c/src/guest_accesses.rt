// Accesses as C sees them.
ghost use Rattle.std.specs.Prelude.{◌≡◌};
ghost use Rattle.ghes_port.specs.Machine.{Told, IsTold};
ghost use Rattle.apei_c.specs.SourceCalls.{IsToldAs, access_at, notification};

use crate::source_structs::GuestAccess;
use crate::status::Status;
use apei_tables::Place;
use ghes_port::Access;

fn access_at(place: Place, length: u32, kind: u32) -> GuestAccess
    ensures { result ≡ access_at place length kind }
{
    let (address, space) = match place {
        Place::Memory(at) => (at, 0),
        Place::Io(at) => (at, 1),
    };
    GuestAccess {
        address,
        length,
        kind,
        space,
        reserved: 0,
    }
}

fn notification() -> GuestAccess
    ensures { result ≡ notification }
{
    GuestAccess {
        address: 0,
        length: 0,
        kind: 2,
        space: 0,
        reserved: 0,
    }
}

/// Tells C an access, whose bytes stand in a buffer.
pub fn tell(found: Access, access: &mut GuestAccess) -> Status
    ensures { (told : Told) (before behind : _) → IsTold told found before behind → IsToldAs told access.old before result access.new behind }
{
    match found {
        Access::Nothing => Status::Nothing,
        Access::Read { place, size } => {
            *access = access_at(place, size, 0);
            Status::Done
        }
        Access::Write { place, size } => {
            *access = access_at(place, size, 1);
            Status::Done
        }
        Access::Notify => {
            *access = notification();
            Status::Done
        }
    }
}
