// Windows that have a byte in common, or end too late.
ghost use Rattle.std.specs.Prelude.{◌≡◌, ◌++◌, ◌∷◌, [], ◌||◌, ◌&&◌, not, nat_lt, ◌<◌, ◌≤◌, ◌+◌, ◌^◌, vec_len, vec_capacity};
ghost use Rattle.ghes_hub.specs.Layouts.{layout_windows};
ghost use Rattle.apei_space.specs.Windows.{address_of};
ghost use Rattle.ghes_hub.specs.Refusals.{overlap_at, overlaps, clashes};

use crate::layouts::Layout;
use apei_space::Window;
use apei_tables::Place;

/// Puts the windows of a layout behind others.
pub fn put_all(layout: &Layout, windows: &mut Vec<Window>) -> bool
    requires { vec_len windows.old + 3 ≤ vec_capacity windows.old }
    ensures clash { result ≡ clashes windows.old.items (layout_windows layout.now) }
    ensures pushed { windows.new.items ≡ windows.old.items ++ layout_windows layout.now }
    ensures len { vec_len windows.new ≤ vec_len windows.old + 3 }
    ensures room { vec_capacity windows.new ≡ vec_capacity windows.old }
{
    match layout {
        Layout::Acknowledged(map) => {
            let first = put(memory(map.status, 8), windows);
            let second = put(
                Window {
                    place: map.ack.place,
                    len: map.ack.access.bytes() as u32,
                },
                windows,
            );
            let third = put(memory(map.block, map.len), windows);
            first || (second || third)
        }
        Layout::Plain(map) => {
            let first = put(memory(map.status, 8), windows);
            let second = put(memory(map.window.block, map.window.len), windows);
            first || second
        }
    }
}

fn memory(at: u64, len: u32) -> Window
    ensures { result ≡ record { place = Place.Memory at; len = len } }
{
    Window {
        place: Place::Memory(at),
        len,
    }
}

/// Puts a window behind others. It answers whether it clashes with one of them, or ends too late.
fn put(window: Window, windows: &mut Vec<Window>) -> bool
    requires { vec_len windows.old < vec_capacity windows.old }
    ensures clash { result ≡ (not (nat_lt (address_of window.place + window.len) (2 ^ 64))
        || overlaps windows.old.items window) }
    ensures pushed { windows.new.items ≡ windows.old.items ++ window ∷ [] }
    ensures len { vec_len windows.new ≡ vec_len windows.old + 1 }
    ensures room { vec_capacity windows.new ≡ vec_capacity windows.old }
{
    let clash = is_late(&window) || overlaps(windows, &window);
    windows.push_reserved(window);
    clash
}

/// Whether the last byte of a window stands at 2^64 - 1 or later.
fn is_late(window: &Window) -> bool
    ensures { result ≡ not (nat_lt (address_of window.now.place + window.now.len) (2 ^ 64)) }
{
    let (Place::Memory(at) | Place::Io(at)) = window.place;
    at.checked_add(u64::from(window.len)).is_none()
}

/// Whether a window overlaps one of some others.
fn overlaps(others: &[Window], window: &Window) -> bool
    ensures { result ≡ overlaps others.now window.now }
{
    let mut at: usize = 0;
    while let Some(other) = others.get(at) {
        if overlap(other, window) {
            return true;
        }
        at += 1;
    }
    false
}

/// Whether one window begins before another one ends, and the other way round.
fn overlap(one: &Window, other: &Window) -> bool
    ensures { result ≡ overlap_at one.now.place one.now.len other.now.place other.now.len }
{
    match (one.place, other.place) {
        (Place::Memory(at), Place::Memory(next)) => cross(at, one.len, next, other.len),
        (Place::Io(at), Place::Io(next)) => cross(at, one.len, next, other.len),
        _ => false,
    }
}

/// The same of addresses in one space.
fn cross(at: u64, n: u32, other: u64, m: u32) -> bool
    ensures { result ≡ (nat_lt other (at + n) && nat_lt at (other + m)) }
{
    u128::from(other) < u128::from(at) + u128::from(n)
        && u128::from(at) < u128::from(other) + u128::from(m)
}
