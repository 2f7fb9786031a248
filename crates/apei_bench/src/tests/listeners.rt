// Listeners that are added to a chain, told, and removed.
ghost use Rattle.std.specs.Prelude.{true};

use apei_notify::{Chain, Listener, Tally};
use std::cell::Cell;
use std::rc::Rc;
use std::test::Fail;

#[test]
fn a_member_is_added_told_and_removed(rt: HostRuntime) -> Result<(), Fail> {
    let mut chain = Chain::new(Vec::new(rt.alloc()));
    let added = chain.add(Box::new(rt.alloc(), Tally::new(2))?);
    assert!(rt; added.is_ok());
    for severity in [1, 2, 33] {
        chain.tell(severity, b"block");
    }
    assert!(rt; chain.len() == 1);
    assert_eq!(rt; chain.heard(0), 1);
    chain.remove(0);
    assert!(rt; chain.len() == 0);
    Ok(())
}

/// Notes its digit behind those that are noted already, whenever it hears.
#[derive(Drop)]
struct Noting {
    digit: u64,
    noted: Rc<Cell<u64>>,
    heard: u64,
}

impl Listener for Noting {
    ghost hearing = { λ noting. record {
      wants = λ severity. true;
      count = noting.heard;
      last = λ severity block. Unit {0};
    } };

    fn wants(&self, _severity: u32) -> bool {
        true
    }

    fn hear(&mut self, _severity: u32, _block: &[u8]) {
        self.noted.set(
            self.noted
                .get()
                .saturating_mul(10)
                .saturating_add(self.digit),
        );
        self.heard = self.heard.saturating_add(1);
    }

    fn heard(&self) -> u64 {
        self.heard
    }
}

#[test]
fn members_hear_in_their_order(rt: HostRuntime) -> Result<(), Fail> {
    let noted = Rc::new(rt.alloc(), Cell::new(0u64))?;
    let mut members: Vec<Box<dyn Listener>> = Vec::new(rt.alloc());
    for digit in 1..=3u64 {
        let noting = Noting {
            digit,
            noted: noted.clone()?,
            heard: 0,
        };
        members.push(Box::new(rt.alloc(), noting)?)?;
    }
    let mut chain = Chain::new(members);
    chain.tell(2, b"block");
    assert!(rt; chain.len() == 3);
    chain.remove(1);
    chain.tell(2, b"block");
    assert_eq!(rt; noted.get(), 12313);
    Ok(())
}
