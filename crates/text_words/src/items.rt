//! The items of the project's lists.

ghost use Rattle.std.specs.Prelude.{◌≡◌, ◌^◌, ◌-◌};
ghost use Rattle.std.specs.Fmt.{decimal};
ghost use Rattle.flr_base.specs.Puts.{Puts};
ghost use Rattle.text_words.specs.Items.{two_text, two_of, object_text, object_of, call_text, call_of, left_text, left_of};
ghost use Rattle.text_words.specs.Numbers.{number_of, number_from};

use crate::cuts::cut;
use crate::lists::Item;
use crate::numbers::{number, number_to};
use flr_base::{FailedCall, Left, NoMemory, ObjectId, put_decimal};

impl Item for u64 {
    ghost text = { decimal };

    ghost item_of = { number_of };

    fn put(&self, out: &mut Vec<u8>) -> Result<(), NoMemory> {
        put_decimal(out, *self)
    }

    fn read(word: &[u8]) -> Option<u64> {
        number(word)
    }
}

impl Item for u32 {
    ghost text = { decimal };

    ghost item_of = { number_from 0 (2 ^ 32 - 1) };

    fn put(&self, out: &mut Vec<u8>) -> Result<(), NoMemory> {
        put_decimal(out, u64::from(*self))
    }

    fn read(word: &[u8]) -> Option<u32> {
        let value = number_to(word, u64::from(u32::MAX))?;
        Some(value as u32)
    }
}

#[tactic(auto, using(flr_base::proofs::Puts::puts))]
fn put_two(out: &mut Vec<u8>, target: u8, number: u32) -> Result<(), NoMemory>
    ensures { Puts out.old.items out.new.items result (two_text target number) }
{
    put_decimal(out, u64::from(target))?;
    out.push(b'.')?;
    put_decimal(out, u64::from(number))
}

#[tactic(auto, unfolding(crate::specs::Items::two_of))]
fn read_two(word: &[u8]) -> Option<(u8, u32)>
    ensures { result ≡ two_of word.now }
{
    let (target, number) = cut(word, b'.')?;
    let target = number_to(target, 255)?;
    let number = number_to(number, u64::from(u32::MAX))?;
    Some((target as u8, number as u32))
}

/// `TARGET.NUMBER`.
impl Item for ObjectId {
    ghost text = { object_text };

    ghost item_of = { object_of };

    fn put(&self, out: &mut Vec<u8>) -> Result<(), NoMemory> {
        put_two(out, self.target, self.number)
    }

    fn read(word: &[u8]) -> Option<ObjectId> {
        let (target, number) = read_two(word)?;
        Some(ObjectId { target, number })
    }
}

/// `TARGET.CALL`.
impl Item for FailedCall {
    ghost text = { call_text };

    ghost item_of = { call_of };

    fn put(&self, out: &mut Vec<u8>) -> Result<(), NoMemory> {
        put_two(out, self.target, self.call)
    }

    fn read(word: &[u8]) -> Option<FailedCall> {
        let (target, call) = read_two(word)?;
        Some(FailedCall { target, call })
    }
}

/// `COMPONENT@TARGET.CALL`.
impl Item for Left {
    ghost text = { left_text };

    ghost item_of = { left_of };

    #[tactic(auto, using(flr_base::proofs::Puts::puts))]
    fn put(&self, out: &mut Vec<u8>) -> Result<(), NoMemory> {
        put_decimal(out, u64::from(self.component))?;
        out.push(b'@')?;
        self.call.put(out)
    }

    fn read(word: &[u8]) -> Option<Left> {
        let (component, call) = cut(word, b'@')?;
        let component = number_to(component, u64::from(u32::MAX))?;
        let call = FailedCall::read(call)?;
        Some(Left {
            component: component as u32,
            call,
        })
    }
}
