// One attribute: it is framed, its name judged, and what is asked of it by its name.
#![tactic(auto)]

ghost use Rattle.std.specs.Prelude.{◌≡◌, ◌+◌, ◌<◌};
ghost use Rattle.reads.specs.Promise.{Is, answered};
ghost use Rattle.slot.specs.Shown.{shown};
ghost use Rattle.attributes.specs.Attributes.{attribute_at, ruled, record_at};

use reads::{Answer, Reason};
use slot::Pool;

// An attribute: the slot of its name, the first byte of its body, and how many bytes the body has.
#[derive(Clone, Copy)]
pub struct Attribute {
    pub name: u16,
    pub start: usize,
    pub size: u32,
}

// The attribute whose name index stands at a byte of the file.
#[tactic(auto, using(reads::proofs::Leaves::u2_in, reads::proofs::Leaves::u4_in), unfolding(crate::specs::Attributes::attribute_at))]
fn attribute_at(p: &Pool, at: usize) -> Answer<Attribute>
    ensures { Is answered (attribute_at (shown p.now) at) result }
{
    let name = reads::read_u2(p.file, at)?;
    p.check_utf8_index(at, name as usize)?;
    let size = reads::read_u4(p.file, at + 2)?;
    reads::skip(p.file, at + 6, size as usize)?;
    Ok(Attribute {
        name,
        start: at + 6,
        size,
    })
}

// What is asked of an attribute by its name, where it is one of the class's own: `own` is a part of the rule, as the definition has it.
#[tactic(auto, unfolding(crate::specs::Attributes::ruled, bootstrap::specs::Bootstrap::own_rule))]
fn check_rule(own: bool, p: &Pool, at: usize, a: Attribute) -> Answer<()>
    requires { a.start + a.size < 18446744073709551616 }
    ensures { Is answered (ruled own (shown p.now) at a) result }
{
    if !own {
        return Ok(());
    }
    bootstrap::check_own(p, at, a.name, a.start, a.start + a.size as usize)
}

// The attribute at a byte of the file, one of the class's own or a member's, where record n has its room.
#[tactic(auto, using(crate::proofs::Tiled::body_fits), unfolding(crate::specs::Attributes::record_at))]
pub fn record_at(own: bool, p: &Pool, room: usize, n: usize, at: usize) -> Answer<Attribute>
    ensures { Is answered (record_at own (shown p.now) room n at) result }
{
    let a = attribute_at(p, at)?;
    check_rule(own, p, at, a)?;
    if room <= n {
        return Err(Reason::NoRoom.at(at));
    }
    Ok(a)
}
