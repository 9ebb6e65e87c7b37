//! What the types of names and ids say of their values. But for `stamp_of`, each of these looks at a value once, so that a
//! clause may use what its type says of it. They do nothing.
ghost use Rattle.std.specs.Prelude.{◌≡◌, All};
ghost use Rattle.mail_model.specs.Names.{IsLowerName};
ghost use Rattle.mail_model.specs.Grammar.{IsId, IsStamp};

use mail_base::{MsgId, Name, NodeNo, Stamp, StrikeMark};

/// The stamp that a node draws.
pub(crate) fn stamp_of(count: u64, boot: u32, node: NodeNo) -> Stamp
    ensures value { result ≡ record { count = count; boot = boot; node = node } }
    ensures fits { IsStamp result }
{
    Stamp::new(count, boot, node.number())
}

/// A name is in lower case.
pub(crate) fn is_name(name: &Name)
    ensures { IsLowerName name.now }
{
    let _octets = name.octets();
}

/// So is each of these.
pub(crate) fn are_names(names: &[Name])
    ensures { All IsLowerName names.now }
{
    for name in names {
        is_name(name);
    }
}

/// An id is within its limits.
pub(crate) fn is_id(id: MsgId)
    ensures { IsId id }
{
    let _node = id.node().number();
    let _boot = id.boot();
    let _seq = id.seq();
}

// So is that of a deletion.
fn is_mark(mark: &StrikeMark)
    ensures { IsId mark.now.id }
{
    is_id(mark.id);
}

/// So are those of these deletions.
pub(crate) fn are_ids(marks: &[StrikeMark])
    ensures { All (λ mark. IsId mark.id) marks.now }
{
    for mark in marks {
        is_mark(mark);
    }
}
