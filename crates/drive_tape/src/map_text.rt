// The words of the transcript for a user's map.
ghost use Rattle.std.specs.Prelude.{◌≡◌, ◌++◌, Some, None, codes, IfOk};
ghost use Rattle.object_model.specs.Sets.{nodes_in};
ghost use Rattle.session_model.specs.Events.{maps_text};
ghost use Rattle.cluster_world.specs.Outcomes.{map_seen};

use crate::epoch_text::{push_nodes, push_number};
use mail_base::{Name, NodeNo, NodeSet, Octets};
use std::alloc::{AllocError, Global};

// `maps NAME`
fn map_of(alloc: Global, user: &Name) -> Result<Vec<u8>, AllocError>
    ensures { IfOk result (λ text. text.items ≡ codes "maps " ++ user.now) }
{
    let mut text = Vec::from_slice(alloc, b"maps ")?;
    text.extend_from_slice(user.octets())?;
    Ok(text)
}

// `maps NAME at M: A B ..`
fn at_manager(
    alloc: Global,
    user: &Name,
    manager: NodeNo,
    named: NodeSet,
) -> Result<Octets, AllocError>
    ensures { IfOk result (λ text. text ≡ maps_text user.now (Some (manager, nodes_in named 16))) }
{
    let mut text = map_of(alloc, user)?;
    push_number(alloc, &mut text, b" at ", u64::from(manager.number()))?;
    text.extend_from_slice(b":")?;
    push_nodes(alloc, &mut text, named)?;
    Ok(Octets::from_vec(text))
}

// `maps NAME none`
fn at_nobody(alloc: Global, user: &Name) -> Result<Octets, AllocError>
    ensures { IfOk result (λ text. text ≡ maps_text user.now None) }
{
    let mut text = map_of(alloc, user)?;
    text.extend_from_slice(b" none")?;
    Ok(Octets::from_vec(text))
}

/// `maps NAME at M: A B ..`, or `maps NAME none`
pub(crate) fn mapped(
    alloc: Global,
    user: &Name,
    told: &Option<(NodeNo, NodeSet)>,
) -> Result<Octets, AllocError>
    ensures { IfOk result (λ text. text ≡ maps_text user.now (map_seen told.now)) }
{
    match told {
        Some(told) => at_manager(alloc, user, told.0, told.1),
        None => at_nobody(alloc, user),
    }
}
