// The words of the transcript for epochs and their members.
ghost use Rattle.std.specs.Prelude.{◌≡◌, ◌≤◌, [], ◌∷◌, ◌++◌, codes, IfOk, OnOk, if◌then◌else◌};
ghost use Rattle.std.specs.Fmt.{decimal};
ghost use Rattle.object_model.specs.Sets.{has, nodes_in};
ghost use Rattle.session_model.specs.Events.{epoch_text, node_words, formed_text};

use mail_base::{EpochId, NodeNo, NodeSet, Octets};
use std::alloc::{AllocError, Global};

/// A word and a number more.
pub(crate) fn push_number(
    alloc: Global,
    text: &mut Vec<u8>,
    word: &[u8],
    number: u64,
) -> Result<(), AllocError>
    ensures { OnOk result (text.new.items ≡ text.old.items ++ word.now ++ decimal number) }
{
    let number = number.to_string(alloc)?;
    text.extend_from_slice(word)?;
    text.extend_from_slice(number.as_bytes())
}

// ` N`, where the set has this node; else nothing.
#[tactic(auto, using(crate::proofs::EpochTexts::with_word, crate::proofs::EpochTexts::without_word))]
fn push_node(
    alloc: Global,
    text: &mut Vec<u8>,
    nodes: NodeSet,
    number: u8,
) -> Result<(), AllocError>
    requires above { 1 ≤ number }
    requires within { number ≤ 16 }
    ensures { OnOk result (text.new.items ≡ text.old.items ++ node_words (if has nodes number then number ∷ [] else [])) }
{
    let Some(node) = NodeNo::new(number) else {
        unreachable!()
    };
    if nodes.has(node) {
        return push_number(alloc, text, b" ", u64::from(number));
    }
    Ok(())
}

/// The numbers of the nodes in rising order, each behind a space.
#[tactic(auto, using(crate::proofs::EpochTexts::words_on))]
pub(crate) fn push_nodes(
    alloc: Global,
    text: &mut Vec<u8>,
    nodes: NodeSet,
) -> Result<(), AllocError>
    ensures { OnOk result (text.new.items ≡ text.old.items ++ node_words (nodes_in nodes 16)) }
{
    for done in 0..16 {
        push_node(alloc, text, nodes, done + 1)?;
    }
    Ok(())
}

// `WORD C.N`
fn of_epoch(alloc: Global, word: &[u8], epoch: EpochId) -> Result<Vec<u8>, AllocError>
    ensures { IfOk result (λ text. text.items ≡ word.now ++ epoch_text epoch) }
{
    let mut text = Vec::new(alloc);
    push_number(alloc, &mut text, word, epoch.count)?;
    push_number(alloc, &mut text, b".", u64::from(epoch.node))?;
    Ok(text)
}

/// `group C.N`
pub(crate) fn grouped(alloc: Global, epoch: EpochId) -> Result<Octets, AllocError>
    ensures { IfOk result (λ text. text ≡ codes "group " ++ epoch_text epoch) }
{
    Ok(Octets::from_vec(of_epoch(alloc, b"group ", epoch)?))
}

/// `epoch C.N members A B ..`
pub(crate) fn formed(alloc: Global, epoch: EpochId, members: NodeSet) -> Result<Octets, AllocError>
    ensures { IfOk result (λ text. text ≡ formed_text epoch (nodes_in members 16)) }
{
    let mut text = of_epoch(alloc, b"epoch ", epoch)?;
    text.extend_from_slice(b" members")?;
    push_nodes(alloc, &mut text, members)?;
    Ok(Octets::from_vec(text))
}
