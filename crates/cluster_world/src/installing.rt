//! What the book has of the epochs that nodes install.
ghost use Rattle.std.specs.Prelude.{◌≡◌, ◌+◌, ◌≤◌, ◌<◌, ◌++◌, Some};
ghost use Rattle.mail_base.specs.Bodies.{body_seen};
ghost use Rattle.cluster_model.specs.Steps.{letter_at};
ghost use Rattle.whole_node.specs.Hearing.{is_install};
ghost use Rattle.world_book.specs.Books.{spare_of};
ghost use Rattle.cluster_world.specs.Books.{booked_by};
ghost use Rattle.cluster_world.specs.Lives.{of_node};
ghost use Rattle.cluster_world.specs.Worlds.{node_of_life};
ghost use Rattle.cluster_world.specs.Installs.{installs_booked, epoch_on, epoch_at, hearer_of_install, entry_of_install, entry_of_epoch};

use crate::flying::Flying;
use crate::life::Life;
use crate::nodes::Nodes;
use mail_base::{Body, EpochId, Letter, NodeNo};
use world_book::{Book, Entry};

fn is_install(body: &Body) -> bool
    ensures { result ≡ is_install (body_seen body.now) }
{
    matches!(body, Body::Install { .. })
}

fn hearer(letter: &Letter) -> Option<NodeNo>
    ensures { result ≡ hearer_of_install (Some letter.now) }
{
    if is_install(&letter.body) {
        Some(letter.to)
    } else {
        None
    }
}

/// Who hears an Install, should the letter of this number be posted.
pub(crate) fn hearer_of_install(flying: &Flying, number: u64) -> Option<NodeNo>
    ensures { result ≡ hearer_of_install (letter_at number flying.now.flights) }
{
    match flying.letter(number) {
        Some(letter) => hearer(letter),
        None => None,
    }
}

fn epoch_on(life: &Life) -> EpochId
    ensures { result ≡ epoch_on (node_of_life (Some life.now)) }
{
    match life {
        Life::Up(node) => node.mail().epoch(),
        Life::Down | Life::Lost => EpochId::none(),
    }
}

/// The epoch that a node has installed; that of no epoch where it has none, or is not up.
pub(crate) fn epoch_at<D>(nodes: &Nodes<D>, node: NodeNo) -> EpochId
    ensures { result ≡ epoch_at nodes.now.lives.items node }
{
    match nodes.life(node) {
        Some(life) => epoch_on(life),
        None => EpochId::none(),
    }
}

// The book has the epoch in which the node is up in this boot, where that is another than it was.
fn enter_epoch(book: &mut Book, node: NodeNo, boot: u32, was: EpochId, epoch: EpochId)
    requires room { 0 < spare_of book.old }
    ensures seen { booked_by book.new ≡ booked_by book.old }
    ensures installs { installs_booked book.new ≡ installs_booked book.old ++ entry_of_epoch node boot was epoch }
    ensures spare { spare_of book.old ≤ spare_of book.new + 1 }
{
    if epoch != was {
        book.add(Entry::Installed { node, boot, epoch });
    }
}

fn enter_in(life: &Life, book: &mut Book, node: NodeNo, was: EpochId)
    requires room { 0 < spare_of book.old }
    ensures seen { booked_by book.new ≡ booked_by book.old }
    ensures installs { installs_booked book.new ≡ installs_booked book.old ++ entry_of_install node was (node_of_life (Some life.now)) }
    ensures spare { spare_of book.old ≤ spare_of book.new + 1 }
{
    match life {
        Life::Up(up) => enter_epoch(book, node, up.mail().boot(), was, up.mail().epoch()),
        Life::Down | Life::Lost => {}
    }
}

/// The book has the epoch that the node has installed, where it is up and had another one before. It takes no memory.
pub(crate) fn enter_install<D>(nodes: &Nodes<D>, book: &mut Book, node: NodeNo, was: EpochId)
    requires room { 0 < spare_of book.old }
    ensures seen { booked_by book.new ≡ booked_by book.old }
    ensures installs { installs_booked book.new ≡ installs_booked book.old ++ entry_of_install node was (node_of_life (of_node nodes.now.lives.items node)) }
    ensures spare { spare_of book.old ≤ spare_of book.new + 1 }
{
    if let Some(life) = nodes.life(node) {
        enter_in(life, book, node, was);
    }
}
