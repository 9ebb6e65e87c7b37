// Three nodes, the promises on their disks, and the letters in flight.
ghost use Rattle.std.specs.Prelude.{◌<◌, length, IfOk};

use mail_base::{EpochId, Letter, MsgId, Name, NodeNo};
use membership::Install;
use node_maps::{NodeMaps, Refusal, tells_own_row};
use std::alloc::{AllocError, Global};

/// A node with what its disk says: its boot and its promise.
#[derive(Drop)]
pub(crate) struct Site {
    pub(crate) maps: NodeMaps,
    boot: u32,
    promise: EpochId,
}

/// The nodes and the letters between them.
#[derive(Drop)]
pub(crate) struct Trial {
    alloc: Global,
    pub(crate) sites: Vec<Site>,
    pub(crate) flying: Vec<Letter>,
}

/// What is done next. Nodes are counted from 1, and letters in flight from 0.
#[derive(Clone, Copy)]
pub(crate) enum Act {
    /// The node opens a group.
    Opens(u8),
    /// The letter is posted, and heard.
    Hears(usize),
    /// The letter is posted, and thrown for this reason.
    Throws(usize, Refusal),
    /// The letter is posted, and its receiver stops once its promise is on the disk; it starts again.
    StopsPromising(usize),
    /// The letter is dropped.
    Drops(usize),
    /// The node stops, and starts again.
    Restarts(u8),
    /// The node concludes its group.
    Concludes(u8),
    /// It has none to conclude.
    HasNoGroup(u8),
    /// So many letters are in flight.
    Fly(usize),
    /// The node is in the epoch of this count and node, with so many members; 0 where it is in none.
    IsIn(u8, u64, u8, usize),
    /// Its disk promises the epoch of this count and node.
    Promised(u8, u64, u8),
}

pub(crate) fn node(number: u8) -> Result<NodeNo, AllocError> {
    NodeNo::new(number).ok_or(AllocError)
}

fn first_site(alloc: Global, number: u8) -> Result<Site, AllocError> {
    Ok(Site {
        maps: NodeMaps::new(alloc, node(number)?, 1, EpochId::none()),
        boot: 1,
        promise: EpochId::none(),
    })
}

// The node after a stop: its disk alone is left.
fn restart(alloc: Global, site: &mut Site, own: NodeNo) -> Result<(), AllocError> {
    let boot = site.boot.saturating_add(1);
    site.maps = NodeMaps::new(alloc, own, boot, site.promise);
    site.boot = boot;
    Ok(())
}

/// Whether both are one membership.
pub(crate) fn is_same(a: &Install, b: &Install) -> bool {
    a.members.len() == b.members.len()
        && a.map.rows().len() == b.map.rows().len()
        && a.members
            .as_slice()
            .iter()
            .zip(b.members.as_slice().iter())
            .all(|(x, y)| x.node == y.node && x.boot == y.boot)
        && a.map
            .rows()
            .iter()
            .zip(b.map.rows().iter())
            .all(|(x, y)| x.manager == y.manager)
}

fn is_in(site: &Site, epoch: EpochId, members: usize) -> bool {
    match site.maps.group().installed() {
        Some(install) => install.epoch == epoch && install.members.len() == members,
        None => members == 0,
    }
}

fn opens(alloc: Global, site: &mut Site) -> Result<Vec<Letter>, AllocError> {
    if site.maps.group().heard() == u64::MAX {
        return Err(AllocError);
    }
    site.promise = site.maps.next_epoch();
    let letters = site.maps.start_group(alloc, 3)?;
    Ok(letters.into_vec())
}

// Its disk takes the promise that the letter makes due.
fn promises(site: &mut Site, letter: &Letter) {
    if let Some(promise) = site.maps.promise_due(&letter.body) {
        site.promise = promise;
    }
}

// Adds letters to those in flight.
fn fly(flying: &mut Vec<Letter>, letters: Vec<Letter>) -> Result<(), AllocError> {
    for letter in letters {
        flying.push(letter)?;
    }
    Ok(())
}

// Hears the letter, its promise first, and adds the answers to the letters in flight; why it was thrown.
fn hears(
    alloc: Global,
    site: &mut Site,
    letter: &Letter,
    flying: &mut Vec<Letter>,
) -> Result<Option<Refusal>, AllocError> {
    if !tells_own_row(letter) {
        return Err(AllocError);
    }
    promises(site, letter);
    let answer = site.maps.hear(alloc, letter)?;
    fly(flying, answer.letters.into_vec())?;
    Ok(answer.thrown)
}

fn concludes(alloc: Global, site: &mut Site) -> Result<Option<Vec<Letter>>, AllocError> {
    match site.maps.conclude(alloc, 2)? {
        Some(done) => Ok(Some(done.letters.into_vec())),
        None => Ok(None),
    }
}

impl Trial {
    /// Three nodes in their first boots.
    pub(crate) fn new(alloc: Global) -> Result<Trial, AllocError> {
        let mut sites = Vec::new(alloc);
        for number in 1..4u8 {
            sites.push(first_site(alloc, number)?)?;
        }
        Ok(Trial {
            alloc,
            sites,
            flying: Vec::new(alloc),
        })
    }

    /// Where the site of this node stands.
    pub(crate) fn place(&self, number: u8) -> Result<usize, AllocError>
        ensures { IfOk result (λ place. place < length self.now.sites.items) }
    {
        let place = usize::from(number.saturating_sub(1));
        if number == 0 || place >= self.sites.len() {
            return Err(AllocError);
        }
        Ok(place)
    }

    fn take(&mut self, at: usize) -> Result<Letter, AllocError> {
        if at >= self.flying.len() {
            return Err(AllocError);
        }
        Ok(self.flying.remove(at))
    }

    fn hand_over(&mut self, letter: &Letter) -> Result<Option<Refusal>, AllocError> {
        let place = self.place(letter.to.number())?;
        hears(self.alloc, &mut self.sites[place], letter, &mut self.flying)
    }

    /// Posts a letter: why it was thrown, if it was.
    pub(crate) fn post(&mut self, at: usize) -> Result<Option<Refusal>, AllocError> {
        let letter = self.take(at)?;
        self.hand_over(&letter)
    }

    fn stop_after_promise(&mut self, letter: &Letter) -> Result<(), AllocError> {
        let place = self.place(letter.to.number())?;
        promises(&mut self.sites[place], letter);
        restart(self.alloc, &mut self.sites[place], letter.to)
    }

    fn stops_promising(&mut self, at: usize) -> Result<(), AllocError> {
        let letter = self.take(at)?;
        self.stop_after_promise(&letter)
    }

    /// Opens a group.
    pub(crate) fn open_group(&mut self, number: u8) -> Result<(), AllocError> {
        let place = self.place(number)?;
        let letters = opens(self.alloc, &mut self.sites[place])?;
        fly(&mut self.flying, letters)
    }

    /// Reports the rows of a node that are due to another; how many letters that made.
    pub(crate) fn report(&mut self, from: u8, to: u8) -> Result<usize, AllocError> {
        let place = self.place(from)?;
        let letters = due(self.alloc, &mut self.sites[place], node(to)?)?;
        let count = letters.len();
        fly(&mut self.flying, letters)?;
        Ok(count)
    }

    /// Concludes the node's group; false where it has none.
    pub(crate) fn conclude(&mut self, number: u8) -> Result<bool, AllocError> {
        let place = self.place(number)?;
        match concludes(self.alloc, &mut self.sites[place])? {
            Some(letters) => {
                fly(&mut self.flying, letters)?;
                Ok(true)
            }
            None => Ok(false),
        }
    }

    fn restarts(&mut self, number: u8) -> Result<(), AllocError> {
        let place = self.place(number)?;
        restart(self.alloc, &mut self.sites[place], node(number)?)
    }

    fn is_in(&self, number: u8, epoch: EpochId, members: usize) -> Result<bool, AllocError> {
        let place = self.place(number)?;
        Ok(is_in(&self.sites[place], epoch, members))
    }

    fn promised(&self, number: u8, epoch: EpochId) -> Result<bool, AllocError> {
        let place = self.place(number)?;
        Ok(self.sites[place].promise == epoch)
    }

    /// Whether the act does as it says.
    pub(crate) fn does(&mut self, act: &Act) -> Result<bool, AllocError> {
        match act {
            Act::Opens(number) => {
                self.open_group(*number)?;
                Ok(true)
            }
            Act::Hears(at) => Ok(self.post(*at)?.is_none()),
            Act::Throws(at, refusal) => Ok(self.post(*at)? == Some(*refusal)),
            Act::StopsPromising(at) => {
                self.stops_promising(*at)?;
                Ok(true)
            }
            Act::Drops(at) => {
                self.take(*at)?;
                Ok(true)
            }
            Act::Restarts(number) => {
                self.restarts(*number)?;
                Ok(true)
            }
            Act::Concludes(number) => self.conclude(*number),
            Act::HasNoGroup(number) => Ok(!self.conclude(*number)?),
            Act::Fly(count) => Ok(self.flying.len() == *count),
            Act::IsIn(number, count, by, members) => {
                self.is_in(*number, EpochId::new(*count, *by), *members)
            }
            Act::Promised(number, count, by) => {
                self.promised(*number, EpochId::new(*count, *by))
            }
        }
    }
}

/// How many acts are done as they say, from the first on.
pub(crate) fn goes(alloc: Global, acts: &[Act]) -> Result<usize, AllocError> {
    let mut trial = Trial::new(alloc)?;
    for (at, act) in acts.iter().enumerate() {
        if !trial.does(act)? {
            return Ok(at);
        }
    }
    Ok(acts.len())
}

// The rows that are due to this node, and where it is the site's own none.
fn due(alloc: Global, site: &mut Site, to: NodeNo) -> Result<Vec<Letter>, AllocError> {
    if site.maps.group().own() == to {
        return Ok(Vec::new(alloc));
    }
    Ok(site.maps.report(alloc, to, 64)?.into_vec())
}

/// Notes a message of the user at a site.
pub(crate) fn notes(site: &mut Site, user: &Name, id: MsgId, here: bool) -> Result<(), AllocError> {
    if site.maps.reports().version(user) >= u64::MAX - 1 {
        return Err(AllocError);
    }
    site.maps.note(user, id, here)
}
