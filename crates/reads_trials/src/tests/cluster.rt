// Three nodes, and the letters in flight.
ghost use Rattle.std.specs.Prelude.{◌<◌, length, IfOk};

use crate::tests::answers::{failed, gives, is_gone, is_wrong, lists, waits};
use crate::tests::messages::{
    OF_ALL, OF_OTHERS, ann, epoch, id_of, list_of, node, octets_of, part_of, ticket, users_of,
};
use call_tickets::Ask;
use mail_base::{
    Body, Letter, LoginWord, NodeNo, NodeSet, Proof, Sequence, ToldItem, ToldPart, Users,
};
use node_reads::{NodeReads, answer_fetch, answer_list, answer_login, judge};
use node_tickets::MishapKind;
use std::alloc::{AllocError, Global};

/// The tickets of the nodes, and the letters between them.
#[derive(Drop)]
pub(crate) struct Trial {
    alloc: Global,
    users: Users,
    // The nodes that a manager names.
    named: u16,
    sites: Vec<NodeReads>,
    flying: Vec<Letter>,
}

/// What is done next. Letters in flight are counted from 0. Each call is one of node 1, and each ticket one of node 1 in its boot 1;
/// a login is of the user `ann`, and has ticket 1, and a fetch is of message 1.1.1, and has ticket 2.
#[derive(Clone, Copy)]
pub(crate) enum Act {
    /// A manager names these nodes from now on.
    Names(u16),
    /// A login with the right secret, whose user this other node manages.
    LogsIn(u8),
    /// The same with a wrong secret.
    GuessesAt(u8),
    /// A login of a user whom node 1 manages itself.
    LogsInAtHome,
    /// A fetch from these nodes, of which node 1 is none.
    Fetches(u16),
    /// A fetch of what node 1 holds itself.
    FetchesAtHome,
    /// A letter is heard.
    Hears(usize),
    /// It is heard, and is in flight once more.
    Repeats(usize),
    /// It is lost, and its mishap is noted at its ticket, if it has one.
    Loses(usize, MishapKind),
    /// A list of this node is heard for the ticket of this number.
    IsTold(u8, u64),
    /// A word of this node, which names all, is heard for the login.
    IsNamedBy(u8),
    /// So many letters are in flight.
    Fly(usize),
    /// So many of them give the lock of the login back to node 2.
    Unlock(usize),
    /// The ticket waits: so many have answered of so many.
    Waits(u64, u64, u64),
    /// The login lists what all hold, where this node manages its user, and all three were asked.
    ListsAll(u8),
    /// The login lists what nodes 2 and 3 hold, where node 2 manages its user, and these two were asked.
    ListsOthers,
    /// The login lists nothing, where node 2 manages its user, and nobody was asked.
    ListsNothing,
    /// The proof was not right.
    IsWrong,
    /// The fetch has the octets of this node.
    Gives(u8),
    /// The message is gone.
    IsGone,
    /// The call failed: so many letters were dropped, and so many found a node down.
    Failed(u64, u64, u64),
    /// No ticket stands under this number.
    IsNone(u64),
    /// The ticket is given up.
    GivesUp(u64),
}

// Adds letters to those in flight.
fn fly(flying: &mut Vec<Letter>, letters: Sequence<Letter>) -> Result<(), AllocError> {
    for letter in letters.into_vec() {
        flying.push(letter)?;
    }
    Ok(())
}

// Adds a letter, if there is one.
fn fly_one(flying: &mut Vec<Letter>, letter: Option<Letter>) -> Result<(), AllocError> {
    match letter {
        Some(letter) => {
            flying.push(letter)?;
            Ok(())
        }
        None => Ok(()),
    }
}

// The node hears the word of a manager.
fn hear_word(
    alloc: Global,
    site: &mut NodeReads,
    letter: &Letter,
    word: &LoginWord,
    flying: &mut Vec<Letter>,
) -> Result<(), AllocError> {
    let Some(number) = letter.ticket else {
        return Err(AllocError);
    };
    let mine = list_of(alloc, letter.to.number())?;
    let letters = site.hear_word(alloc, letter.epoch, number, letter.from, word.copy(), mine)?;
    fly(flying, letters)
}

fn hear_list(
    site: &mut NodeReads,
    letter: &Letter,
    items: &Sequence<ToldItem>,
) -> Result<(), AllocError> {
    let Some(number) = letter.ticket else {
        return Err(AllocError);
    };
    site.hear_list(number, letter.from, items.copy()?)
}

fn hear_part(site: &mut NodeReads, letter: &Letter, part: &ToldPart) -> Result<(), AllocError> {
    let Some(number) = letter.ticket else {
        return Err(AllocError);
    };
    site.hear_part(number, letter.from, part.copy()?);
    Ok(())
}

// The node hears a letter, and adds its answers to those in flight. A manager names these nodes.
fn hears(
    alloc: Global,
    site: &mut NodeReads,
    users: &Users,
    named: u16,
    letter: &Letter,
    flying: &mut Vec<Letter>,
) -> Result<(), AllocError> {
    match &letter.body {
        Body::LoginAsk { user, proof } => {
            let word = judge(users, user, proof, NodeSet::from_mask(named));
            flying.push(answer_login(letter, word))?;
            Ok(())
        }
        Body::LoginTold { word } => hear_word(alloc, site, letter, word, flying),
        Body::ListAsk { .. } => {
            let items = list_of(alloc, letter.to.number())?;
            flying.push(answer_list(letter, items))?;
            Ok(())
        }
        Body::ListTold { items } => hear_list(site, letter, items),
        Body::FetchAsk { .. } => {
            let part = part_of(alloc, letter.to.number())?;
            flying.push(answer_fetch(letter, part))?;
            Ok(())
        }
        Body::FetchTold { part } => hear_part(site, letter, part),
        Body::Unlock { .. } => Ok(()),
        _ => Err(AllocError),
    }
}

// The end of a letter that is not the node of its ticket.
fn far_end(letter: &Letter) -> NodeNo {
    if letter.from.number() == 1 {
        letter.to
    } else {
        letter.from
    }
}

// The mishap of a letter is noted at node 1.
fn note_loss(
    site: &mut NodeReads,
    letter: &Letter,
    kind: MishapKind,
) -> Result<Option<Letter>, AllocError> {
    let Some(number) = letter.ticket else {
        return Ok(None);
    };
    Ok(site.mishap(epoch(), number, kind, far_end(letter)))
}

fn log_in(
    alloc: Global,
    site: &mut NodeReads,
    manager: NodeNo,
    secret: &[u8],
) -> Result<Letter, AllocError> {
    if manager == site.own() {
        return Err(AllocError);
    }
    let proof = Proof::Pass(octets_of(alloc, secret)?);
    site.begin_login(epoch(), 1, ann(alloc)?, proof, manager)
}

fn log_in_at_home(
    alloc: Global,
    site: &mut NodeReads,
    named: u16,
) -> Result<Sequence<Letter>, AllocError> {
    let word = LoginWord::Named(NodeSet::from_mask(named));
    let mine = list_of(alloc, 1)?;
    site.begin_own_login(alloc, epoch(), 1, ann(alloc)?, word, mine)
}

fn fetch(alloc: Global, site: &mut NodeReads, holders: u16) -> Result<Option<Letter>, AllocError> {
    let holders = NodeSet::from_mask(holders);
    if holders.has(site.own()) {
        return Err(AllocError);
    }
    site.begin_fetch(
        alloc,
        epoch(),
        2,
        ann(alloc)?,
        id_of(1, 1)?,
        0,
        100,
        holders,
    )
}

fn fetch_at_home(alloc: Global, site: &mut NodeReads) -> Result<(), AllocError> {
    let part = part_of(alloc, 1)?;
    site.begin_own_fetch(alloc, 2, ann(alloc)?, id_of(1, 1)?, 0, 100, part)
}

// Node 1 hears for its login that this node names all.
fn take_word(
    alloc: Global,
    site: &mut NodeReads,
    from: NodeNo,
) -> Result<Sequence<Letter>, AllocError> {
    let word = LoginWord::Named(NodeSet::from_mask(0b111));
    let mine = list_of(alloc, 1)?;
    site.hear_word(alloc, epoch(), ticket(1)?, from, word, mine)
}

fn is_unlock(letter: &Letter) -> bool {
    match &letter.body {
        Body::Unlock { login, .. } => letter.to.number() == 2 && login.seq == 1,
        _ => false,
    }
}

fn unlocks(flying: &[Letter]) -> usize {
    flying.iter().filter(|letter| is_unlock(letter)).count()
}

impl Trial {
    /// Three nodes in their first boots. A manager names all of them.
    pub(crate) fn new(alloc: Global) -> Result<Trial, AllocError> {
        let mut sites = Vec::new(alloc);
        for number in 1..4u8 {
            sites.push(NodeReads::new(alloc, node(number)?, 1))?;
        }
        Ok(Trial {
            alloc,
            users: users_of(alloc)?,
            named: 0b111,
            sites,
            flying: Vec::new(alloc),
        })
    }

    // Where the site of this node stands.
    fn place(&self, number: u8) -> Result<usize, AllocError>
        ensures { IfOk result (λ place. place < length self.now.sites.items) }
    {
        let place = usize::from(number.saturating_sub(1));
        if number == 0 || place >= self.sites.len() {
            return Err(AllocError);
        }
        Ok(place)
    }

    fn take(&mut self, at: usize) -> Result<Letter, AllocError> {
        if at >= self.flying.len() {
            return Err(AllocError);
        }
        Ok(self.flying.remove(at))
    }

    fn hand_over(&mut self, letter: &Letter) -> Result<(), AllocError> {
        let place = self.place(letter.to.number())?;
        hears(
            self.alloc,
            &mut self.sites[place],
            &self.users,
            self.named,
            letter,
            &mut self.flying,
        )
    }

    fn hears(&mut self, at: usize) -> Result<(), AllocError> {
        let letter = self.take(at)?;
        self.hand_over(&letter)
    }

    fn copy_of(&self, at: usize) -> Result<Letter, AllocError> {
        match self.flying.get(at) {
            Some(letter) => letter.copy(),
            None => Err(AllocError),
        }
    }

    fn repeats(&mut self, at: usize) -> Result<(), AllocError> {
        let letter = self.copy_of(at)?;
        self.hand_over(&letter)
    }

    fn note(&mut self, letter: &Letter, kind: MishapKind) -> Result<(), AllocError> {
        let place = self.place(1)?;
        let more = note_loss(&mut self.sites[place], letter, kind)?;
        fly_one(&mut self.flying, more)
    }

    fn loses(&mut self, at: usize, kind: MishapKind) -> Result<(), AllocError> {
        let letter = self.take(at)?;
        self.note(&letter, kind)
    }

    fn logs_in(&mut self, manager: u8, secret: &[u8]) -> Result<(), AllocError> {
        let place = self.place(1)?;
        let letter = log_in(self.alloc, &mut self.sites[place], node(manager)?, secret)?;
        self.flying.push(letter)?;
        Ok(())
    }

    fn logs_in_at_home(&mut self) -> Result<(), AllocError> {
        let place = self.place(1)?;
        let letters = log_in_at_home(self.alloc, &mut self.sites[place], self.named)?;
        fly(&mut self.flying, letters)
    }

    fn fetches(&mut self, holders: u16) -> Result<(), AllocError> {
        let place = self.place(1)?;
        let letter = fetch(self.alloc, &mut self.sites[place], holders)?;
        fly_one(&mut self.flying, letter)
    }

    fn fetches_at_home(&mut self) -> Result<(), AllocError> {
        let place = self.place(1)?;
        fetch_at_home(self.alloc, &mut self.sites[place])
    }

    fn is_named_by(&mut self, from: u8) -> Result<(), AllocError> {
        let place = self.place(1)?;
        let letters = take_word(self.alloc, &mut self.sites[place], node(from)?)?;
        fly(&mut self.flying, letters)
    }

    fn is_told(&mut self, from: u8, seq: u64) -> Result<(), AllocError> {
        let place = self.place(1)?;
        let items = list_of(self.alloc, from)?;
        self.sites[place].hear_list(ticket(seq)?, node(from)?, items)
    }

    fn ask(&mut self, seq: u64) -> Result<Option<Ask>, AllocError> {
        let place = self.place(1)?;
        self.sites[place].ask(self.alloc, ticket(seq)?)
    }

    fn gives_up(&mut self, seq: u64) -> Result<(), AllocError> {
        let place = self.place(1)?;
        let letter = self.sites[place].give_up(epoch(), ticket(seq)?);
        fly_one(&mut self.flying, letter)
    }

    // Acts that always do as they say.
    fn moves(&mut self, act: &Act) -> Result<(), AllocError> {
        match act {
            Act::Names(named) => {
                self.named = *named;
                Ok(())
            }
            Act::LogsIn(manager) => self.logs_in(*manager, b"thyme"),
            Act::GuessesAt(manager) => self.logs_in(*manager, b"sage"),
            Act::LogsInAtHome => self.logs_in_at_home(),
            Act::Fetches(holders) => self.fetches(*holders),
            Act::Hears(at) => self.hears(*at),
            Act::Repeats(at) => self.repeats(*at),
            Act::Loses(at, kind) => self.loses(*at, *kind),
            Act::FetchesAtHome => self.fetches_at_home(),
            Act::IsTold(from, seq) => self.is_told(*from, *seq),
            Act::IsNamedBy(from) => self.is_named_by(*from),
            Act::GivesUp(seq) => self.gives_up(*seq),
            _ => Ok(()),
        }
    }

    /// Whether the act does as it says.
    pub(crate) fn does(&mut self, act: &Act) -> Result<bool, AllocError> {
        self.moves(act)?;
        match act {
            Act::Fly(count) => Ok(self.flying.len() == *count),
            Act::Unlock(count) => Ok(unlocks(&self.flying) == *count),
            Act::Waits(seq, got, wanted) => Ok(waits(&self.ask(*seq)?, *got, *wanted)),
            Act::ListsAll(by) => Ok(lists(&self.ask(1)?, *by, 0b111, &OF_ALL)),
            Act::ListsOthers => Ok(lists(&self.ask(1)?, 2, 0b110, &OF_OTHERS)),
            Act::ListsNothing => Ok(lists(&self.ask(1)?, 2, 0, &[])),
            Act::IsWrong => Ok(is_wrong(&self.ask(1)?)),
            Act::Gives(number) => Ok(gives(&self.ask(2)?, *number)),
            Act::IsGone => Ok(is_gone(&self.ask(2)?)),
            Act::Failed(seq, dropped, down) => Ok(failed(&self.ask(*seq)?, *dropped, *down)),
            Act::IsNone(seq) => Ok(self.ask(*seq)?.is_none()),
            _ => Ok(true),
        }
    }
}

/// How many acts are done as they say, from the first on.
pub(crate) fn goes(alloc: Global, acts: &[Act]) -> Result<usize, AllocError> {
    let mut trial = Trial::new(alloc)?;
    for (at, act) in acts.iter().enumerate() {
        if !trial.does(act)? {
            return Ok(at);
        }
    }
    Ok(acts.len())
}
