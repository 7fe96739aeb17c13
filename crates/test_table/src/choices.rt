//! What a long run does next, chosen at random and by the state of the table.

use crate::draws::Draws;
use crate::looks::{node_of, place_of};
use crate::story::{Asks, Outcome, ROOT, Reply, Step, Told};
use crate::task::Task;
use table_image::Image;
use tree::Node;

/// The range from which numbers are drawn that need not have a living node.
const NUMBERS: u64 = 8;

/// The range from which handles are drawn that need not be open.
const HANDLES: u64 = 20;

/// The name of a node without a mark.
fn plain_name(node: &Node) -> Option<(u64, &str)> {
    if node.hidden { None } else { place_of(node) }
}

/// The name of a node with an open file and without a mark: of the open file at that index, or of a later one.
fn open_name(image: &Image, place: usize) -> Option<(u64, &str)> {
    let files = image.files.as_slice();
    for filed in files.iter().skip(place).chain(files.iter()) {
        let node = node_of(image, filed.file.number)?;
        if let Some(name) = plain_name(node) {
            return Some(name);
        }
    }
    None
}

/// The name of a node without a mark: of the node at that index, or of a later one.
fn standing_name(image: &Image, place: usize) -> Option<(u64, &str)> {
    let nodes = image.nodes.as_slice();
    let node = nodes
        .iter()
        .skip(place)
        .chain(nodes.iter())
        .find(|node| plain_name(node).is_some())?;
    plain_name(node)
}

/// The name of a hidden file.
pub fn hidden_name(image: &Image) -> Option<(u64, &str)> {
    let node = image.nodes.as_slice().iter().find(|node| node.hidden)?;
    place_of(node)
}

impl Draws {
    /// The number of a living node three times out of four, otherwise any.
    fn living(&mut self, image: &Image) -> u64 {
        let place = self.place(image.nodes.as_slice().len());
        match (image.nodes.as_slice().get(place), self.among(4)) {
            (Some(node), 1..) => node.number,
            _ => self.among(NUMBERS),
        }
    }

    /// The number of a node with a name two times out of three, otherwise any.
    fn number(&mut self, image: &Image) -> u64 {
        let place = self.place(image.nodes.as_slice().len());
        match (image.nodes.as_slice().get(place), self.among(3)) {
            (Some(node), 1..) if place_of(node).is_some() => node.number,
            _ => self.living(image),
        }
    }

    /// The number of a node with a name and without a mark half the time, otherwise any.
    fn plain(&mut self, image: &Image) -> u64 {
        let place = self.place(image.nodes.as_slice().len());
        match (image.nodes.as_slice().get(place), self.among(2)) {
            (Some(node), 1..) if plain_name(node).is_some() => node.number,
            _ => self.number(image),
        }
    }

    /// The root half the time, otherwise a number.
    fn parent(&mut self, image: &Image) -> u64 {
        match self.among(2) {
            0 => ROOT,
            _ => self.number(image),
        }
    }

    /// The name of a node without a mark half the time, otherwise any.
    fn source<'a>(&mut self, image: &'a Image) -> (u64, &'a str) {
        let place = self.place(image.nodes.as_slice().len());
        match (image.nodes.as_slice().get(place), self.among(2)) {
            (Some(node), 1..) => match plain_name(node) {
                Some(source) => source,
                None => (self.parent(image), self.name()),
            },
            _ => (self.parent(image), self.name()),
        }
    }

    /// The name of an open file three times out of four, otherwise any.
    fn target<'a>(&mut self, image: &'a Image) -> (u64, &'a str) {
        let place = self.place(image.files.as_slice().len());
        match (open_name(image, place), self.among(4)) {
            (Some(target), 1..) => target,
            _ => (self.parent(image), self.name()),
        }
    }

    fn removal<'a>(&mut self, image: &'a Image) -> Asks<'a> {
        let (parent, name) = self.target(image);
        match self.among(6) {
            0 => Asks::Remove(parent, name),
            _ => Asks::Unlink(parent, name),
        }
    }

    fn move_onto<'a>(&mut self, image: &'a Image) -> Asks<'a> {
        let (parent, name) = self.source(image);
        let (new_parent, new_name) = match self.among(4) {
            0 => (self.parent(image), self.name()),
            _ => self.target(image),
        };
        Asks::Move(parent, name, new_parent, new_name)
    }

    /// A move that keeps what is at its target, which may be an open file.
    fn keep<'a>(&mut self, image: &'a Image) -> Asks<'a> {
        let (parent, name) = self.source(image);
        let (new_parent, new_name) = self.target(image);
        Asks::Keep(parent, name, new_parent, new_name)
    }

    /// The name of a node without a mark three times out of four, otherwise any.
    fn standing<'a>(&mut self, image: &'a Image) -> (u64, &'a str) {
        let place = self.place(image.nodes.as_slice().len());
        match (standing_name(image, place), self.among(4)) {
            (Some(name), 1..) => name,
            _ => (self.parent(image), self.name()),
        }
    }

    fn exchange<'a>(&mut self, image: &'a Image) -> Asks<'a> {
        let (parent, name) = self.standing(image);
        let (new_parent, new_name) = self.standing(image);
        Asks::Exchange(parent, name, new_parent, new_name)
    }

    /// A node and the handle of an open file three times out of four, otherwise any.
    fn handle(&mut self, image: &Image) -> (u64, u64) {
        let place = self.place(image.files.as_slice().len());
        match (image.files.as_slice().get(place), self.among(4)) {
            (Some(filed), 1..) => (filed.file.number, filed.handle),
            _ => (self.number(image), self.among(HANDLES)),
        }
    }

    /// The removal of a hidden file, which makes room for others, or of any name.
    fn unhiding<'a>(&mut self, image: &'a Image) -> Asks<'a> {
        match hidden_name(image) {
            Some((parent, name)) => Asks::Remove(parent, name),
            None => Asks::Remove(self.parent(image), self.name()),
        }
    }

    /// A further name, which may be that of a living node.
    fn link<'a>(&mut self, image: &'a Image) -> Asks<'a> {
        let number = self.plain(image);
        let (parent, name) = self.source(image);
        Asks::Link(number, parent, name)
    }

    /// A request that changes names, for a choice of 8 to 20, or of 38 to 42.
    fn change<'a>(&mut self, choice: u64, image: &'a Image) -> Asks<'a> {
        match choice {
            8..=13 => self.removal(image),
            14..=15 => self.unhiding(image),
            38 => self.keep(image),
            39.. => self.exchange(image),
            _ => self.move_onto(image),
        }
    }

    fn release(&mut self, image: &Image) -> Asks<'static> {
        let (number, handle) = self.handle(image);
        Asks::Release(number, handle)
    }

    fn reading(&mut self, image: &Image) -> Asks<'static> {
        let (number, handle) = self.handle(image);
        Asks::Read(number, handle)
    }

    /// A request that does not change names, for other choices.
    fn use_of<'a>(&mut self, choice: u64, image: &'a Image) -> Asks<'a> {
        match choice {
            0..=2 => Asks::Node(self.number(image)),
            3..=7 => Asks::Page(self.parent(image), self.page()),
            21..=25 => Asks::Open(self.plain(image)),
            26..=27 => Asks::Create(self.parent(image), self.name()),
            28..=31 => self.release(image),
            32 => self.reading(image),
            _ => Asks::Name(self.parent(image), self.name()),
        }
    }

    /// What a request asks for.
    pub fn asks<'a>(&mut self, image: &'a Image) -> Asks<'a> {
        let choice = self.among(47);
        match choice {
            8..=20 | 38..=42 => self.change(choice, image),
            43.. => self.link(image),
            _ => self.use_of(choice, image),
        }
    }

    /// A candidate under which a file is hidden, or, one time in five, an index without a candidate.
    fn candidate(&mut self) -> u8 {
        let index = match self.among(5) {
            0 => 10,
            _ => self.among(10),
        };
        u8::try_from(index).unwrap_or(0)
    }

    /// The outcome for a page with that many names.
    fn page_end(&mut self, draw: u64, names: usize) -> Outcome<'static> {
        match draw {
            1 => Outcome::Entry,
            _ => Outcome::Entries(self.found(names, draw)),
        }
    }

    /// The outcome of a removal, which may or may not hide.
    fn removal_end(&mut self, draw: u64, hides: bool) -> Outcome<'static> {
        match draw {
            1 => Outcome::Entry,
            2 if !hides => Outcome::Hidden(self.candidate()),
            4.. if hides => Outcome::Hidden(self.candidate()),
            _ => Outcome::Done,
        }
    }

    /// The outcome of a move, which may or may not hide.
    fn move_end(&mut self, draw: u64, hides: bool) -> Outcome<'static> {
        match draw {
            1 => Outcome::Entry,
            2 if !hides => Outcome::HiddenMove(self.candidate(), true),
            4.. if hides => Outcome::HiddenMove(self.candidate(), self.among(2) == 0),
            _ => Outcome::Done,
        }
    }

    /// The outcome of a request that is done or is given an entry: usually the first of these, and sometimes the
    /// second.
    fn plain_end(draw: u64, mostly: Outcome<'static>, once: Outcome<'static>) -> Outcome<'static> {
        match draw {
            1 => once,
            _ => mostly,
        }
    }

    /// The outcome of a request, usually one that fits it.
    pub fn outcome(&mut self, task: Task) -> Outcome<'static> {
        let draw = self.among(8);
        if draw == 0 {
            return Outcome::Failed;
        }
        match task {
            Task::Page(names) => self.page_end(draw, names),
            Task::Removal { hides } => self.removal_end(draw, hides),
            Task::Move { hides, .. } => self.move_end(draw, hides),
            Task::Name | Task::Create | Task::Link => {
                Draws::plain_end(draw, Outcome::Entry, Outcome::Done)
            }
            Task::Node | Task::Open | Task::Exchange { .. } | Task::Release { .. } => {
                Draws::plain_end(draw, Outcome::Done, Outcome::Entry)
            }
        }
    }

    pub fn reply(&mut self) -> Reply {
        match self.among(4) {
            0 => Reply::Untaken,
            _ => Reply::Taken,
        }
    }

    /// A forget of lookups of a node.
    pub fn forget(&mut self, image: &Image) -> Step<'static> {
        let number = self.living(image);
        Step::Forget(number, self.among(6), Told::Shown)
    }
}
