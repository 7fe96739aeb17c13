//! Random steps, three in four of which are about what exists.

use crate::asks::{Ask, Batch, End, Findings, Step};
use crate::draws::Draws;
use crate::list_table::{ListNode, ListTable, Plan, ROOT};
use crate::words::Word;

/// The place of a node without a mark.
fn plain_place(table: &ListTable, node: &ListNode) -> Option<(u64, Word)> {
    if node.hidden {
        None
    } else {
        table.place_of(node)
    }
}

/// The place of a hidden node.
fn hidden_place(table: &ListTable) -> Option<(u64, Word)> {
    for node in &table.nodes {
        if node.hidden {
            return table.place_of(node);
        }
    }
    None
}

/// The place of the node of an open file, if it has no mark.
fn open_place(table: &ListTable, place: usize) -> Option<(u64, Word)> {
    let file = table.files.get(place)?;
    let (number, _) = file.bearer;
    plain_place(table, table.node(number)?)
}

/// The number of a node with the longest path.
fn deepest(table: &ListTable) -> u64 {
    let (mut number, mut longest) = (ROOT, 0usize);
    for node in &table.nodes {
        if let Some(way) = &node.way
            && way.bytes() > longest
        {
            number = node.number;
            longest = way.bytes();
        }
    }
    number
}

impl Draws {
    /// The number of a living node three times out of four, otherwise any.
    fn living(&mut self, table: &ListTable) -> u64 {
        let place = self.place(table.nodes.len());
        match table.nodes.get(place) {
            Some(node) if self.chance(3, 4) => node.number,
            _ => self.any_number(),
        }
    }

    /// The number of a node with a name two times out of three, otherwise any.
    fn named(&mut self, table: &ListTable) -> u64 {
        let place = self.place(table.nodes.len());
        match table.nodes.get(place) {
            Some(node) if self.chance(2, 3) && node.way.is_some() => node.number,
            _ => self.living(table),
        }
    }

    /// The root half the time, otherwise a number.
    fn parent(&mut self, table: &ListTable) -> u64 {
        if self.chance(1, 2) {
            ROOT
        } else {
            self.named(table)
        }
    }

    fn any_place(&mut self, table: &ListTable) -> (u64, Word) {
        (self.parent(table), self.word())
    }

    /// The number of a node with a name and without a mark half the time, otherwise any.
    fn plain_number(&mut self, table: &ListTable) -> u64 {
        let place = self.place(table.nodes.len());
        match table.nodes.get(place) {
            Some(node) if self.chance(1, 2) && plain_place(table, node).is_some() => node.number,
            _ => self.named(table),
        }
    }

    /// The place of a node without a mark half the time, otherwise any.
    fn source(&mut self, table: &ListTable) -> (u64, Word) {
        let place = self.place(table.nodes.len());
        let known = match table.nodes.get(place) {
            Some(node) => plain_place(table, node),
            None => None,
        };
        match known {
            Some(source) if self.chance(1, 2) => source,
            _ => self.any_place(table),
        }
    }

    /// The place of a node with an open file three times out of four, otherwise any.
    fn target(&mut self, table: &ListTable) -> (u64, Word) {
        let place = self.place(table.files.len());
        match open_place(table, place) {
            Some(target) if self.chance(3, 4) => target,
            _ => self.any_place(table),
        }
    }

    fn removal(&mut self, table: &ListTable) -> Ask {
        let (parent, word) = self.target(table);
        Ask::Remove(parent, word, self.chance(5, 6))
    }

    fn move_onto(&mut self, table: &ListTable) -> Ask {
        let (parent, word) = self.source(table);
        let (new_parent, new_word) = if self.chance(1, 4) {
            self.any_place(table)
        } else {
            self.target(table)
        };
        Ask::Move(parent, word, new_parent, new_word)
    }

    /// A move that keeps what is at its target, which may be an open file.
    fn keep(&mut self, table: &ListTable) -> Ask {
        let (parent, word) = self.source(table);
        let (new_parent, new_word) = self.target(table);
        Ask::Keep(parent, word, new_parent, new_word)
    }

    fn exchange(&mut self, table: &ListTable) -> Ask {
        let (parent, word) = self.source(table);
        let (new_parent, new_word) = self.source(table);
        Ask::Exchange(parent, word, new_parent, new_word)
    }

    /// The removal of a hidden file, which makes room for others, or of any name.
    fn unhiding(&mut self, table: &ListTable) -> Ask {
        let (parent, word) = match hidden_place(table) {
            Some(place) => place,
            None => self.any_place(table),
        };
        Ask::Remove(parent, word, self.chance(1, 4))
    }

    /// A node and the handle of an open file of it three times out of four, otherwise any.
    fn handle(&mut self, table: &ListTable) -> (u64, u64) {
        let place = self.place(table.files.len());
        match table.files.get(place) {
            Some(file) if self.chance(3, 4) => (file.bearer.0, file.handle),
            _ => (self.named(table), self.any_number()),
        }
    }

    fn use_of_handle(&mut self, table: &ListTable) -> Ask {
        let (number, handle) = self.handle(table);
        Ask::Node(number, Some((handle, self.need())))
    }

    fn release(&mut self, table: &ListTable) -> Ask {
        let (number, handle) = self.handle(table);
        Ask::Release(number, handle)
    }

    fn creation(&mut self, table: &ListTable) -> Ask {
        let (parent, word) = self.any_place(table);
        Ask::Create(parent, word, self.access())
    }

    fn look_up(&mut self, table: &ListTable) -> Ask {
        let (parent, word) = self.any_place(table);
        Ask::Name(parent, word)
    }

    /// A further name, once in four times below all others, so that paths get too long.
    fn link(&mut self, table: &ListTable) -> Ask {
        let number = self.plain_number(table);
        let parent = if self.chance(1, 4) {
            deepest(table)
        } else {
            self.named(table)
        };
        Ask::Link(number, parent, self.word())
    }

    fn page(&mut self, table: &ListTable) -> Ask {
        let folder = self.parent(table);
        let batch = self.batch();
        Ask::Page(folder, batch)
    }

    /// What a request asks for, usually about what exists.
    fn ask(&mut self, table: &ListTable) -> Ask {
        match self.among(48) {
            0..=2 => Ask::Node(self.named(table), None),
            3..=7 => self.page(table),
            8..=13 => self.removal(table),
            14..=15 => self.unhiding(table),
            16..=20 => self.move_onto(table),
            21..=25 => Ask::Open(self.plain_number(table), self.access()),
            26..=27 => self.creation(table),
            28..=31 => self.release(table),
            32 => self.use_of_handle(table),
            33 => self.any_ask(),
            40 => self.keep(table),
            41..=43 => self.exchange(table),
            44.. => self.link(table),
            _ => self.look_up(table),
        }
    }

    /// Findings that fit the page.
    fn fitting(&mut self, batch: Batch) -> Findings {
        Findings {
            count: batch.count,
            ..self.findings()
        }
    }

    /// An outcome that fits.
    fn fitting_end(&mut self, plan: &Plan) -> End {
        match plan.ask {
            Ask::Name(..) | Ask::Create(..) | Ask::Link(..) => End::Entry,
            Ask::Page(_, batch) => End::Entries(self.fitting(batch)),
            Ask::Remove(..) if plan.hide && self.chance(5, 6) => End::Hidden(self.index()),
            Ask::Move(..) if plan.hide && self.chance(5, 6) => {
                End::HiddenMove(self.index(), self.chance(1, 2))
            }
            _ => End::Done,
        }
    }

    /// The outcome of a request: three times out of four one that fits it.
    fn end(&mut self, plan: &Plan) -> End {
        if self.chance(3, 4) {
            self.fitting_end(plan)
        } else {
            self.any_end()
        }
    }

    /// Ends the work of the ticket with that index, by its id, if there is one.
    fn finish(&mut self, table: &ListTable, tickets: &[u64]) -> Step {
        let place = self.place(tickets.len());
        let request = match tickets.get(place) {
            Some(id) => table.request(*id),
            None => None,
        };
        match request {
            Some(request) => Step::Finish(place, self.end(&request.plan)),
            None => Step::Finish(place, self.any_end()),
        }
    }

    /// A step, usually about what exists. The pending tickets are given by their ids.
    pub fn biased_step(&mut self, table: &ListTable, tickets: &[u64], answers: usize) -> Step {
        match self.among(11) {
            0..=3 => Step::Begin(self.ask(table)),
            4..=6 => self.finish(table, tickets),
            7..=9 => Step::Settle(self.place(answers), self.chance(3, 4)),
            _ => Step::Forget(self.living(table), self.among(6)),
        }
    }
}
