//! What a request of the list table needs: the paths of its ticket, what it holds, and what it is promised.

use crate::asks::{Ask, Batch};
use crate::list_table::{Bearer, ListFile, ListTable, Plan};
use crate::words::{Way, Word, add_prefixes};
use std::alloc::AllocError;

/// The maximum number of bytes of a path.
pub const LONGEST: usize = 4_096;

/// How many candidates a file may be hidden under.
const CANDIDATES: u32 = 10;

/// Adds the path to those of the ticket and to those that are held exclusively.
fn add_alone(plan: &mut Plan, way: Way) -> Result<(), AllocError> {
    plan.exclusive.push(way.copy()?)?;
    plan.ways.push(way)?;
    Ok(())
}

// A plan is lent to what adds to it, so that nothing but the first function drops it where memory is refused.
impl ListTable {
    /// A plan that needs nothing yet.
    fn empty_plan(&self, ask: Ask) -> Plan {
        Plan {
            ask,
            given: Vec::new(self.alloc),
            ways: Vec::new(self.alloc),
            shared: Vec::new(self.alloc),
            exclusive: Vec::new(self.alloc),
            same: false,
            hide: false,
            last: false,
            births: 0,
            entries: 0,
            files: 0,
        }
    }

    fn add_node(&self, plan: &mut Plan, number: u64, way: &Way) -> Result<(), AllocError> {
        plan.given.push(number)?;
        plan.ways.push(way.copy()?)?;
        add_prefixes(&mut plan.shared, way)
    }

    /// An entry is promised for the name, and a birth if it has no node.
    fn promise_entry(&self, plan: &mut Plan, path: &Way) {
        plan.entries = 1;
        plan.births = if self.at(path).is_some() { 0 } else { 1 };
    }

    fn add_name(
        &self,
        plan: &mut Plan,
        parent: u64,
        way: &Way,
        word: Word,
    ) -> Result<(), AllocError> {
        let path = way.below(word)?;
        self.promise_entry(plan, &path);
        self.add_node(plan, parent, &path)
    }

    fn add_page(
        &self,
        plan: &mut Plan,
        folder: u64,
        way: &Way,
        batch: Batch,
    ) -> Result<(), AllocError> {
        self.add_node(plan, folder, way)?;
        let words = batch.words();
        for word in words.iter().take(batch.len()) {
            plan.ways.push(way.below(*word)?)?;
            plan.entries = plan.entries.saturating_add(1);
            plan.births = plan.births.saturating_add(1);
        }
        Ok(())
    }

    /// The node at the path, if it has an open file.
    fn open_at(&self, way: &Way) -> Option<Bearer> {
        let bearer = self.at(way)?.bearer();
        if self.openings(bearer) > 0 {
            Some(bearer)
        } else {
            None
        }
    }

    /// Adds the candidates in the folder under which the file of the node may be hidden, if there is one.
    fn add_candidates(
        &self,
        plan: &mut Plan,
        hidden: Option<Bearer>,
        folder: &Way,
    ) -> Result<(), AllocError> {
        let Some((number, generation)) = hidden else {
            return Ok(());
        };
        plan.hide = true;
        for i in 0..CANDIDATES {
            let candidate = folder.below(Word::Hidden {
                number,
                generation,
                counter: self.counter.wrapping_add(i),
            })?;
            add_alone(plan, candidate)?;
        }
        Ok(())
    }

    fn add_removal(
        &self,
        plan: &mut Plan,
        (parent, way, word): (u64, &Way, Word),
        may_hide: bool,
    ) -> Result<(), AllocError> {
        let path = way.below(word)?;
        let hidden = if may_hide { self.open_at(&path) } else { None };
        add_alone(plan, path)?;
        plan.given.push(parent)?;
        add_prefixes(&mut plan.shared, way)?;
        self.add_candidates(plan, hidden, way)
    }

    /// Adds both paths of a move or an exchange. The file at the target may be hidden only by a move that need not keep it: its node
    /// is returned.
    fn add_both(
        &self,
        plan: &mut Plan,
        source: Way,
        target: Way,
    ) -> Result<Option<Bearer>, AllocError> {
        plan.same = source.is(&target);
        let hidden = if matches!(plan.ask, Ask::Move(..)) && !plan.same {
            self.open_at(&target)
        } else {
            None
        };
        add_alone(plan, source)?;
        if plan.same {
            plan.ways.push(target)?;
        } else {
            add_alone(plan, target)?;
        }
        Ok(hidden)
    }

    /// Moving the one name to the other, each under its parent's path, or exchanging them.
    fn add_move(
        &self,
        plan: &mut Plan,
        (parent, way, word): (u64, &Way, Word),
        (new_parent, new_way, new_word): (u64, &Way, Word),
    ) -> Result<(), AllocError> {
        plan.given.push(parent)?;
        plan.given.push(new_parent)?;
        add_prefixes(&mut plan.shared, way)?;
        add_prefixes(&mut plan.shared, new_way)?;
        let source = way.below(word)?;
        let hidden = self.add_both(plan, source, new_way.below(new_word)?)?;
        self.add_candidates(plan, hidden, new_way)
    }

    /// Whether the file is the only open one of a hidden node.
    fn is_last(&self, file: ListFile) -> bool {
        let (number, _) = file.bearer;
        match self.node(number) {
            Some(node) => node.hidden && self.openings(file.bearer) == 1,
            None => false,
        }
    }

    /// What closing a file of a node with a name needs.
    fn add_closing(
        &self,
        plan: &mut Plan,
        number: u64,
        way: &Way,
        last: bool,
    ) -> Result<(), AllocError> {
        if !last {
            return self.add_node(plan, number, way);
        }
        plan.last = true;
        plan.given.push(number)?;
        add_alone(plan, way.copy()?)?;
        add_prefixes(&mut plan.shared, &way.parent()?)
    }

    /// A node that is cut, or whose path is too long, is not named, and nothing is held.
    fn add_release(&self, plan: &mut Plan, number: u64, handle: u64) -> Result<(), AllocError> {
        let last = match self.file(handle) {
            Some(file) => self.is_last(file),
            None => false,
        };
        match self.way_of(number) {
            Some(way) if way.bytes() <= LONGEST => self.add_closing(plan, number, way, last),
            _ => Ok(()),
        }
    }

    /// What a node needs, and what a LOOKUP of the further name of its file needs.
    fn add_link(
        &self,
        plan: &mut Plan,
        (number, way): (u64, &Way),
        (parent, new_way, word): (u64, &Way, Word),
    ) -> Result<(), AllocError> {
        self.add_node(plan, number, way)?;
        plan.given.push(parent)?;
        let path = new_way.below(word)?;
        self.promise_entry(plan, &path);
        add_prefixes(&mut plan.shared, &path)?;
        plan.ways.push(path)?;
        Ok(())
    }

    /// Both the node and the parent must be named.
    fn needs_link(
        &self,
        plan: &mut Plan,
        number: u64,
        (parent, word): (u64, Word),
    ) -> Result<bool, AllocError> {
        let (Some(way), Some(new_way)) = (self.way_of(number), self.way_of(parent)) else {
            return Ok(false);
        };
        self.add_link(plan, (number, way), (parent, new_way, word))?;
        Ok(true)
    }

    fn needs_move(
        &self,
        plan: &mut Plan,
        (parent, word): (u64, Word),
        (new_parent, new_word): (u64, Word),
    ) -> Result<bool, AllocError> {
        let (Some(way), Some(new_way)) = (self.way_of(parent), self.way_of(new_parent)) else {
            return Ok(false);
        };
        self.add_move(plan, (parent, way, word), (new_parent, new_way, new_word))?;
        Ok(true)
    }

    /// What is needed for one node with a name.
    fn add_at(&self, plan: &mut Plan, number: u64, way: &Way) -> Result<(), AllocError> {
        match plan.ask {
            Ask::Name(_, word) => self.add_name(plan, number, way, word),
            Ask::Create(_, word, _) => {
                plan.files = 1;
                self.add_name(plan, number, way, word)
            }
            Ask::Page(_, batch) => self.add_page(plan, number, way, batch),
            Ask::Remove(_, word, may_hide) => {
                self.add_removal(plan, (number, way, word), may_hide)
            }
            Ask::Open(..) => {
                plan.files = 1;
                self.add_node(plan, number, way)
            }
            _ => self.add_node(plan, number, way),
        }
    }

    fn needs_node(&self, plan: &mut Plan, number: u64) -> Result<bool, AllocError> {
        let Some(way) = self.way_of(number) else {
            return Ok(false);
        };
        self.add_at(plan, number, way)?;
        Ok(true)
    }

    /// Adds what the request needs. False if a number that it names is unknown or cut.
    fn needs(&self, plan: &mut Plan) -> Result<bool, AllocError> {
        match plan.ask {
            Ask::Release(number, handle) => {
                self.add_release(plan, number, handle)?;
                Ok(true)
            }
            Ask::Move(parent, word, new_parent, new_word)
            | Ask::Keep(parent, word, new_parent, new_word)
            | Ask::Exchange(parent, word, new_parent, new_word) => {
                self.needs_move(plan, (parent, word), (new_parent, new_word))
            }
            Ask::Link(number, parent, word) => self.needs_link(plan, number, (parent, word)),
            Ask::Node(number, _)
            | Ask::Name(number, _)
            | Ask::Page(number, _)
            | Ask::Remove(number, _, _)
            | Ask::Open(number, _)
            | Ask::Create(number, _, _) => self.needs_node(plan, number),
        }
    }

    /// What the request needs, or nothing if a number that it names is unknown or cut.
    pub fn plan(&self, ask: Ask) -> Result<Option<Plan>, AllocError> {
        let mut plan = self.empty_plan(ask);
        if self.needs(&mut plan)? {
            Ok(Some(plan))
        } else {
            Ok(None)
        }
    }
}
