//! Ending the work on a request in the list table.

use crate::asks::{Ask, End, Findings, Told};
use crate::list_table::{Bearer, ListFile, ListNode, ListRequest, ListTable, Plan, Posted};
use crate::words::Way;
use std::alloc::AllocError;
use table::Access;

/// The candidate with that index, among those at the end of a ticket's paths.
fn candidate(plan: &Plan, index: u8) -> Option<&Way> {
    if !plan.hide || index > 9 {
        return None;
    }
    let first = plan.ways.len().checked_sub(10)?;
    plan.ways.get(first.saturating_add(index as usize))
}

/// Nothing for each name of the request.
fn list_none(request: &mut ListRequest) -> Result<(), AllocError> {
    for _name in 0..request.plan.entries {
        request.listed.push(None)?;
    }
    Ok(())
}

/// Pins what was given.
fn pin_given(request: &mut ListRequest) -> Result<(), AllocError> {
    for given in &request.listed {
        if let Some((number, _)) = *given {
            request.pins.push(number)?;
        }
    }
    Ok(())
}

impl ListTable {
    /// A number above the root's that no living node has.
    fn free_number(&self) -> u64 {
        let mut free = 2u64;
        for _node in 0..self.nodes.len() {
            if self.node(free).is_some() {
                free = free.saturating_add(1);
            }
        }
        free
    }

    fn create(&mut self, way: &Way) -> Result<Bearer, AllocError> {
        let number = self.free_number();
        let bearer = (number, self.births(number));
        self.postings.push(Posted::Born(bearer))?;
        self.nodes.push(ListNode {
            number,
            generation: bearer.1,
            way: Some(way.copy()?),
            hidden: false,
        })?;
        Ok(bearer)
    }

    /// Gives an entry of the node at the path. If there is none, one is born.
    fn give(&mut self, way: &Way) -> Result<Bearer, AllocError> {
        let bearer = match self.at(way) {
            Some(node) => node.bearer(),
            None => self.create(way)?,
        };
        self.postings.push(Posted::Entry(bearer))?;
        Ok(bearer)
    }

    fn is_held_alone(&self, way: &Way) -> bool {
        for request in &self.requests {
            if request.excludes(way) {
                return true;
            }
        }
        false
    }

    /// Gives an entry for a name, if it was found and no request holds it exclusively.
    fn give_found(&mut self, way: &Way, found: bool) -> Result<Option<Bearer>, AllocError> {
        if found && !self.is_held_alone(way) {
            Ok(Some(self.give(way)?))
        } else {
            Ok(None)
        }
    }

    /// Gives what the names of a page are given.
    fn give_page(
        &mut self,
        request: &mut ListRequest,
        findings: Findings,
    ) -> Result<(), AllocError> {
        let ways = request.plan.ways.get(1..).unwrap_or(&[]);
        let all = findings.found();
        for (way, found) in ways.iter().zip(all.iter()) {
            request.listed.push(self.give_found(way, *found)?)?;
        }
        Ok(())
    }

    /// Cuts each node at the path or below.
    fn cut(&mut self, way: &Way) {
        for node in self.nodes.iter_mut() {
            if node.is_below(way) {
                node.way = None;
                node.hidden = false;
            }
        }
    }

    /// Moves what is at the first path or below to the second, where everything is cut first. A path that is moved to
    /// itself does not change.
    fn relocate(&mut self, old: &Way, new: &Way) -> Result<(), AllocError> {
        if old.is(new) {
            return Ok(());
        }
        self.cut(new);
        for node in self.nodes.iter_mut() {
            let _moved = node.relocate(old, new)?;
        }
        Ok(())
    }

    /// Exchanges what is at the two paths or below.
    fn exchange(&mut self, one: &Way, two: &Way) -> Result<(), AllocError> {
        for node in self.nodes.iter_mut() {
            if !node.relocate(one, two)? {
                let _moved = node.relocate(two, one)?;
            }
        }
        Ok(())
    }

    /// Moves what is at the path to the candidate, and marks the node.
    fn hide(&mut self, way: &Way, candidate: &Way) -> Result<(), AllocError> {
        let Some(node) = self.at(way) else {
            return self.relocate(way, candidate);
        };
        let number = node.number;
        self.relocate(way, candidate)?;
        for node in self.nodes.iter_mut() {
            if node.number == number {
                node.hidden = true;
            }
        }
        Ok(())
    }

    fn open_file(&mut self, bearer: Bearer, access: Access) -> Result<u64, AllocError> {
        self.last_handle = self.last_handle.saturating_add(1);
        self.files.push(ListFile {
            handle: self.last_handle,
            bearer,
            access,
        })?;
        Ok(self.last_handle)
    }

    /// Gives an entry for the only name of the request, whose path is the last one of its ticket, and opens its file if
    /// asked for.
    fn give_name(&mut self, request: &mut ListRequest) -> Result<(), AllocError> {
        let Some(way) = request.plan.ways.last() else {
            return Ok(());
        };
        let bearer = self.give(way)?;
        request.listed.push(Some(bearer))?;
        if let Ask::Create(_, _, access) = request.plan.ask {
            request.opened = Some(self.open_file(bearer, access)?);
        }
        Ok(())
    }

    fn open_node(
        &mut self,
        request: &mut ListRequest,
        number: u64,
        access: Access,
    ) -> Result<(), AllocError> {
        if let Some(node) = self.node(number) {
            let bearer = node.bearer();
            request.opened = Some(self.open_file(bearer, access)?);
        }
        Ok(())
    }

    /// Changes names as the request asked for.
    fn change(&mut self, plan: &Plan) -> Result<(), AllocError> {
        match (plan.ask, plan.ways.as_slice()) {
            (Ask::Remove(..), [way, ..]) => self.cut(way),
            (Ask::Release(..), [way, ..]) if plan.last => self.cut(way),
            (Ask::Move(..) | Ask::Keep(..), [source, target, ..]) => {
                self.relocate(source, target)?;
            }
            (Ask::Exchange(..), [one, two, ..]) => self.exchange(one, two)?,
            _ => {}
        }
        Ok(())
    }

    /// Hides what is at the name that was to be removed.
    fn hide_removed(&mut self, plan: &Plan, index: u8) -> Result<(), AllocError> {
        match (plan.ask, plan.ways.as_slice(), candidate(plan, index)) {
            (Ask::Remove(..), [way, ..], Some(candidate)) => self.hide(way, candidate),
            _ => Ok(()),
        }
    }

    /// Hides what is at the target of a move, which is then made, or is not.
    fn hide_target(&mut self, plan: &Plan, index: u8, moved: bool) -> Result<(), AllocError> {
        let (Ask::Move(..), [source, target, ..], Some(candidate)) = (
            plan.ask,
            plan.ways.as_slice(),
            candidate(plan, index),
        ) else {
            return Ok(());
        };
        self.hide(target, candidate)?;
        if moved {
            self.relocate(source, target)?;
        }
        Ok(())
    }

    /// Changes names, if the outcome says so.
    fn end_change(&mut self, plan: &Plan, end: End) -> Result<(), AllocError> {
        match end {
            End::Done => self.change(plan),
            End::Hidden(index) => self.hide_removed(plan, index),
            End::HiddenMove(index, moved) => self.hide_target(plan, index, moved),
            End::Failed | End::Entry | End::Entries(_) => Ok(()),
        }
    }

    /// Carries out the outcome, if it fits.
    fn act(&mut self, request: &mut ListRequest, end: End) -> Result<(), AllocError> {
        match (request.plan.ask, end) {
            (Ask::Name(..) | Ask::Create(..) | Ask::Link(..), End::Entry) => {
                self.give_name(request)
            }
            (Ask::Page(_, batch), End::Entries(findings)) if findings.len() == batch.len() => {
                self.give_page(request, findings)
            }
            (Ask::Open(number, access), End::Done) => self.open_node(request, number, access),
            (Ask::Name(..) | Ask::Create(..) | Ask::Link(..) | Ask::Page(..), _) => {
                list_none(request)
            }
            _ => self.end_change(&request.plan, end),
        }
    }

    /// Answers the request, which then also pins what it gave.
    fn answer(&mut self, request: &mut ListRequest, end: End) -> Result<Told, AllocError> {
        self.act(request, end)?;
        pin_given(request)?;
        request.working = false;
        Ok(Told::Ended {
            names: request.listed.len(),
            opened: request.opened,
            lost: false,
        })
    }

    /// Ends the work on the request with that id. What it gave is recorded with it.
    pub fn finish(&mut self, id: u64, end: End) -> Result<Told, AllocError> {
        let Some(mut request) = self.take_out(id, true) else {
            return Ok(Told::Ended {
                names: 0,
                opened: None,
                lost: true,
            });
        };
        let told = self.answer(&mut request, end)?;
        self.requests.push(request)?;
        self.sweep();
        Ok(told)
    }
}
