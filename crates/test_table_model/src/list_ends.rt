//! What the list table takes back and drops.

use crate::asks::Told;
use crate::list_table::{Bearer, ListNode, ListRequest, ListTable, Posted, ROOT};
use std::alloc::AllocError;

impl ListTable {
    /// Closes the open file under the handle, if there is one.
    pub fn close(&mut self, handle: u64) {
        for (place, file) in self.files.iter().enumerate() {
            if file.handle == handle {
                let _file = self.files.remove(place);
                return;
            }
        }
    }

    fn is_pinned(&self, number: u64) -> bool {
        for request in &self.requests {
            if request.pins.as_slice().contains(&number) {
                return true;
            }
        }
        false
    }

    fn has_named_child(&self, node: &ListNode) -> bool {
        match &node.way {
            Some(way) => self.has_child(way),
            None => false,
        }
    }

    /// Whether something keeps the node alive.
    fn has_reason(&self, node: &ListNode) -> bool {
        node.number == ROOT
            || node.hidden
            || self.openings(node.bearer()) > 0
            || self.is_pinned(node.number)
            || self.has_named_child(node)
            || self.count(node.bearer()) > 0
    }

    /// The index of a node that nothing keeps alive, if there is one.
    fn unneeded(&self) -> Option<usize> {
        for (place, node) in self.nodes.iter().enumerate() {
            if !self.has_reason(node) {
                return Some(place);
            }
        }
        None
    }

    /// Drops what nothing keeps alive, until everything that is left has a reason.
    pub fn sweep(&mut self) {
        for _round in 0..self.nodes.len() {
            match self.unneeded() {
                Some(place) if place < self.nodes.len() => {
                    let _node = self.nodes.remove(place);
                }
                _ => return,
            }
        }
    }

    /// Takes back an entry, if its count is above 0.
    fn give_back(&mut self, bearer: Bearer) -> Result<(), AllocError> {
        if self.count(bearer) > 0 {
            self.postings.push(Posted::Back(bearer))?;
        }
        Ok(())
    }

    /// Takes back everything that an answer gave, and closes the file that it opened.
    fn take_back(
        &mut self,
        listed: &[Option<Bearer>],
        opened: Option<u64>,
    ) -> Result<(), AllocError> {
        for given in listed {
            if let Some(bearer) = *given {
                self.give_back(bearer)?;
            }
        }
        if let Some(handle) = opened {
            self.close(handle);
        }
        Ok(())
    }

    /// The index of the request with that id, if it is in progress, or if it is not.
    fn place_of_request(&self, id: u64, working: bool) -> Option<usize> {
        for (place, request) in self.requests.iter().enumerate() {
            if request.id == id && request.working == working {
                return Some(place);
            }
        }
        None
    }

    /// Takes that request out, if it is there.
    pub fn take_out(&mut self, id: u64, working: bool) -> Option<ListRequest> {
        match self.place_of_request(id, working) {
            Some(place) if place < self.requests.len() => Some(self.requests.remove(place)),
            _ => None,
        }
    }

    /// Ends the request with that id, which was answered.
    pub fn settle(&mut self, id: u64, taken: bool) -> Result<Told, AllocError> {
        let Some(request) = self.take_out(id, false) else {
            return Ok(Told::Settled { entries: 0, taken });
        };
        let entries = request.entries();
        if !taken {
            self.take_back(request.listed.as_slice(), request.opened)?;
        }
        self.sweep();
        Ok(Told::Settled { entries, taken })
    }

    /// The client forgets lookups of a node: at most as many as its count.
    pub fn forget(&mut self, number: u64, n: u64) -> Result<Told, AllocError> {
        let bearer = match self.node(number) {
            Some(node) if number != ROOT => node.bearer(),
            _ => return Ok(Told::Amount(0)),
        };
        let amount = n.min(self.count(bearer));
        if amount > 0 {
            self.postings.push(Posted::Forget(bearer, amount))?;
            self.sweep();
        }
        Ok(Told::Amount(amount))
    }
}
