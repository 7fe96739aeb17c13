//! A text behind which the system follows no link.

ghost use Rattle.std.specs.Prelude.{OnOk};

use crate::calls::SystemCalls;
use crate::page::Page;
use crate::places::{place, push_number};
use crate::start_error::StartError;
use disk::{DiskError, is_lawful};
use errno::{EINVAL, ENAMETOOLONG, ENOMEM};
use std::alloc::{AllocError, Global};
use std::sync::Arc;

/// How many links to the folder of descriptors stand before the place: with the one of the place they are 40, and Linux follows no
/// further one.
const LINKS: u32 = 39;

/// The folder in which the system keeps what it tells of the process.
const OWN_FOLDER: &[u8] = b"/proc/self/";

/// The folder of the process's descriptors, which is then its working directory.
const HERE: &[u8] = b".";

/// Of the names in the process's own folder one that is a link, and one that is a file.
const OWN_LINK: &[u8] = b"exe";

const OWN_FILE: &[u8] = b"status";

/// What leads to one name of an open folder and follows no link there.
#[derive(Drop)]
pub struct Guard<C: SystemCalls> {
    pub text: Page,
    /// The folder of descriptors, to which each link of the text leads.
    descriptors: Arc<C::Fd>,
    ghost entered: { ∥ C.entered ∥₁ },
    ghost guards: { ∥ C.guards text ∥₁ },
}

impl<C: SystemCalls> Guard<C> {
    /// Makes the folder of descriptors the process's working directory, and shows that the system follows no link behind the guard.
    pub fn new(calls: &C, alloc: Global) -> Result<Guard<C>, StartError> {
        if let Err(error) = calls.enter_descriptors() {
            return Err(StartError::NoDescriptors(error));
        }
        match Guard::entered(calls, alloc) {
            Ok(Some(guard)) => Ok(guard),
            Ok(None) => Err(StartError::FollowsLinks),
            Err(error) => Err(StartError::NoDescriptors(error)),
        }
    }

    /// The guard, if the system follows no link behind it.
    fn entered(calls: &C, alloc: Global) -> Result<Option<Guard<C>>, DiskError>
        requires { C.entered }
    {
        let descriptors = calls.open_top(HERE)?;
        let own = calls.open_top(OWN_FOLDER)?;
        let text = text_of(calls.number(&descriptors))?;
        let mut to_link = Page::new();
        let mut to_file = Page::new();
        if !is_lawful(OWN_LINK) || !is_lawful(OWN_FILE) {
            return Err(DiskError::Failed(EINVAL));
        }
        place(&mut to_link, text.text(), calls.number(&own), OWN_LINK)?;
        place(&mut to_file, text.text(), calls.number(&own), OWN_FILE)?;
        if !calls.refuses_links(&own, &text, &to_link, &to_file) {
            return Ok(None);
        }
        match Arc::new(alloc, descriptors) {
            Ok(descriptors) => Ok(Some(Guard { text, descriptors })),
            Err(_) => Err(DiskError::Failed(ENOMEM)),
        }
    }

    /// The same guard once more.
    pub(crate) fn share(&self) -> Result<Guard<C>, AllocError> {
        let descriptors = Arc::try_clone(&self.descriptors)?;
        Ok(Guard {
            text: self.text.copy(),
            descriptors,
        })
    }
}

/// So many times the way to the folder that is open under that number.
fn text_of(number: u32) -> Result<Page, DiskError> {
    let mut text = Page::new();
    for _link in 0..LINKS {
        if !(push_number(&mut text, number) && text.push(b"/")) {
            return Err(DiskError::Failed(ENAMETOOLONG));
        }
    }
    Ok(text)
}
