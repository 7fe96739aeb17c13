//! A system that is asked by words. What it opens is kept, and named by a number: 0 is the folder itself.

use crate::words::{
    WORDS, change_of, done_text, error_text, is_link_text, name_of, name_text, number, octal,
    same_text, stat_text, target_text, times_text, words_of,
};
use disk::{Access, DiskError, System};
use paths::Name;
use std::alloc::{AllocError, Global};

/// A system, and what it has open.
#[derive(Drop)]
pub struct Asked<S: System + Drop> {
    pub system: S,
    alloc: Global,
    open: Vec<S::Handle>,
}

/// Nothing is open under that number, or the name is none.
const NONE: &str = "none";

impl<S: System + Drop> Asked<S> {
    /// The folder itself is open.
    pub fn new(alloc: Global, system: S) -> Result<Asked<S>, DiskError> {
        let root = system.open_root()?;
        let mut open = Vec::new(alloc);
        if open.push(root).is_err() {
            return Err(DiskError::Failed(errno::ENOMEM));
        }
        Ok(Asked {
            system,
            alloc,
            open,
        })
    }

    /// What comes of it.
    pub fn ask(&mut self, text: &str) -> Result<String, AllocError> {
        let words = words_of(text);
        match words[0] {
            "look" | "when" | "inspect" | "list" | "sync" | "changes" => self.ask_to_look(&words),
            "dir" | "open" | "make" | "close" => self.ask_to_open(&words),
            "read" | "write" | "setlen" => self.ask_for_bytes(&words),
            "mkdir" | "remove" | "rmdir" => self.ask_to_change(&words),
            "rename" | "name" | "same" => self.ask_about_two(&words),
            "link" | "target" => self.ask_about_links(&words),
            _ => self.ask_to_set(&words),
        }
    }

    fn none(&self) -> Result<String, AllocError> {
        String::from_str(self.alloc, NONE)
    }

    fn ask_to_look(&mut self, words: &[&str; WORDS]) -> Result<String, AllocError> {
        let alloc = self.alloc;
        if words[0] == "changes" {
            return format!(in alloc; "{}", self.system.changes());
        }
        let Some(at) = self.open.get(number(words[1]) as usize) else {
            return self.none();
        };
        match words[0] {
            "inspect" => return stat_text(alloc, self.system.inspect(at)),
            "list" => return list_text(alloc, self.system.list(at)),
            "sync" => return done_text(alloc, self.system.sync(at)),
            _ => {}
        }
        let Some(name) = name_of(alloc, words[2])? else {
            return self.none();
        };
        let told = self.system.look(at, &name);
        if words[0] == "when" {
            times_text(alloc, told)
        } else {
            stat_text(alloc, told)
        }
    }

    /// What was opened is kept, and its number told.
    fn ask_to_open(&mut self, words: &[&str; WORDS]) -> Result<String, AllocError> {
        let alloc = self.alloc;
        if words[0] == "close" {
            drop(self.open.pop());
            return String::from_str(alloc, "done");
        }
        let Some(at) = self.open.get(number(words[1]) as usize) else {
            return self.none();
        };
        let Some(name) = name_of(alloc, words[2])? else {
            return self.none();
        };
        let told = match words[0] {
            "dir" => self.system.open_dir(at, &name),
            "make" => self.system.make_file(at, &name, octal(words[3])),
            _ => {
                let access = if words[3] == "w" {
                    Access::Write
                } else {
                    Access::Read
                };
                self.system.open_file(at, &name, access)
            }
        };
        match told {
            Ok(handle) => {
                self.open.push(handle)?;
                format!(in alloc; "open {}", self.open.len().saturating_sub(1))
            }
            Err(error) => error_text(alloc, error),
        }
    }

    fn ask_for_bytes(&mut self, words: &[&str; WORDS]) -> Result<String, AllocError> {
        let alloc = self.alloc;
        let Some(at) = self.open.get(number(words[1]) as usize) else {
            return self.none();
        };
        let offset = number(words[2]);
        match words[0] {
            "setlen" => done_text(alloc, self.system.set_len(at, offset)),
            "write" => match self.system.write_at(at, words[3].as_bytes(), offset) {
                Ok(n) => format!(in alloc; "wrote {n}"),
                Err(error) => error_text(alloc, error),
            },
            _ => {
                let mut buffer = [0u8; 16];
                match self.system.read_at(at, &mut buffer, offset) {
                    Ok(n) => format!(in alloc; "{n} {:?}", &buffer[..n.min(4)]),
                    Err(error) => error_text(alloc, error),
                }
            }
        }
    }

    fn ask_to_change(&mut self, words: &[&str; WORDS]) -> Result<String, AllocError> {
        let alloc = self.alloc;
        let Some(at) = self.open.get(number(words[1]) as usize) else {
            return self.none();
        };
        let Some(name) = name_of(alloc, words[2])? else {
            return self.none();
        };
        let told = match words[0] {
            "mkdir" => self.system.make_dir(at, &name, octal(words[3])),
            "remove" => self.system.remove_file(at, &name),
            _ => self.system.remove_dir(at, &name),
        };
        done_text(alloc, told)
    }

    /// `rename` moves what stands at the one name to the other, `name` gives it that name as well, and `same` tells whether both are names
    /// of one file, and how many it has.
    fn ask_about_two(&mut self, words: &[&str; WORDS]) -> Result<String, AllocError> {
        let alloc = self.alloc;
        let (Some(at), Some(to)) = (
            self.open.get(number(words[1]) as usize),
            self.open.get(number(words[3]) as usize),
        ) else {
            return self.none();
        };
        let Some(name) = name_of(alloc, words[2])? else {
            return self.none();
        };
        let Some(new_name) = name_of(alloc, words[4])? else {
            return self.none();
        };
        match words[0] {
            "rename" => done_text(alloc, self.system.rename(at, &name, to, &new_name)),
            "name" => done_text(alloc, self.system.link(at, &name, to, &new_name)),
            _ => {
                let one = self.system.look(at, &name);
                same_text(alloc, one, self.system.look(to, &new_name))
            }
        }
    }

    /// `link` makes one with that text, and `target` tells the text of one.
    fn ask_about_links(&mut self, words: &[&str; WORDS]) -> Result<String, AllocError> {
        let alloc = self.alloc;
        let Some(at) = self.open.get(number(words[1]) as usize) else {
            return self.none();
        };
        let Some(name) = name_of(alloc, words[2])? else {
            return self.none();
        };
        if words[0] == "target" {
            return target_text(alloc, self.system.read_link(at, &name));
        }
        let text = words[3].as_bytes();
        if !is_link_text(text) {
            return self.none();
        }
        done_text(alloc, self.system.make_link(at, &name, text))
    }

    /// `mode`, `owner` or `times` of what is open, or `mode-at` and so on of a name.
    fn ask_to_set(&mut self, words: &[&str; WORDS]) -> Result<String, AllocError> {
        let alloc = self.alloc;
        let Some(at) = self.open.get(number(words[1]) as usize) else {
            return self.none();
        };
        let Some(what) = words[0].strip_suffix("-at") else {
            let change = change_of(words[0], words[2], words[3]);
            return done_text(alloc, self.system.set(at, change));
        };
        let Some(name) = name_of(alloc, words[2])? else {
            return self.none();
        };
        let change = change_of(what, words[3], words[4]);
        done_text(alloc, self.system.set_at(at, &name, change))
    }
}

/// The names in order.
fn list_text(alloc: Global, told: Result<Vec<Name>, DiskError>) -> Result<String, AllocError> {
    let names = match told {
        Ok(names) => names,
        Err(error) => return error_text(alloc, error),
    };
    let mut texts = Vec::new(alloc);
    for name in &names {
        texts.push(name_text(alloc, name)?)?;
    }
    texts.sort()?;
    let mut all = String::from_str(alloc, "names")?;
    for text in &texts {
        all.push_str(" ")?;
        all.push_str(text.as_str())?;
    }
    Ok(all)
}
