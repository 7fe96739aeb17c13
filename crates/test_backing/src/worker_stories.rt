//! Stories of two workers: who asks what, and the answer.

/// Who asks.
#[derive(Clone, Copy)]
pub enum Who {
    First,
    Second,
}

use Who::{First, Second};

/// What one of them changes the other one notices at once.
pub const CHANGED: &[(Who, &str, &str)] = &[
    (First, "mkdir d/x", "done"),
    (First, "make d/x/f", "done"),
    (First, "write d/x/f 0 one", "wrote 3"),
    (Second, "stat d/x/f", "file 3"),
    (Second, "read d/x/f 0 9", "bytes 6f6e65"),
    (First, "rename d/x z", "done"),
    (Second, "stat d/x/f", "fault 2"),
    (Second, "read d/x/f 0 9", "fault 2"),
    (Second, "make d/x/g", "fault 2"),
    (Second, "read z/f 0 9", "bytes 6f6e65"),
    (Second, "write z/f 0 O", "wrote 1"),
    (First, "read z/f 0 9", "bytes 4f6e65"),
    (First, "mkdir d/x", "done"),
    (Second, "list d/x", "names"),
    (First, "rmdir d/x", "done"),
    (Second, "stat d/x/f", "fault 2"),
    (Second, "make d/x/f", "fault 2"),
    (Second, "rename z/f d/f", "done"),
    (First, "read z/f 0 9", "fault 2"),
    (First, "read d/f 0 9", "bytes 4f6e65"),
    (First, "remove d/f", "done"),
    (Second, "read d/f 0 9", "fault 2"),
    (Second, "write d/f 0 x", "fault 2"),
    (Second, "make d/f", "done"),
    (First, "read d/f 0 9", "bytes "),
    (Second, "list d", "names f"),
    (First, "write d/f 0 new", "wrote 3"),
    (Second, "stat d/f", "file 3"),
    (Second, "list .", "names a d/ e z/"),
    (First, "remove a", "done"),
    (Second, "stat a", "fault 2"),
    (Second, "mkdir a", "done"),
    (First, "stat a", "folder 0"),
];

/// A link that was followed is not kept open as the file: the next call of either worker finds none.
pub const FOLLOWED: &[(Who, &str, &str)] = &[
    (First, "read a 0 9", "fault 5"),
    (First, "read a 0 9", "fault 2"),
    (Second, "read a 0 9", "fault 2"),
    (Second, "write a 0 xyz", "fault 2"),
    (First, "stat e", "file 0"),
];

/// Where one of them makes a link in the place of a file or a folder that the other one has open, that one does not go through it. No
/// time passes between.
pub const LINKED: &[(Who, &str, &str)] = &[
    (First, "write a 0 one", "wrote 3"),
    (Second, "read a 0 9", "bytes 6f6e65"),
    (Second, "remove a", "done"),
    (Second, "link a e", "done"),
    (First, "read a 0 9", "fault 22"),
    (First, "write a 0 x", "fault 22"),
    (First, "setlen a 9", "fault 22"),
    (Second, "read a 0 9", "fault 22"),
    (First, "readlink a", "bytes 65"),
    (First, "stat e", "file 0"),
    // A link is renamed to the name of a file.
    (First, "write e 0 eee", "wrote 3"),
    (Second, "link l d", "done"),
    (Second, "rename l e", "done"),
    (First, "read e 0 9", "fault 22"),
    (First, "write e 0 x", "fault 22"),
    (First, "stat e", "link 1"),
    // A link takes the place of a folder.
    (First, "mkdir d/x", "done"),
    (First, "make d/x/f", "done"),
    (First, "write d/x/f 0 one", "wrote 3"),
    (Second, "rename d/x y", "done"),
    (Second, "link d/x ../y", "done"),
    (First, "read d/x/f 0 9", "fault 20"),
    (First, "write d/x/f 0 x", "fault 20"),
    (First, "make d/x/g", "fault 20"),
    (First, "stat d/x", "link 4"),
    (First, "read y/f 0 9", "bytes 6f6e65"),
    // A file takes the place of a link.
    (First, "remove a", "done"),
    (First, "make a", "done"),
    (First, "write a 0 new", "wrote 3"),
    (Second, "readlink a", "fault 22"),
    (Second, "read a 0 9", "bytes 6e6577"),
];

/// A further name that one of them gives is told by the other one at once, also what a list of its own has shown.
pub const NAMED: &[(Who, &str, &str)] = &[
    (First, "list .", "names a d/ e"),
    (First, "names a", "1"),
    (Second, "name a d/b", "done"),
    (First, "names a", "2"),
    (First, "read d/b 0 9", "bytes 616263"),
    (Second, "write a 0 x", "wrote 1"),
    (First, "read d/b 0 9", "bytes 786263"),
    (First, "write d/b 0 y", "wrote 1"),
    (Second, "read a 0 9", "bytes 796263"),
    (First, "list d", "names b"),
    (Second, "remove a", "done"),
    (First, "names d/b", "1"),
    (First, "stat a", "fault 2"),
    (First, "name d/b a", "done"),
    (Second, "read a 0 9", "bytes 796263"),
    (Second, "names d/b", "2"),
];
