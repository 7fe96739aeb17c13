//! Files and folders that stay open over changes of the folder's own.

use crate::telling::{Item, Step, tell, tell_with};
use std::test::Fail;

/// Bits are asked for where a file is opened, and not where one is read and written that is open.
#[test]
fn a_file_is_written_by_who_made_it_whatever_its_bits_are(rt: HostRuntime) -> Result<(), Fail> {
    const STEPS: &[Step] = &[
        Step::Ask("make r 444", "done"),
        Step::Ask("write r 0 one", "wrote 3"),
        Step::Both("mode r", "444"),
        Step::Later,
        Step::Costs("write r 3 x", "wrote 1", "write"),
        Step::Ask("chmod r 0", "done"),
        Step::Both("mode r", "0"),
        Step::Both("stat r", "file 4"),
        Step::Costs("read r 0 4", "bytes 6f6e6578", "read"),
        Step::Costs("write r 0 O", "wrote 1", "write"),
        Step::Costs("setlen r 2", "done", "cut"),
        Step::Costs("sync r", "done", "sync"),
        Step::Costs("utimes r 5.1 6.2", "done", "set"),
        Step::Ask("chmod r 200", "done"),
        Step::Ask("read r 0 9", "bytes 4f6e"),
        Step::Put("r", Item::Bits(0)),
        Step::Ask("read r 0 9", "bytes 4f6e"),
        Step::Ask("rename r d/s", "done"),
        Step::Costs("write d/s 2 !", "wrote 1", "write"),
        Step::Both("stat d/s", "file 3"),
        Step::Failed(0),
        // As many others are used as are kept open.
        Step::Ask("make g1", "done"),
        Step::Ask("make g2", "done"),
        Step::Ask("make g3", "done"),
        Step::Ask("make g4", "done"),
        Step::Ask("make g5", "done"),
        Step::Ask("make g6", "done"),
        Step::Ask("make g7", "done"),
        Step::Ask("make g8", "done"),
        Step::Rights("read d/s 0 9", "bytes 4f6e21", "fault 13"),
        Step::Rights("write d/s 0 x", "wrote 1", "fault 13"),
        Step::Ask("chmod d/s 600", "done"),
        Step::Rights("read d/s 0 9", "bytes 786e21", "bytes 4f6e21"),
    ];
    tell_with(rt, "bits", 8, STEPS)
}

/// A name that begins as hidden ones do is one as any other.
#[test]
fn a_file_that_is_renamed_stays_open(rt: HostRuntime) -> Result<(), Fail> {
    const STEPS: &[Step] = &[
        Step::Ask("make d/f", "done"),
        Step::Ask("write d/f 0 one", "wrote 3"),
        Step::Ask("rename d/f d/.fuse_hidden0", "done"),
        Step::Costs("read d/.fuse_hidden0 0 3", "bytes 6f6e65", "read"),
        Step::Costs("write d/.fuse_hidden0 3 x", "wrote 1", "write"),
        Step::Both("stat d/f", "fault 2"),
        Step::Both("read d/f 0 9", "fault 2"),
        Step::Both("read d/.fuse_hidden0 0 9", "bytes 6f6e6578"),
        Step::Ask("make d/f", "done"),
        Step::Ask("write d/f 0 two", "wrote 3"),
        Step::Both("read d/f 0 9", "bytes 74776f"),
        Step::Both("read d/.fuse_hidden0 0 9", "bytes 6f6e6578"),
        Step::Ask("rename-new d/.fuse_hidden0 .fuse_hidden1", "done"),
        Step::Costs("read .fuse_hidden1 0 4", "bytes 6f6e6578", "read"),
        Step::Both("list .", "names .fuse_hidden1 a d/ e"),
        Step::Ask("rename .fuse_hidden1 d/f", "done"),
        Step::Costs("read d/f 0 4", "bytes 6f6e6578", "read"),
        Step::Both("read d/f 0 9", "bytes 6f6e6578"),
        Step::Ask("remove d/f", "done"),
        Step::Both("read d/f 0 9", "fault 2"),
        Step::Both("write d/f 0 x", "fault 2"),
        Step::Both("setlen d/f 0", "fault 2"),
        Step::Both("sync d/f", "fault 2"),
        Step::Both("chmod d/f 600", "fault 2"),
        Step::Both("stat d/f", "fault 2"),
        Step::Both("list d", "names"),
        Step::Failed(0),
    ];
    tell(rt, "hidden", STEPS)
}

#[test]
fn what_is_below_a_renamed_folder_stays_open(rt: HostRuntime) -> Result<(), Fail> {
    const STEPS: &[Step] = &[
        Step::Ask("mkdir d/x", "done"),
        Step::Ask("mkdir d/x/y", "done"),
        Step::Ask("make d/x/y/f", "done"),
        Step::Ask("write d/x/y/f 0 one", "wrote 3"),
        Step::Ask("rename d/x z", "done"),
        Step::Costs("read z/y/f 0 3", "bytes 6f6e65", "read"),
        Step::Costs("stat z/y/f", "file 3", "look"),
        Step::Both("stat d/x/y/f", "fault 2"),
        Step::Both("read d/x/y/f 0 9", "fault 2"),
        Step::Ask("mkdir d/x", "done"),
        Step::Ask("mkdir d/x/y", "done"),
        Step::Ask("make d/x/y/f", "done"),
        Step::Ask("write d/x/y/f 0 other", "wrote 5"),
        Step::Both("read d/x/y/f 0 9", "bytes 6f74686572"),
        Step::Both("read z/y/f 0 9", "bytes 6f6e65"),
        Step::Ask("mkdir q", "done"),
        Step::Ask("list q", "names"),
        Step::Ask("rename z q", "done"),
        Step::Costs("read q/y/f 0 3", "bytes 6f6e65", "read"),
        Step::Both("stat z/y/f", "fault 2"),
        Step::Ask("rename-new q d/x/y/w", "done"),
        Step::Costs("read d/x/y/w/y/f 0 3", "bytes 6f6e65", "read"),
        Step::Both("list d/x/y", "names f w/"),
        Step::Both("stat q/y/f", "fault 2"),
        Step::Ask("rename d/x/y/w/y/f d/x/y/f", "done"),
        Step::Both("read d/x/y/f 0 9", "bytes 6f6e65"),
        Step::Ask("rmdir d/x/y/w/y", "done"),
        Step::Both("stat d/x/y/w/y/f", "fault 2"),
        Step::Both("list d/x/y/w", "names"),
        Step::Failed(0),
    ];
    tell(rt, "below", STEPS)
}
