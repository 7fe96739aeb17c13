//! Two folders that serve the same one, as two workers do: what one of them moves or removes the other one notices at once.

use crate::asked::{Asked, expect_count};
use crate::opening::watch_at;
use crate::random::{Dice, ask_both, call_of};
use crate::sample_trees::{new_folder, place_of, sample_folder};
use crate::telling::{Item, put};
use crate::two::{Two, open_two};
use crate::watch::Trick;
use crate::worker_stories::Who::{First, Second};
use crate::worker_stories::{CHANGED, FOLLOWED, LINKED, NAMED, Who};
use backing::MemTree;
use std::alloc::Global;
use std::fs;
use std::random::RandomSource;
use std::sync::Wait;
use std::test::Fail;
use terms::Kinds;

/// What is told of two workers.
#[derive(Clone, Copy)]
enum Story<'a> {
    /// Each call has its answer, and none fails.
    Steps(&'a [(Who, &'a str, &'a str)]),
    Moved,
    Followed,
    Renewed,
    Random,
}

/// The story of the workers that serve the folder at that path.
fn take<A: Asked + Drop>(
    host: &HostRuntime,
    root: &str,
    two: &mut Two<A>,
    story: Story,
) -> Result<(), Fail> {
    match story {
        Story::Steps(steps) => take_all(host.alloc(), two, steps),
        Story::Moved => take_moved(host.alloc(), two),
        Story::Followed => follow(host.alloc(), two),
        Story::Renewed => ask_each_renewed(host, root, two),
        Story::Random => ask_either(host.alloc(), two),
    }
}

fn tell_at<R: Wait + RandomSource + Clone + Drop>(
    rt: &R,
    host: &HostRuntime,
    root: &str,
    kinds: Kinds,
    story: Story,
) -> Result<(), Fail> {
    let watch = watch_at(host, root)?;
    let mut two = open_two(rt, host.alloc(), root, kinds, watch)?;
    take(host, root, &mut two, story)
}

/// The story in a new sample folder with that name, of which these kinds are shown.
fn tell<R: Wait + RandomSource + Clone + Drop>(
    rt: &R,
    host: &HostRuntime,
    name: &str,
    kinds: Kinds,
    story: Story,
) -> Result<(), Fail> {
    let root = sample_folder(host, name)?;
    tell_at(rt, host, root.as_str(), kinds, story)?;
    fs::remove_dir_all(host, root.as_str())?;
    Ok(())
}

fn take_all<A: Asked + Drop>(
    alloc: Global,
    two: &mut Two<A>,
    steps: &[(Who, &str, &str)],
) -> Result<(), Fail> {
    for (who, words, wanted) in steps {
        two.expect(alloc, *who, words, wanted)?;
    }
    expect_count(two.first.failed(), 0)?;
    expect_count(two.second.failed(), 0)
}

#[test]
fn what_one_worker_changes_the_other_one_notices(rt: HostRuntime) -> Result<(), Fail> {
    tell(&rt, &rt, "workers", Kinds::Plain, Story::Steps(CHANGED))
}

/// What is moved, and the calls of the system that are made: one look at the source tells whether the other one has to hear of it.
const MOVED: [(Who, &str, &str, &str); 7] = [
    (First, "stat d/x", "fault 2", "open-dir inspect look"),
    (First, "rename a d/x", "done", "look rename"),
    (First, "rename-new d/x d/y", "done", "look look rename"),
    (First, "rename e d/y", "done", "look rename"),
    (First, "remove d/y", "done", "unlink"),
    (First, "rename d q", "done", "look rename"),
    (Second, "stat d", "fault 2", "look"),
];

fn take_moved<A: Asked + Drop>(alloc: Global, two: &mut Two<A>) -> Result<(), Fail> {
    for (who, words, wanted, calls) in MOVED {
        two.watch.take()?;
        two.expect(alloc, who, words, wanted)?;
        let made = two.watch.take()?;
        if made.as_str().trim_start() != calls {
            return Err(Fail::from((words, made, calls)));
        }
    }
    Ok(())
}

#[test]
fn a_worker_looks_at_what_it_moves_alone(rt: HostRuntime) -> Result<(), Fail> {
    tell(&rt, &rt, "moved-by-one", Kinds::All, Story::Moved)
}

/// The same where all kinds are shown, and no look comes before a removal.
#[test]
fn what_one_worker_changes_unseen_the_other_one_notices(rt: HostRuntime) -> Result<(), Fail> {
    tell(&rt, &rt, "unseen-by-one", Kinds::All, Story::Steps(CHANGED))
}

#[test]
fn a_link_that_one_worker_makes_the_other_one_does_not_follow(rt: HostRuntime) -> Result<(), Fail> {
    tell(&rt, &rt, "linked", Kinds::All, Story::Steps(LINKED))
}

#[test]
fn a_further_name_that_one_worker_gives_the_other_one_tells(rt: HostRuntime) -> Result<(), Fail> {
    tell(&rt, &rt, "named", Kinds::All, Story::Steps(NAMED))
}

fn follow<A: Asked + Drop>(alloc: Global, two: &mut Two<A>) -> Result<(), Fail> {
    two.watch.play(Trick::Replace);
    for (who, words, wanted) in FOLLOWED {
        two.expect(alloc, *who, words, wanted)?;
        two.watch.play(Trick::Nothing);
    }
    Ok(())
}

#[test]
fn a_link_that_was_followed_is_not_kept_open(rt: HostRuntime) -> Result<(), Fail> {
    tell(&rt, &rt, "followed", Kinds::Plain, Story::Followed)
}

/// Calls that look first find the file that others have put in the place of one that is kept open.
const RENEWED: [(&str, &str); 4] = [
    ("sync a", "done"),
    ("chmod a 640", "done"),
    ("utimes a 5.1 6.2", "done"),
    ("chown a - -", "done"),
];

/// Others put another file in the place of `a`.
fn renew(rt: &HostRuntime, root: &str) -> Result<(), Fail> {
    let next = place_of(rt.alloc(), root, "next")?;
    put(rt, root, next.as_str(), Item::File("new"))?;
    let place = place_of(rt.alloc(), root, "a")?;
    put(rt, root, place.as_str(), Item::Moved("next"))?;
    Ok(())
}

fn ask_renewed<A: Asked + Drop>(
    rt: &HostRuntime,
    root: &str,
    two: &mut Two<A>,
    words: &str,
    wanted: &str,
) -> Result<(), Fail> {
    two.expect(rt.alloc(), First, "write a 0 old", "wrote 3")?;
    renew(rt, root)?;
    two.expect(rt.alloc(), Second, words, wanted)?;
    two.expect(rt.alloc(), First, "read a 0 9", "bytes 6e6577")
}

fn ask_each_renewed<A: Asked + Drop>(
    rt: &HostRuntime,
    root: &str,
    two: &mut Two<A>,
) -> Result<(), Fail> {
    for (words, wanted) in RENEWED {
        ask_renewed(rt, root, two, words, wanted)?;
    }
    expect_count(two.second.failed(), 0)
}

#[test]
fn a_file_that_others_renewed_is_set_and_synced(rt: HostRuntime) -> Result<(), Fail> {
    tell(&rt, &rt, "renewed", Kinds::Plain, Story::Renewed)
}

/// Makes random calls, each on one of both workers and on a tree, which answer alike.
fn ask_either<A: Asked + Drop>(alloc: Global, two: &mut Two<A>) -> Result<(), Fail> {
    let mut tree = MemTree::new(alloc);
    let mut dice = Dice::new(20_261_126);
    for _ in 0..3000 {
        let words = call_of(alloc, &mut dice, Kinds::All)?;
        if dice.below(2) == 0 {
            ask_both(alloc, &mut tree, &mut two.first, words.as_str())?;
        } else {
            ask_both(alloc, &mut tree, &mut two.second, words.as_str())?;
        }
    }
    Ok(())
}

#[test]
fn both_workers_answer_alike(rt: HostRuntime) -> Result<(), Fail> {
    let root = new_folder(&rt, "either")?;
    tell_at(&rt, &rt, root.as_str(), Kinds::All, Story::Random)?;
    fs::remove_dir_all(&rt, root.as_str())?;
    Ok(())
}
