//! What path locks are for: which calls of a directory come to the same in either order. Definitions and a law, no code.

ghost use Rattle.std.specs.Prelude.{ℕ, List, Option, ◌++◌};
ghost use Rattle.backing.specs.Tree.{Tree};
ghost use Rattle.holds.specs.declared.held.Held.{Held};
ghost use Rattle.laws.specs.Exclusive.{AreAllBeside};
ghost use Rattle.laws.specs.Together.{Marked, Runs, all_of, ours_of, theirs_of};

/// A request that holds its paths exclusively acts at one point: all that others did between its calls could have been done first, and then all
/// that it did, with the same answers and to the same tree. The others hold no path that clashes with those; each of their calls is at paths that
/// they hold exclusively, or a look at a path that they hold, or a change there that is above none of its paths.
pub fn acts_at_one_point()
    ensures { (limit : Option ℕ) (held : Held) (steps : List Marked) (old new : Tree) → AreAllBeside held steps → Runs limit old (all_of steps) new → Runs limit old (theirs_of steps ++ ours_of steps) new }
{}
