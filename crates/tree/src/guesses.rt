//! Finding a node when it is known which one it probably is.

ghost use Rattle.std.specs.Prelude.{true, ◌≡◌, IfNone, IfSome};
ghost use Rattle.tree.specs.Places.{at_in, IsFree, IsNamed, IsTree};

use crate::Tree;
use crate::nodes::{Key, Place};

impl Tree {
    /// Whether the node of that number has this name.
    fn is_named(&self, number: u64, key: &Key) -> bool
        ensures yes { result ≡ true → IsNamed (at_in self.now) number key.now.parent key.now.name }
        ensures tree { IsTree (at_in self.now) }
    {
        let Some(node) = self.at(number) else {
            return false;
        };
        match &node.place {
            Place::Named(own) => own.parent == key.parent && own.name.is(&key.name),
            Place::Root | Place::Cut => false,
        }
    }

    /// The number of the node with this name, as [`find`](Tree::find) returns it. If it is the guessed node, its name
    /// is compared, and no name is hashed.
    pub fn find_guessed(&self, key: &Key, guess: Option<u64>) -> Option<u64>
        ensures none { IfNone result (IsFree (at_in self.now) key.now.parent key.now.name) }
        ensures some { IfSome result (λ n. IsNamed (at_in self.now) n key.now.parent key.now.name) }
        ensures tree { IsTree (at_in self.now) }
    {
        match guess {
            Some(number) => {
                if self.is_named(number, key) {
                    return Some(number);
                }
            }
            None => {}
        }
        self.find(key)
    }
}
