//! The lookups that a BATCH_FORGET forgets.

ghost use Rattle.std.specs.Prelude.{◌≡◌, ◌<◌, [], ◌∷◌, length, MatchOption};
ghost use Rattle.wire.specs.Pairs.{pairs_in};

use byteorder::{ByteOrder, LittleEndian};

/// How many bytes a pair has (`fuse_forget_one`).
const PAIR_LEN: usize = 16;

/// Lookups of one node that a client forgets (`fuse_forget_one`).
#[derive(Clone, Copy, Debug, PartialEq, Eq)]
pub struct ForgetOne {
    pub node: u64,
    pub nlookup: u64,
}

/// The first of these pairs, and the rest.
pub fn split_pair(pairs: &[u8]) -> Option<(ForgetOne, &[u8])>
    ensures { MatchOption result (pairs_in pairs.now ≡ [])
        (λ x. (pairs_in pairs.now ≡ x.0 ∷ pairs_in x.1.now) × (length x.1.now < length pairs.now)) }
{
    if pairs.len() < PAIR_LEN {
        return None;
    }
    let pair = ForgetOne {
        node: LittleEndian::read_u64(pairs),
        nlookup: LittleEndian::read_u64(&pairs[8..]),
    };
    Some((pair, &pairs[PAIR_LEN..]))
}
