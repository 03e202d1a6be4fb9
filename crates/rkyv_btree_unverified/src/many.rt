//! Searches of untrusted bytes for many keys side by side, level by level.
ghost use Rattle.std.specs.Prelude.{◌≡◌, ℕ, IsTrue, Option, Result, false};
ghost use Rattle.std.specs.declared.cmp.Ordering.{Ordering as Comparison};
ghost use Rattle.rkyv_btree_format.specs.Layout.{are_fitting};
ghost use Rattle.rkyv_btree_portable.specs.declared.refusal.Refusal.{Refusal};
ghost use Rattle.rkyv_btree_unverified.specs.Ends.{way_at, result_of};
ghost use Rattle.rkyv_btree_unverified.specs.Lookups.{LookupGives};
ghost use Rattle.rkyv_btree_unverified.specs.mirror.Many.{EndStands, HasEnded, Steps, WayGives, WayStands};
ghost use Rattle.rkyv_btree_walk.specs.Search.{shown_value};
ghost use Rattle.rkyv_btree_walk.specs.mirror.Many.{EachKey};
ghost use Rattle.rkyv_btree_walk.specs.mirror.Search.{IsComparedBy};

use crate::node::node_place;
use crate::search::{Next, search_node};
use rkyv_btree_portable::bytes::num32;
use rkyv_btree_portable::check::{CheckBytes, check_own_bytes};
use rkyv_btree_portable::refusal::Refusal;
use rkyv_btree_portable::steps::StepCounter;
use rkyv_btree_walk::archived_map::ArchivedMap;
use rkyv_btree_walk::many::SIDE_BY_SIDE;
use rkyv_btree_walk::search::Compared;
use rkyv_btree_walk::shows::Shows;

/// A tree has at most so many levels.
const LEVELS: usize = 32;

/// How far one of many searches has come.
#[derive(Clone, Copy)]
pub enum UnverifiedWay {
    /// It goes on at this node, which ends before a position.
    On(u32, u32),
    /// It ended at an entry, by its node and number, or without one, or with an error.
    Ended(Result<Option<(u32, u32)>, Refusal>),
}

impl UnverifiedWay {
    /// Returns what the search found. One that goes on past the last level is too deep.
    #[inline(always)]
    pub fn result(self) -> Result<Option<(u32, u32)>, Refusal>
        ensures { result ≡ result_of self }
    {
        match self {
            UnverifiedWay::On(node, _) => Err(Refusal::TooDeep {
                pos: i64::from(node),
            }),
            UnverifiedWay::Ended(end) => end,
        }
    }

    /// Returns whether the search goes on.
    #[inline(always)]
    fn goes_on(self) -> bool
        ensures { result ≡ false → HasEnded self }
    {
        matches!(self, UnverifiedWay::On(_, _))
    }
}

/// Returns the way of a search at its start.
fn first_way<K: CheckBytes, V: CheckBytes, M: ArchivedMap<Key = K, Mapped = V>>(
    buf: &[u8],
    pos: u32,
) -> UnverifiedWay
    requires { IsTrue (are_fitting K.kind V.kind M.E) }
    ensures stands { WayStands K.kind V.kind M.E buf.now result }
    ensures gives { (comparison : K.kind.Value → Comparison)
        (r : Result (Option (ℕ × ℕ)) Refusal) →
        WayGives K.kind V.kind M.E buf.now K.Refuses V.Refuses comparison 32 result r →
        LookupGives K.kind V.kind M.E buf.now comparison K.Refuses V.Refuses pos r }
{
    match check_own_bytes(buf, pos, 8, 4) {
        Err(refusal) => UnverifiedWay::Ended(Err(refusal)),
        Ok(_) => {
            if num32(buf, pos + 4) == 0 {
                return UnverifiedWay::Ended(Ok(None));
            }
            match node_place::<K, V, M>(buf, pos, pos) {
                Ok(root) => UnverifiedWay::On(root, pos),
                Err(refusal) => UnverifiedWay::Ended(Err(refusal)),
            }
        }
    }
}

/// Returns the way a level below, which is the same if it has ended.
#[inline(always)]
fn step_down<
    'a,
    Q,
    K: CheckBytes,
    V: CheckBytes,
    M: ArchivedMap<Key = K, Mapped = V>,
    W: Shows<'a, K>,
    C: Fn(&Q, W) -> Compared,
>(buf: &'a [u8], way: UnverifiedWay, key: &Q, cmp: &C, all: bool) -> UnverifiedWay
    requires callable { C.IsAlwaysCallable cmp.now }
    requires fitting { IsTrue (are_fitting K.kind V.kind M.E) }
    requires stands { WayStands K.kind V.kind M.E buf.now way }
    ensures { Steps K.kind V.kind M.E buf.now K.Refuses V.Refuses
        (IsComparedBy (C.post cmp.now) (shown_value K.kind W.Shows)) key.now way result }
{
    match way {
        UnverifiedWay::On(node, hi) => {
            let mut steps = StepCounter::new();
            match search_node::<Q, K, V, M, W, C>(buf, node, hi, key, cmp, &mut steps, all) {
                Err(refusal) => UnverifiedWay::Ended(Err(refusal)),
                Ok(Next::Hit(i)) => UnverifiedWay::Ended(Ok(Some((node, i)))),
                Ok(Next::Miss) => UnverifiedWay::Ended(Ok(None)),
                Ok(Next::Down(below)) => UnverifiedWay::On(below, node),
            }
        }
        UnverifiedWay::Ended(end) => UnverifiedWay::Ended(end),
    }
}

/// Takes the search for each key one level down, and returns whether any goes on.
#[inline(always)]
fn level_down<
    'a,
    Q,
    K: CheckBytes,
    V: CheckBytes,
    M: ArchivedMap<Key = K, Mapped = V>,
    W: Shows<'a, K>,
    C: Fn(&Q, W) -> Compared,
>(buf: &'a [u8], keys: &[Q], cmp: &C, all: bool, ways: &mut [UnverifiedWay; 16]) -> bool
    requires callable { C.IsAlwaysCallable cmp.now }
    requires fitting { IsTrue (are_fitting K.kind V.kind M.E) }
    requires stand { EachKey keys.now (λ i key.
        WayStands K.kind V.kind M.E buf.now (way_at ways.old i)) }
    ensures steps { EachKey keys.now (λ i key.
        Steps K.kind V.kind M.E buf.now K.Refuses V.Refuses
        (IsComparedBy (C.post cmp.now) (shown_value K.kind W.Shows))
        key (way_at ways.old i) (way_at ways.new i)) }
    ensures ended { result ≡ false → EachKey keys.now (λ i key. HasEnded (way_at ways.new i)) }
{
    let mut going = false;
    for i in 0..keys.len().min(SIDE_BY_SIDE) {
        let way = step_down::<Q, K, V, M, W, C>(buf, ways[i], &keys[i], cmp, all);
        ways[i] = way;
        going |= way.goes_on();
    }
    going
}

/// Returns the ways of the searches of the map at `pos` for the first sixteen keys, which have all ended or are too deep.
pub(crate) fn search_many<
    'a,
    Q,
    K: CheckBytes,
    V: CheckBytes,
    M: ArchivedMap<Key = K, Mapped = V>,
    W: Shows<'a, K>,
    C: Fn(&Q, W) -> Compared,
>(buf: &'a [u8], pos: u32, keys: &[Q], cmp: &C, all: bool) -> [UnverifiedWay; 16]
    requires callable { C.IsAlwaysCallable cmp.now }
    requires fitting { IsTrue (are_fitting K.kind V.kind M.E) }
    ensures stands { EachKey keys.now (λ i key.
        EndStands K.kind V.kind M.E buf.now (result_of (way_at result i))) }
    ensures gives { EachKey keys.now (λ i key. (c : Q → K.kind.Value → Comparison)
        → IsComparedBy (C.post cmp.now) (shown_value K.kind W.Shows) c
        → LookupGives K.kind V.kind M.E buf.now (c key) K.Refuses V.Refuses pos
        (result_of (way_at result i))) }
{
    let mut ways = [first_way::<K, V, M>(buf, pos); 16];
    for level in 0..LEVELS {
        if !level_down::<Q, K, V, M, W, C>(buf, keys, cmp, all, &mut ways) {
            break;
        }
    }
    ways
}
