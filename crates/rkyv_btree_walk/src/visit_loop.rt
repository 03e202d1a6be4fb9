//! The loop of a visit, along a leaf and the path above it.
ghost use Rattle.std.specs.Prelude.{◌≡◌, ◌≤◌, ◌+◌, length, IsTrue};
ghost use Rattle.rkyv_btree_format.specs.Layout.{are_fitting};
ghost use Rattle.rkyv_btree_format.specs.Read.{entry_at};
ghost use Rattle.rkyv_btree_walk.specs.mirror.Node.{RunStands};
ghost use Rattle.rkyv_btree_walk.specs.mirror.Path.{IsPath, LeafStands, read_leaf_rest};
ghost use Rattle.rkyv_btree_walk.specs.Visit.{Visited, shown_both};

use crate::archived_map::ArchivedMap;
use crate::node::{key_pos, value_pos};
use crate::path::{Leaf, Path, climb};
use crate::shows::Shows;
use rkyv_btree_portable::check::Portable;
use std::ops::ControlFlow;

/// The views of entry `index` of the node at `node`.
#[inline(always)]
fn entry<
    'a,
    K: Portable,
    V: Portable,
    M: ArchivedMap<Key = K, Mapped = V>,
    W: Shows<'a, K>,
    X: Shows<'a, V>,
>(buf: &'a [u8], node: u32, index: u32) -> (W, X)
    requires fitting { IsTrue (are_fitting K.kind V.kind M.E) }
    requires short { length buf.now ≤ 4294967295 }
    requires stands { RunStands K.kind V.kind M.E buf.now node index (index + 1) }
    ensures { shown_both K.kind V.kind W.Shows X.Shows result.0 result.1
        ≡ entry_at K.kind V.kind M.E buf.now (node, index) }
{
    let key = W::at(buf, key_pos::<K, V, M>(node, index as usize));
    let value = X::at(buf, value_pos::<K, V, M>(node, index as usize));
    (key, value)
}

/// Calls `visit` at each entry of a leaf and of the path above it, up to the first break, and returns its value.
pub fn visit_rest<
    'a,
    K: Portable,
    V: Portable,
    M: ArchivedMap<Key = K, Mapped = V>,
    W: Shows<'a, K>,
    X: Shows<'a, V>,
    T,
    F: FnMut(W, X) -> ControlFlow<T, ()>,
>(buf: &'a [u8], first: Leaf, path: &mut Path, mut visit: F) -> Option<T>
    requires fitting { IsTrue (are_fitting K.kind V.kind M.E) }
    requires short { length buf.now ≤ 4294967295 }
    requires path { IsPath K.kind V.kind M.E buf.now 32 path.old.items }
    requires stands { LeafStands K.kind V.kind M.E buf.now first }
    requires callable { F.IsAlwaysCallable visit }
    ensures { Visited F.step (shown_both K.kind V.kind W.Shows X.Shows) visit
        (read_leaf_rest K.kind V.kind M.E buf.now first path.old.items) result }
{
    let mut leaf = first;
    'along: loop {
        'within: for index in 0..leaf.count {
            let (key, value) = entry::<K, V, M, W, X>(buf, leaf.node, index);
            match visit(key, value) {
                ControlFlow::Continue(()) => {}
                ControlFlow::Break(found) => return Some(found),
            }
        }
        match climb::<K, V, M>(buf, path) {
            None => return None,
            Some(step) => {
                let (key, value) = entry::<K, V, M, W, X>(buf, step.node, step.index);
                match visit(key, value) {
                    ControlFlow::Continue(()) => leaf = step.leaf,
                    ControlFlow::Break(found) => return Some(found),
                }
            }
        }
    }
}
