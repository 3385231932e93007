// A tournament tree of minima over p leaves: node i, from 1 to p - 1, is the smaller of nodes 2i and 2i + 1; leaf w is node
// p + w; node 1 is the least of all leaves. Nodes are numbers in one list, of fixed size, and `Tree` speaks of it (a).
#![tactic(auto)]

ghost use Rattle.std.specs.Prelude.{◌+◌, ◌*◌, ◌<◌, min, length, true, ◌≡◌};
ghost use Rattle.numbers.specs.Lists.{nth};
ghost use Rattle.tree.specs.Tree.{LeafPut, LeafSet, Leafed, LeavesSet, SameLeaves, Tree, sibling};

use numbers::smaller;

// The smaller of node i's children.
fn lesser_child(tree: &[u64], i: usize) -> u64
    requires { (i < 256) × (2 * i + 1 < length tree.now) }
    ensures { result ≡ min (nth tree.now (2 * i)) (nth tree.now (2 * i + 1)) }
{
    smaller(tree[2 * i], tree[2 * i + 1])
}

// Every inner node made the smaller of its children, from the last one up.
pub fn fill(tree: &mut [u64], p: usize)
    requires { Leafed p tree.old }
    ensures { Tree p tree.new × SameLeaves p tree.old tree.new }
{
    for i in (1..p).rev() {
        tree[i] = lesser_child(tree, i);
    }
}

// Every leaf set to x, whatever the nodes above.
pub fn set_leaves(tree: &mut [u64], p: usize, x: u64)
    requires { Leafed p tree.old }
    ensures { LeavesSet p tree.new p x }
{
    tree[p..2 * p].fill(x);
}

// What node i's parent is where node i is x: the smaller of x and the parent's other child.
fn parent_of(tree: &[u64], i: usize, x: u64) -> u64
    requires { (i < 512) × (sibling i < length tree.now) }
    ensures { result ≡ min x (nth tree.now (sibling i)) }
{
    smaller(x, tree[i + 1 - i % 2 * 2])
}

// Leaf w set to x, and the nodes above it made anew. Each is worked out of the number below it that was just stored, which
// is not read back.
pub fn set_leaf(tree: &mut [u64], p: usize, w: usize, x: u64)
    requires { Leafed p tree.old × (w < p) × Tree p tree.old }
    ensures { LeafSet p tree.old tree.new w x }
{
    let mut i = p + w;
    let mut y = x;
    tree[i] = y;
    // A `while`, as i is halved and not counted: `iter::successors` would give the same i, and be no plainer.
    while 1 < i {
        y = parent_of(tree, i, y);
        i = i / 2;
        tree[i] = y;
    }
}

// Leaf w set to x, and the nodes above it made anew if `climb`, a flag that the clauses read (d).
pub fn put_leaf(tree: &mut [u64], p: usize, w: usize, x: u64, climb: bool)
    requires { Leafed p tree.old × (w < p) × (climb ≡ true → Tree p tree.old) }
    ensures { LeafPut p tree.old tree.new w x × (climb ≡ true → Tree p tree.new) }
{
    if climb {
        set_leaf(tree, p, w, x);
        return;
    }
    tree[p + w] = x;
}
