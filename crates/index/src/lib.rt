// The place of the first element of a set that equals a value: "equal set elements give all lookups
// to the first". A digital search tree over the init values, of one word an element, finds it: its
// nodes are places in lent scratch words, since nothing is allocated. The elements are values of
// init rows in a slice, 4 words a row.
#![tactic(auto)]

ghost use Rattle.std.specs.Prelude.{◌≡◌};
ghost use Rattle.index.specs.Values.{values_in};
ghost use Rattle.index.specs.Tree.{children_in, word_of, side_of, joined, child_at, child_of, stop_of, found_at, inserted, grown};

// Where a search ends: the node, and what is left of the key there.
#[derive(Clone, Copy)]
pub(crate) struct Stop {
    pub node: usize,
    pub key: u64,
}

// Two nodes below this fit a word.
const LIMIT: u64 = 65536;

// The two children in a word.
#[derive(Clone, Copy)]
struct Children {
    left: usize,
    right: usize,
}

impl From<u64> for Children {
    ghost from_gives = { λ word children. children ≡ children_in word };

    #[tactic(auto, unfolding(memory::specs::Rows::limit))]
    fn from(word: u64) -> Children {
        Children {
            left: (word / LIMIT % LIMIT) as usize,
            right: (word % LIMIT) as usize,
        }
    }
}

impl From<Children> for u64 {
    ghost from_gives = { λ children word. word ≡ word_of children };

    #[tactic(auto, unfolding(memory::specs::Rows::limit))]
    fn from(children: Children) -> u64 {
        children.left as u64 % LIMIT * LIMIT + children.right as u64 % LIMIT
    }
}

// The child in a word on the side that a key names.
#[tactic(auto, unfolding(crate::specs::Tree::side_of))]
fn side(key: u64, word: u64) -> usize
    ensures { result ≡ side_of key word }
{
    let Children { left, right } = Children::from(word);
    if key % 2 == 0 { left } else { right }
}

// A word with a node put on that side.
#[tactic(auto, unfolding(crate::specs::Tree::joined, memory::specs::Rows::limit))]
fn join(key: u64, word: u64, node: usize) -> u64
    ensures { result ≡ joined key word node }
{
    let children = Children::from(word);
    if key % 2 == 0 {
        u64::from(Children {
            left: node,
            ..children
        })
    } else {
        u64::from(Children {
            right: node,
            ..children
        })
    }
}

// The child of a node among n nodes on the side that a key names.
#[tactic(auto, unfolding(crate::specs::Tree::child_at))]
fn child(n: usize, links: &[u64], node: usize, key: u64) -> Option<usize>
    ensures { result ≡ child_of n links.now node key }
{
    let next = side(key, words::word(links, node));
    if node < next && next < n {
        Some(next)
    } else {
        None
    }
}

// What a set's elements are looked up in: the rows that have them, and the links of the nodes.
#[derive(Clone, Copy)]
pub struct Tree<'a> {
    pub inits: &'a [u64],
    pub links: &'a [u64],
}

impl<'a> Tree<'a> {
    // The search for a value. It follows links, and has nothing to count or to iterate over.
    fn walk(self, value: u64) -> Stop
        ensures { result ≡ stop_of value (values_in self.entry.inits.now) self.entry.links.now }
    {
        let n = self.inits.len() / 4;
        let mut node = 0;
        let mut key = value;
        while words::value(self.inits, node) != value {
            let Some(next) = child(n, self.links, node, key) else {
                return Stop { node, key };
            };
            node = next;
            key = key / 2;
        }
        Stop { node, key }
    }

    // The place that the tree gives of a value.
    pub fn find(self, value: u64) -> Option<usize>
        ensures { result ≡ found_at value (values_in self.entry.inits.now) self.entry.links.now }
    {
        let n = self.inits.len() / 4;
        let stop = self.walk(value);
        let node = stop.node;
        if node < n && words::value(self.inits, node) == value {
            Some(node)
        } else {
            None
        }
    }
}

// Node k is put where the search for its value ends, unless an earlier node has that value.
#[tactic(auto, unfolding(crate::specs::Tree::inserted), using(crate::proofs::Values::values_at))]
fn insert(k: usize, inits: &[u64], links: &mut [u64])
    ensures { links.new ≡ inserted (values_in inits.now) links.old k }
{
    let value = words::value(inits, k);
    let stop = Tree { inits, links }.walk(value);
    if words::value(inits, stop.node) != value {
        let word = words::word(links, stop.node);
        words::store(links, stop.node, join(stop.key, word, k));
    }
}

// The tree over all elements, where the words lent are 0.
#[tactic(auto, unfolding(crate::specs::Tree::grown), using(crate::proofs::Values::values_many, crate::proofs::Insertion::grown_next, crate::proofs::Insertion::grown_done))]
pub fn grow(inits: &[u64], links: &mut [u64])
    ensures { links.new ≡ grown (values_in inits.now) links.old }
{
    let n = inits.len() / 4;
    for k in 1..n {
        insert(k, inits, links);
    }
}
