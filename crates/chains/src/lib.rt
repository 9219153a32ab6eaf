// Finding a number among the first of a table: those with the same hash are a chain, each linked to the one before, and a search goes
// along the chain of its number.
#![tactic(auto)]

ghost use Rattle.std.specs.Prelude.{◌≡◌, cond, ◌||◌, ◌+◌, ◌<◌, ◌≤◌, length, get_or, set, replicate, ltb};
ghost use Rattle.chains.specs.Chain.{hash_of, link_behind, found_from, place_told, is_outside, heads_upto, next_upto};

// The chain of a packed record: records that follow one another come into different chains.
pub fn hash(x: u64) -> u8
    ensures { result ≡ hash_of x }
{
    let high = x / 4294967296 * 40503;
    let low = x % 4294967296 * 34283;
    ((high + low) / 65536 % 256) as u8
}

// The chains of a table: which number each of them begins at, and which one each number is linked to. Here numbers are counted from 1 and 0
// is behind the end of a chain: two bytes a link, where an Option would take four.
#[derive(Clone, Copy)]
pub struct Chains {
    pub heads: [u16; 256],
    pub next: [u16; 256],
}

impl Chains {
    // No number is in any chain.
    pub fn new() -> Self
        ensures { (result.heads ≡ replicate 256 0) × (result.next ≡ replicate 256 0) }
    {
        Chains {
            heads: [0; 256],
            next: [0; 256],
        }
    }

    // Where the chain goes on behind its number c. It ends, with 0, where it is linked to nothing or not downwards: so every search ends,
    // whatever the links are.
    fn link_behind(&self, c: u16) -> u16
        requires { 0 < c }
        ensures { (result ≡ link_behind self.now.next c) × (result < c) }
    {
        if 256 < c {
            return 0;
        }
        let behind = self.next[usize::from(c) - 1];
        if behind < c { behind } else { 0 }
    }

    // The place in the table of the first number along the chain h that is x.
    pub fn find(&self, table: &[u64], h: u8, x: u64) -> Option<u16>
        ensures { result ≡ place_told (found_from table.now self.now.next x (get_or self.now.heads h 0)) }
    {
        let mut c = self.heads[usize::from(h)];
        // Along the chain: each number says which is before it.
        while c != 0 {
            let i = usize::from(c) - 1;
            if table.len() <= i {
                return None;
            }
            if table[i] == x {
                return Some(c - 1);
            }
            c = self.link_behind(c);
        }
        None
    }

    // The same along the chain of x.
    pub fn look_up(&self, table: &[u64], x: u64) -> Option<u16>
        ensures { result ≡ place_told (found_from table.now self.now.next x (get_or self.now.heads (hash_of x) 0)) }
    {
        self.find(table, hash(x), x)
    }

    // Enters number n of a table, counted from 0, into the chain h.
    pub fn link(&mut self, n: u8, h: u8)
        ensures { (self.new.heads ≡ set self.old.heads h (n + 1)) × (self.new.next ≡ set self.old.next n (get_or self.old.heads h 0)) }
    {
        self.next[usize::from(n)] = self.heads[usize::from(h)];
        self.heads[usize::from(h)] = u16::from(n) + 1;
    }

    // Enters the first n numbers of a table into the chains of their hashes, upwards.
    fn link_all(&mut self, table: &[u64], n: usize)
        requires { (n ≤ 256) × (n ≤ length table.now) }
        ensures { (self.new.heads ≡ heads_upto table.now n self.old.heads) × (self.new.next ≡ next_upto table.now n self.old.heads self.old.next) }
    {
        for (i, x) in table[..n].iter().enumerate() {
            self.link(i as u8, hash(*x));
        }
    }

    // The same for any n: where these are more than 256, or more than the table has, none is entered.
    pub fn link_upto(&mut self, table: &[u64], n: usize)
        ensures { (self.new.heads ≡ cond (is_outside table.now n) self.old.heads (heads_upto table.now n self.old.heads)) × (self.new.next ≡ cond (is_outside table.now n) self.old.next (next_upto table.now n self.old.heads self.old.next)) }
    {
        if n <= 256 && n <= table.len() {
            self.link_all(table, n);
        }
    }
}
