// The instances of each formula of a book: which of its records are the formula with one key put for its variable. The book comes as its
// index, which says of each formula which variables it has.
#![tactic(auto)]

ghost use Rattle.std.specs.Prelude.{◌≡◌, cond, ◌≤◌, length};
ghost use Rattle.format.specs.Index.{record_in};
ghost use Rattle.chains.specs.Chain.{Ready};
ghost use Rattle.instances.specs.Images.{has_just, count_just, list_just, field_image, mapped, image_of};
ghost use Rattle.instances.specs.Rows.{with_bit, has_delegation, own_one, own_upto, imaged_upto, key_one, keys_upto, put_for, variable_one, variables_upto, instances_of};

use chains::Chains;
use format::Index;
use logic::Record;

// What a formula without image has for one: a book has no formula of this number. It is a number and no None, since it is put into the fields of
// the record that is then looked for, and not found.
const NO_IMAGE: u16 = 256;

// Formula x in row y; what is no formula of a book is left out.
#[tactic(auto, unfolding(crate::specs::Rows::with_bit))]
fn add(rows: &mut [u64], y: u8, x: u16)
    ensures { rows.new ≡ with_bit rows.old y x }
{
    if x < 256 {
        facts::add_to_row(rows, u16::from(y), x as u8);
    }
}

fn kind_of(index: &Index, x: usize) -> u8
    ensures { result ≡ (record_in index.now.numbers.now x).kind }
{
    index.record_in(x).kind
}

// Whether one of the formulas is of kind 17. Without one nobody asks for instances.
pub fn has_delegation(index: &Index) -> bool
    ensures { result ≡ has_delegation index.now.numbers.now index.now.formulas }
{
    (0..index.formulas).any(|x| kind_of(index, x) == facts::DELEGATION)
}

// What is noted of a formula with no variable and no kind 17.
const NO_VARIABLES: u64 = 0;

// Formula y in its own row, if it has no variable and no kind 17.
#[tactic(auto, unfolding(crate::specs::Rows::own_one))]
fn add_own(index: &Index, y: u8, rows: &mut [u64])
    ensures { rows.new ≡ own_one index.now.numbers.now y rows.old }
{
    if index.variables_at(u16::from(y)) == NO_VARIABLES {
        add(rows, y, u16::from(y));
    }
}

#[tactic(auto, unfolding(crate::specs::Rows::own_upto))]
fn add_each_own(index: &Index, rows: &mut [u64])
    requires { index.now.formulas ≤ 256 }
    ensures { rows.new ≡ own_upto index.now.numbers.now index.now.formulas rows.old }
{
    for y in 0..index.formulas {
        add_own(index, y as u8, rows);
    }
}

// Whether formula y has just the variable v, and no kind 17.
#[tactic(auto, unfolding(crate::specs::Images::has_just))]
fn has_just(index: &Index, v: u8, y: u16) -> bool
    ensures { result ≡ has_just index.now.numbers.now v y }
{
    index.variables_at(y) == 1 + u64::from(v)
}

// The formulas with just the variable v, upwards, and how many they are: in a fixed array with its count, as this library has no heap.
fn list_just(index: &Index, v: u8, just: &mut [u8; 256]) -> usize
    requires { index.now.formulas ≤ 256 }
    ensures { (result ≡ count_just index.now.numbers.now v index.now.formulas) × (just.new ≡ list_just index.now.numbers.now v index.now.formulas just.old) }
{
    let mut m: usize = 0;
    for y in 0..index.formulas {
        if has_just(index, v, y as u16) {
            just[m] = y as u8;
            m += 1;
        }
    }
    m
}

// The formulas of a book, with the chains along which one is found.
#[derive(Clone, Copy)]
struct Formulas<'a> {
    index: &'a Index<'a>,
    chains: &'a Chains,
    ghost ready: { Ready index.now.numbers.now chains.now.heads chains.now.next index.now.formulas },
}

// The images of formulas that have just the variable v, with the key k for v: those of the formulas that are worked out already.
#[derive(Drop)]
struct Images<'a> {
    formulas: Formulas<'a>,
    v: u8,
    k: u8,
    images: [u16; 256],
}

impl Images<'_> {
    // A field that refers to formula x: where x has just the variable v its image, else x.
    #[tactic(auto, unfolding(crate::specs::Images::field_image))]
    fn field(&self, x: u16) -> u16
        ensures { result ≡ field_image self.now.formulas.index.now.numbers.now self.now.v self.now.images x }
    {
        if has_just(self.formulas.index, self.v, x) && x < 256 {
            self.images[usize::from(x)]
        } else {
            x
        }
    }

    // The same for a field that the kind of its record may not have.
    fn part(&self, has: bool, x: u16) -> u16
        ensures { result ≡ cond has (field_image self.now.formulas.index.now.numbers.now self.now.v self.now.images x) x }
    {
        if has { self.field(x) } else { x }
    }

    // A record with its fields mapped. One with a field that has no image is no record of the book.
    #[tactic(auto, unfolding(crate::specs::Images::mapped))]
    fn record(&self, r: Record) -> Record
        ensures { result ≡ mapped self.now.formulas.index.now.numbers.now self.now.v self.now.images r }
    {
        let size = format::size_of(r.kind);
        Record {
            kind: r.kind,
            first: self.field(r.first),
            second: self.part(3 < size, r.second),
            third: self.part(5 < size, r.third),
        }
    }

    // The image of formula y, where the formulas before y have theirs.
    #[tactic(auto, unfolding(crate::specs::Images::image_of))]
    fn image_of(&self, y: u8) -> u16
        ensures { result ≡ image_of self.now.formulas.index.now.numbers.now self.now.formulas.index.now.formulas self.now.v self.now.k self.now.images y }
    {
        if y == self.v {
            return u16::from(self.k);
        }
        let index = self.formulas.index;
        let r = self.record(index.record_in(usize::from(y)));
        self.formulas
            .chains
            .look_up(index.numbers, format::pack(r))
            .unwrap_or(NO_IMAGE)
    }
}

impl Formulas<'_> {
    // The key k for v in the formulas that have just v, upwards: each image goes into the row of its formula.
    fn put_key(&self, v: u8, k: u8, just: &[u8], rows: &mut [u64])
        ensures { rows.new ≡ imaged_upto self.now.index.now.numbers.now self.now.index.now.formulas v k just.now (length just.now) rows.old }
    {
        let mut images = Images {
            formulas: *self,
            v,
            k,
            images: [NO_IMAGE; 256],
        };
        for &y in just {
            let x = images.image_of(y);
            images.images[usize::from(y)] = x;
            add(rows, y, x);
        }
    }

    // Each key for v in these formulas.
    #[tactic(auto, unfolding(crate::specs::Rows::key_one, crate::specs::Rows::keys_upto))]
    fn put_each_key(&self, v: u8, just: &[u8], rows: &mut [u64])
        ensures { rows.new ≡ keys_upto self.now.index.now.numbers.now self.now.index.now.formulas v just.now (length just.now) self.now.index.now.formulas rows.old }
    {
        for k in 0..self.index.formulas {
            if kind_of(self.index, k) == 2 {
                self.put_key(v, k as u8, just, rows);
            }
        }
    }

    // Each key for v, in all formulas that have just v.
    fn put_for(&self, v: u8, rows: &mut [u64])
        ensures { rows.new ≡ put_for self.now.index.now.numbers.now self.now.index.now.formulas v rows.old }
    {
        let mut just = [0u8; 256];
        let m = list_just(self.index, v, &mut just);
        self.put_each_key(v, &just[..m], rows);
    }

    // The same for each variable.
    #[tactic(auto, unfolding(crate::specs::Rows::variable_one, crate::specs::Rows::variables_upto))]
    fn put_for_each(&self, rows: &mut [u64])
        ensures { rows.new ≡ variables_upto self.now.index.now.numbers.now self.now.index.now.formulas self.now.index.now.formulas rows.old }
    {
        for v in 0..self.index.formulas {
            if kind_of(self.index, v) == 16 {
                self.put_for(v as u8, rows);
            }
        }
    }
}

// The instances of each formula of a book, from its index, in the first 256 rows of a table that was blank. What is no index of a book, too
// short a table or too many formulas, leaves the rows as they are.
#[tactic(auto, unfolding(crate::specs::Rows::instances_of))]
pub fn list_instances(index: &Index, rows: &mut [u64])
    ensures { rows.new ≡ instances_of index.now.numbers.now index.now.formulas rows.old }
{
    if 256 < index.formulas || index.numbers.len() < format::INDEX_SIZE {
        return;
    }
    // A copy of its own: then it is seen that what is stored leaves the index as it is, and it is not read anew each time (2 to 4 % of the
    // prover's time).
    let index = *index;
    let mut chains = Chains::new();
    chains.link_upto(index.numbers, index.formulas);
    add_each_own(&index, rows);
    let formulas = Formulas {
        index: &index,
        chains: &chains,
    };
    formulas.put_for_each(rows);
}
