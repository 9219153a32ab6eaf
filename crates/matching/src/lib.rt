// Whether formula x is formula y with one key put for the variable v throughout. This is the checker's own test: it shares no code with the
// search, which lists the instances of a formula in the crate `instances`. So a mistake there lets no wrong derivation pass.
// Formulas share their parts, so no tree is walked. One pass goes down from y over the records; `image` has for each formula which one stands
// in its place, or none as long as none does.
#![tactic(auto)]

ghost use Rattle.std.specs.Prelude.{◌≡◌, ◌+◌, set};
ghost use Rattle.format.specs.Index.{look_in};
ghost use Rattle.matching.specs.Instance.{as_image, image_in, may_stand, may_all_stand, with_images, has_three, fields_of, is_fixed, is_kept, onward, are_kept, left_by, is_instance_in};

use format::Index;
use logic::Record;

fn image_of(image: &[Option<u16>], a: u16) -> Option<u16>
    ensures { result ≡ image_in image.now a }
{
    *image.get(usize::from(a))?
}

// Formula b as an image. No book has a formula 256, and `is_instance_in` says of any number what it is: that number is none.
fn as_image(b: u16) -> Option<u16>
    ensures { result ≡ as_image b }
{
    if b == 256 { None } else { Some(b) }
}

// Formula b in the place of a. By a test and not by `get_mut`: after `if let Some(place) = image.get_mut(i)` the check does not know what the
// images are.
fn put_image(image: &mut [Option<u16>], a: u16, b: u16)
    ensures { image.new ≡ set image.old a (as_image b) }
{
    let i = usize::from(a);
    if i < image.len() {
        image[i] = as_image(b);
    }
}

// Puts b in the place of a, and says whether nothing else stood there: so one formula stands for a throughout, and one key for v.
fn match_field(image: &mut [Option<u16>], a: u16, b: u16) -> bool
    ensures { (result ≡ may_stand image.old a b) × (image.new ≡ set image.old a (as_image b)) }
{
    let before = image_of(image, a);
    put_image(image, a, b);
    before.is_none_or(|x| x == b)
}

fn has_three(kind: u8) -> bool
    ensures { result ≡ has_three kind }
{
    matches!(kind, 5 | 6 | 8 | 10)
}

// The fields of r and q, two records of the same kind from 4 to 15.
fn match_fields(image: &mut [Option<u16>], r: Record, q: Record) -> bool
    ensures { (result ≡ may_all_stand image.old (fields_of r.kind r) (fields_of r.kind q)) × (image.new ≡ with_images image.old (fields_of r.kind r) (fields_of r.kind q)) }
{
    let first = match_field(image, r.first, q.first);
    if r.kind == 11 {
        return first;
    }
    let second = match_field(image, r.second, q.second);
    if !has_three(r.kind) {
        return first && second;
    }
    let third = match_field(image, r.third, q.third);
    first && second && third
}

// The kinds that stand for themselves, but for v: principals, keys, data, variables and kind 17, in which nothing is put.
fn is_fixed(kind: u8) -> bool
    ensures { result ≡ is_fixed kind }
{
    kind < 4 || 15 < kind
}

// Whether what stands in the place of formula i may stand there: a key for v, or a formula of the same kind. What its fields are to stand for
// is entered, and looked at when their turn comes.
fn match_formula(index: &Index, v: u16, i: u16, image: &mut [Option<u16>]) -> bool
    ensures { (result ≡ is_kept (look_in index.now.formulas index.now.numbers.now) v image.old i (image_in image.old i))
        × (image.new ≡ onward (look_in index.now.formulas index.now.numbers.now) v image.old i (image_in image.old i)) }
{
    let Some(x) = image_of(image, i) else {
        return true;
    };
    let q = index.look(x);
    if i == v {
        return q.kind == 2;
    }
    let r = index.look(i);
    if is_fixed(r.kind) {
        return x == i;
    }
    if r.kind != q.kind {
        return false;
    }
    match_fields(image, r, q)
}

// The formulas from y down. Fields refer to earlier formulas, so a formula has its image when its turn comes, or never.
fn match_down(index: &Index, v: u16, y: u16, image: &mut [Option<u16>]) -> bool
    ensures { (result ≡ are_kept (look_in index.now.formulas index.now.numbers.now) v image.old (1 + y))
        × (image.new ≡ left_by (look_in index.now.formulas index.now.numbers.now) v image.old (1 + y)) }
{
    for i in (0..=y).rev() {
        if !match_formula(index, v, i, image) {
            return false;
        }
    }
    true
}

// At first only y has an image. The pass works on a copy of the index: what stands behind a reference is read anew after each write to
// the images, and a test took a quarter longer.
pub fn is_instance(index: &Index, v: u16, y: u16, x: u16) -> bool
    ensures { result ≡ is_instance_in (look_in index.now.formulas index.now.numbers.now) v y x }
{
    let index = *index;
    let mut image = [None; 256];
    put_image(&mut image, y, x);
    match_down(&index, v, y, &mut image)
}
