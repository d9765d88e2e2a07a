// The records of a section as one value: the list of them. Record i is read straight from the bytes.
ghost use Rattle.std.specs.Prelude.{List, [], ◌≡◌, ◌+◌, ◌*◌, ◌^◌, ◌≤◌, ◌<◌, ◌↔◌, length, get_or, IsTrue};
ghost use Rattle.std.specs.Iterator.{YieldsFirst, item_count};
ghost use Rattle.image.specs.Image.{records_in};
ghost use Rattle.image.specs.There.{Holds};
ghost use Rattle.image.specs.Table.{records_at};

use crate::kinds::Record;
use crate::section::Section;
use std::marker::{Model, PhantomData};

#[derive(Drop)]
pub struct Table<'a, R: Record> {
    bytes: &'a [u8],
    at: usize,
    count: usize,
    of: PhantomData<R>,
}

impl<'a, R: Record> Model for Table<'a, R> {
    ghost Value = { List R };

    ghost view = { λ t. records_at R.WIDTH R.from t.bytes.now t.at t.count };

    ghost invariant = { λ t. t.at + R.WIDTH * t.count ≤ length t.bytes.now };
}

impl<'a, R: Record> Table<'a, R> {
    // The records of a section that is there.
    #[tactic(auto, using(crate::proofs::Tables::tables))]
    pub fn new(bytes: &'a [u8], section: Section) -> Table<'a, R>
        requires { Holds bytes.now section R.WIDTH }
        ensures { result ≡ records_in R.from bytes.now section }
    {
        Table {
            bytes,
            at: section.at as usize,
            count: section.count as usize,
            of: PhantomData,
        }
    }

    #[tactic(auto, using(crate::proofs::Tables::tables))]
    pub fn len(&self) -> usize
        ensures { result ≡ length self.now }
    {
        self.count
    }

    #[tactic(auto, using(crate::proofs::Tables::tables))]
    pub fn is_empty(&self) -> bool
        ensures { IsTrue result ↔ (self.now ≡ []) }
    {
        self.count == 0
    }

    #[tactic(auto, using(crate::proofs::Tables::tables))]
    pub fn get(&self, i: usize) -> R
        requires { i < length self.now }
        ensures { result ≡ get_or self.now i (R.from [] 0) }
    {
        R::read(self.bytes, self.at + R::WIDTH * i)
    }

    #[tactic(auto, using(crate::proofs::Tables::tables))]
    pub fn iter(&self) -> Records<'a, R>
        ensures items { result ≡ self.now }
        ensures fits { length result < 2 ^ 64 }
    {
        Records {
            bytes: self.bytes,
            at: self.at,
            left: self.count,
            of: PhantomData,
        }
    }
}

// The records that are left of a table.
#[derive(Drop)]
pub struct Records<'a, R: Record> {
    bytes: &'a [u8],
    at: usize,
    left: usize,
    of: PhantomData<R>,
}

impl<'a, R: Record> Model for Records<'a, R> {
    ghost Value = { List R };

    ghost view = { λ t. records_at R.WIDTH R.from t.bytes.now t.at t.left };

    ghost invariant = { λ t. t.at + R.WIDTH * t.left ≤ length t.bytes.now };
}

impl<'a, R: Record> Iterator for Records<'a, R> {
    type Item = R;

    ghost next_gives = { YieldsFirst (λ rest. rest) };

    ghost remaining = { item_count (λ rest. rest) };

    #[tactic(auto, using(crate::proofs::Tables::tables))]
    fn next(&mut self) -> Option<R> {
        if self.left == 0 {
            return None;
        }
        let record = R::read(self.bytes, self.at);
        self.at += R::WIDTH;
        self.left -= 1;
        Some(record)
    }
}
