// Lists of pairs of bytes, and what a pair is: an axis, a cell, or a part of a frame.
ghost use Rattle.std.specs.Iterator.{YieldsFirst, item_count};
ghost use Rattle.std.specs.Prelude.{◌≡◌};
ghost use Rattle.draft.specs.Lists.{pairs, first_field, marked_field, axis_of, cell_of, part_of};

use frames::record::Part;
use tables::record::{Axis, Cell};

// The whole pairs of a list, one after another.
#[derive(Drop)]
pub(crate) struct Pairs<'a>(pub(crate) &'a [u8]);

impl<'a> Iterator for Pairs<'a> {
    type Item = (u8, u8);

    ghost next_gives = { YieldsFirst (λ s. pairs s.0.now) };

    ghost remaining = { item_count (λ s. pairs s.0.now) };

    fn next(&mut self) -> Option<(u8, u8)> {
        let [first, second, rest @ ..] = self.0 else {
            return None;
        };
        self.0 = rest;
        Some((*first, *second))
    }
}

// The field that a pair of an axis or of a part names.
pub(crate) fn first_field(pair: (u8, u8)) -> u8
    ensures { result ≡ first_field pair }
{
    pair.0
}

// The field that a pair of a cell names, if its mark says that it names one.
pub(crate) fn marked_field(pair: (u8, u8)) -> Option<u8>
    ensures { result ≡ marked_field pair }
{
    let (mark, number) = pair;
    if mark == 1 { Some(number) } else { None }
}

// A field and an extent.
pub(crate) fn axis_of(pair: (u8, u8)) -> Axis
    ensures { result ≡ axis_of pair }
{
    Axis {
        field: pair.0,
        extent: pair.1,
    }
}

// A mark and a number, which is a field where the mark is 1 and a constant otherwise.
pub(crate) fn cell_of(pair: (u8, u8)) -> Cell
    ensures { result ≡ cell_of pair }
{
    let (mark, number) = pair;
    if mark == 1 {
        Cell::Field(number)
    } else {
        Cell::Constant(number)
    }
}

// A field and a load.
pub(crate) fn part_of(pair: (u8, u8)) -> Part
    ensures { result ≡ part_of pair }
{
    Part {
        field: pair.0,
        load: pair.1,
    }
}
