// Small rows, and what enumeration says of three fields of values 0 to 7.
use bits::record::Bits;
use rows::Row;
use rules::Book;
use rules::fault::NarrowFault;
use std::alloc::{AllocError, Global};
use std::process::Abort;
use std::test::Fail;

// The values of some small rows, a bit for each.
const SHAPES: [u8; 6] = [0, 0b1, 0b1000_0000, 0b0101_0010, 0b1111_1111, 0b0011_1100];

// The row of the values that a shape has.
fn row_of<R: Row>(shape: u8) -> R {
    let mut row = R::make(0, 7);
    for v in 0..8u8 {
        if shape >> v & 1 == 0 {
            row = row.without(v);
        }
    }
    row
}

// Rows of three shapes.
pub(crate) fn rows_of<R: Row>(heap: Global, shapes: [u8; 3]) -> Result<Vec<R>, AllocError> {
    shapes.iter().map(|shape| row_of::<R>(*shape)).collect(heap)
}

// How many values the rows have in all.
fn total<R: Row>(rows: &[R]) -> usize {
    rows.iter()
        .fold(0usize, |count, row| count.saturating_add(row.size()))
}

// The values of three shapes that stand in some line that is allowed.
fn listed<F: Fn(u8, u8, u8) -> bool>(shapes: [u8; 3], allows: &F) -> [u8; 3]
    requires { F.IsAlwaysCallable allows.now }
{
    let [x, y, z] = shapes;
    let [mut left_x, mut left_y, mut left_z] = [0u8; 3];
    for a in 0..8u8 {
        for b in 0..8u8 {
            for c in 0..8u8 {
                let inside = x >> a & y >> b & z >> c & 1 == 1;
                if inside && allows(a, b, c) {
                    left_x |= 1 << a;
                    left_y |= 1 << b;
                    left_z |= 1 << c;
                }
            }
        }
    }
    [left_x, left_y, left_z]
}

// The rows have just the values of the shapes.
pub(crate) fn holds<R: Row>(rt: &impl Abort, case: &str, rows: &[R], shapes: [u8; 3]) {
    assert_eq!(rt; rows.len(), 3);
    for (row, shape) in rows.iter().zip(shapes.iter()) {
        for v in 0..8u8 {
            assert_eq!(rt; row.has(v), *shape >> v & 1 == 1, "{case}");
        }
    }
}

// Runs a test on rows of any three shapes.
pub(crate) fn every_shape<F: Fn([u8; 3]) -> Result<(), Fail>>(test: F) -> Result<(), Fail>
    requires { F.IsAlwaysCallable test }
{
    for a in SHAPES {
        for b in SHAPES {
            for c in SHAPES {
                test([a, b, c])?;
            }
        }
    }
    Ok(())
}

// Rows of some shapes, narrowed by the first rule of a book, which says whether they lost a value.
pub(crate) fn narrowed<R: Row, B: Book<R>>(
    rt: &(impl Abort + AllocGlobal),
    book: &B,
    shapes: [u8; 3],
) -> Result<Vec<R>, Fail> {
    let mut rows = rows_of::<R>(rt.alloc(), shapes)?;
    let before = total(rows.as_slice());
    let changed = book.narrow(0, 3, rows.as_mut_slice())?;
    assert_eq!(rt; changed, total(rows.as_slice()) < before);
    Ok(rows)
}

// Rows of any shapes, narrowed by the first rule of a book, have what enumeration leaves.
pub(crate) fn leaves_listed<R: Row, B: Book<R>, F: Fn(u8, u8, u8) -> bool>(
    rt: &(impl Abort + AllocGlobal),
    book: &B,
    allows: &F,
) -> Result<(), Fail>
    requires { F.IsAlwaysCallable allows.now }
{
    every_shape(
        |shapes: [u8; 3]| -> Result<(), Fail>
            requires { F.IsAlwaysCallable allows.now }
        {
            let rows = narrowed::<R, B>(rt, book, shapes)?;
            let left = listed(shapes, allows);
            holds(rt, "as enumerated", rows.as_slice(), left);
            Ok(())
        },
    )
}

// A rule that does not fit is refused, and the rows keep their sets.
pub(crate) fn refuses<B: Book<Bits>, const N: usize>(
    rt: &impl Abort,
    case: &str,
    book: &B,
    k: usize,
    n: usize,
    mut rows: [Bits; N],
    sizes: [usize; N],
) {
    assert_eq!(rt;
        book.narrow(k, n, &mut rows),
        Err(NarrowFault::Unfit),
        "{case}"
    );
    for (row, size) in rows.iter().zip(sizes.iter()) {
        assert_eq!(rt; row.size(), *size, "{case}");
    }
}
