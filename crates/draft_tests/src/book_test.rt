// What the own book of a draft tells.
use crate::lent::{Lent, Places};
use crate::sheet::{AMPLE, MISSING, enter_sheet, filled, step};
use bits::record::Bits;
use draft::fault::DraftFault;
use draft::state::Draft;
use frames::record::Frames;
use rows::{OrderedRow, Row};
use rules::Book;
use rules::pair::Joined;
use runs::record::Runs;
use std::process::Abort;
use std::test::Fail;
use tables::record::Tables;

// The book tells these fields as the scope of rule k.
fn tells_scope<R: Row, B: Book<R>>(rt: &impl Abort, book: &B, k: usize, scope: &[u8]) {
    assert_eq!(rt; book.scope_size(k) as usize, scope.len());
    for (place, field) in scope.iter().enumerate() {
        assert_eq!(rt; book.scope_field(k, place), *field);
    }
}

// The book tells these scopes, in order.
fn tells<R: Row, B: Book<R>>(rt: &impl Abort, book: &B, scopes: &[&[u8]]) {
    assert_eq!(rt; book.rule_count(), scopes.len());
    for (k, scope) in scopes.iter().enumerate() {
        tells_scope(rt, book, k, scope);
    }
}

// The own book of a draft tells these scopes.
fn own_book_tells<R: OrderedRow>(
    rt: &impl Abort,
    draft: &Draft,
    lent: &mut Lent<R>,
    scopes: &[&[u8]],
) -> Result<(), Fail> {
    let memory = lent.lists.lend();
    match draft.own_book(&memory) {
        Ok(book) => tells::<R, Joined<Tables, Frames>>(rt, &book, scopes),
        Err(_) => return Err(Fail::new("the own book is refused")),
    }
    Ok(())
}

// Why the own book of a draft is refused; none if it is not.
fn own_book_fault(draft: &Draft, lent: &mut Lent<Bits>) -> Option<DraftFault> {
    let memory = lent.lists.lend();
    draft.own_book(&memory).err()
}

// Tables come first, then frames, each in order; a table that lacks cells is not in it.
fn books<R: OrderedRow>(rt: &(impl Abort + AllocGlobal)) -> Result<(), Fail> {
    let mut lent = Lent::<R>::blank(rt.alloc(), AMPLE)?;
    own_book_tells(rt, &Draft::new(), &mut lent, &[])?;
    let draft = enter_sheet(rt, &mut lent, true);
    own_book_tells(rt, &draft, &mut lent, &[&[0, 1, 2], &[3, 4]])?;
    let after = step(rt, draft, &mut lent, MISSING);
    own_book_tells(
        rt,
        &after,
        &mut lent,
        &[&[0, 1, 2], &[1, 2, 3, 0, 4], &[3, 4]],
    )
}

#[test]
fn the_own_book_has_what_is_entered(rt: HostRuntime) -> Result<(), Fail> {
    books::<Bits>(&rt)?;
    books::<Runs>(&rt)
}

// The own book of the small sheet over these places is refused.
fn is_refused(rt: &(impl Abort + AllocGlobal), places: Places) -> Result<(), Fail> {
    let mut whole = Lent::<Bits>::blank(rt.alloc(), AMPLE)?;
    let draft = enter_sheet(rt, &mut whole, true);
    let mut lent = whole.copied(places)?;
    assert_eq!(rt; own_book_fault(&draft, &mut lent), Some(DraftFault::Short));
    Ok(())
}

#[test]
fn less_memory_than_the_entries_fill_has_no_book(rt: HostRuntime) -> Result<(), Fail> {
    let just = filled(true);
    is_refused(&rt, Places { ranges: 5, ..just })?;
    is_refused(&rt, Places { heads: 1, ..just })?;
    is_refused(&rt, Places { cells: 5, ..just })?;
    is_refused(&rt, Places { frames: 0, ..just })?;
    is_refused(&rt, Places { parts: 1, ..just })
}
